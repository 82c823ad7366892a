// A batch: the entries of a lent list, one after another, each on the state that the one before it left.
ghost use Rattle.std.specs.Prelude.{◌≡◌, true, None, Some, MatchResult};
ghost use Rattle.scheduler.specs.Coherent.{coherent};
ghost use Rattle.scheduler.specs.Lists.{scheduler, after};
ghost use Rattle.batch.specs.Batch.{calls_of, answers, batch_fault, batch_reply, batch_entries};

use super::entry::BatchEntry;
use plan::answer::{Answer, CallFault};
use scheduler::reply::Reply;
use scheduler::state::State;

// The most entries that a batch may have.
const MOST: usize = 64;

// Makes the calls that the entries ask for and writes its answer into each entry. Number 12 is tested once, then 13,
// before any entry is looked at. A batch that is turned down leaves the state and every entry as they were.
pub fn submit_all(state: State, entries: &mut [BatchEntry]) -> Reply
    ensures { (result ≡ batch_reply state entries.old) × (entries.new ≡ batch_entries state entries.old) }
{
    match judge(state, entries.len()) {
        Ok(()) => Reply {
            answer: Answer::Made,
            state: take_turns(state, entries),
        },
        Err(fault) => Reply {
            answer: Answer::TurnedDown(fault),
            state,
        },
    }
}

// Number 12, then 13: too many entries.
fn judge(state: State, count: usize) -> Result<(), CallFault>
    ensures { MatchResult result (λ _. batch_fault state count ≡ None) (λ f. batch_fault state count ≡ Some f) }
{
    if !state.is_coherent() {
        return Err(CallFault::Incoherent);
    }
    if MOST < count {
        return Err(CallFault::TooLong);
    }
    Ok(())
}

// The turns of all entries, and the state after the last.
fn take_turns(state: State, entries: &mut [BatchEntry]) -> State
    requires { coherent state ≡ true }
    ensures state { result ≡ after scheduler state (calls_of entries.old) }
    ensures entries { entries.new ≡ answers state entries.old }
{
    let mut next = state;
    for entry in entries.iter_mut() {
        next = entry.take_turn(next);
    }
    next
}
