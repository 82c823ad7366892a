// A list of calls, run on a sheet: the sheet is read, and then each call is made on the state that the one before it
// gave. What calls the bytes may hold is said by a `Codec`.
ghost use Rattle.std.specs.Prelude.{true, ◌≡◌, ◌≤◌, List, ℕ, length, drop};
ghost use Rattle.plan.specs.Calls.{Decoded};
ghost use Rattle.plan.specs.declared.calls.CallRead.{CallRead};
ghost use Rattle.scheduler.specs.declared.state.State.{State};
ghost use Rattle.scheduler.specs.Answers.{accept};
ghost use Rattle.scheduler.specs.Coherent.{coherent};
ghost use Rattle.scheduler.specs.Sheet.{read_sheet, admitted};
ghost use Rattle.scheduler.specs.Lists.{scheduler};
ghost use Rattle.scheduler.specs.Runner.{ran_on, run_on};
ghost use Rattle.scheduler.specs.Demand.{Demand3, seen};
ghost use Rattle.lists.specs.Internal.Underway.{Underway, IsCodec};

use checks::calls::{call_size, skip_finishes};
use checks::fate::is_open;
use plan::calls::{CLOSE, Call, CallRead, FINISH, SUBMIT};
use scheduler::reply::{Outcome, Reading};
use scheduler::state::{Course, State};
use sheet::read::read_sheet;

// How a list's bytes hold its calls: the record at an offset. What the runner's records hold, each codec reads alike.
pub(crate) trait Codec {
    ghost first: { List ℕ → CallRead };

    ghost decoding: { List ℕ → Decoded };

    fn call_at(bytes: &[u8], at: usize) -> CallRead
        ensures { result ≡ first (drop at bytes.now) };

    ghost is_codec: { IsCodec first decoding };
}

// Runs the calls on the sheet. A record that is cut or that the codec doesn't read ends the list and counts as one call
// turned down. On a sheet that is turned down no call is made. The guarantee (demand 3) is true of every admitted sheet
// and every list.
pub(crate) fn run_list<C: Codec>(sheet: &[u8], calls: &[u8]) -> Outcome
    ensures result { result ≡ run_on (read_sheet sheet.now) (C.decoding calls.now) }
    ensures demand3 { (s : State) → read_sheet sheet.now ≡ admitted s → Demand3 s.plan (seen scheduler s (C.decoding calls.now).calls) result.state }
{
    let Reading { verdict, state } = read_sheet(sheet);
    match verdict {
        Ok(()) => take_calls::<C>(state, calls),
        Err(_) => Outcome {
            verdict,
            state,
            refused: 0,
        },
    }
}

// Makes the calls of a list, record after record, from an admitted sheet's first state on. That state is coherent, and
// every call preserves coherence, so number 12 is not tested.
fn take_calls<C: Codec>(state: State, calls: &[u8]) -> Outcome
    requires { coherent state ≡ true }
    ensures { result ≡ ran_on state (C.decoding calls.now) }
{
    let verdict = Ok(());
    let mut next = state;
    let mut at: usize = 0;
    let mut refused: usize = 0;
    loop {
        (at, refused) = skip_idle(&next, calls, at, refused);
        match C::call_at(calls, at) {
            CallRead::Listed(made) => {
                if next.turns_down(made) {
                    refused += 1;
                } else {
                    make(&mut next, made);
                }
                at += call_size(made);
            }
            CallRead::End => {
                return Outcome {
                    verdict,
                    state: next,
                    refused,
                };
            }
            CallRead::Bad => {
                return Outcome {
                    verdict,
                    state: next,
                    refused: refused + 1,
                };
            }
        }
    }
}

// Makes a call that is not turned down, in place: `with_course` would copy the plan too.
fn make(state: &mut State, made: Call)
    ensures { state.new ≡ (accept state.old made).state }
{
    let Course {
        standings,
        broken,
        closed,
        history,
        history_len,
        minute,
    } = state.after_call(made);
    state.standings = standings;
    state.broken = broken;
    state.closed = closed;
    state.history = history;
    state.history_len = history_len;
    state.minute = minute;
}

// Skips the runner's calls from an offset on that leave the state as it is, turned down or not, up to one that may
// change it, a bad record or the last byte. Gives where the list goes on, and how many calls were turned down by then.
fn skip_idle(state: &State, calls: &[u8], from: usize, before: usize) -> (usize, usize)
    requires { (coherent state.now ≡ true) × (before ≤ from) × (from ≤ length calls.now) }
    ensures ahead { from ≤ result.0 }
    ensures same { (first : List ℕ → CallRead) (decoding : List ℕ → Decoded) (s : State) → IsCodec first decoding
        → Underway decoding s calls.now state.now from before
        → Underway decoding s calls.now state.now result.0 result.1 }
{
    let mut at = from;
    let mut refused = before;
    loop {
        (at, refused) = skip_submits(state, calls, at, refused);
        if calls.len() <= at + 1 {
            break;
        }
        let number = calls[at + 1];
        match calls[at] {
            CLOSE if number < 8 && state.closed[number as usize] => {
                refused += 1;
                at += 2;
            }
            FINISH => {
                let unclosed = state.turns_down(Call::Finish);
                if !unclosed && !state.is_idle(Call::Finish) {
                    break;
                }
                let past = skip_finishes(calls, at + 1);
                if unclosed {
                    refused += past - at;
                }
                at = past;
            }
            _ => break,
        }
    }
    (at, refused)
}

// As `skip_idle`, of the submits that follow one another from an offset on. A list of submits that change nothing is
// this loop alone, so it is kept short: its place in memory then matters little.
fn skip_submits(state: &State, calls: &[u8], from: usize, before: usize) -> (usize, usize)
    requires { (coherent state.now ≡ true) × (before ≤ from) × (from ≤ length calls.now) }
    ensures ahead { from ≤ result.0 }
    ensures inside { (result.0 ≤ length calls.now) × (result.1 ≤ result.0) }
    ensures same { (first : List ℕ → CallRead) (decoding : List ℕ → Decoded) (s : State) → IsCodec first decoding
        → Underway decoding s calls.now state.now from before
        → Underway decoding s calls.now state.now result.0 result.1 }
{
    let count = state.plan.event_count;
    let mut at = from;
    let mut refused = before;
    while at + 1 < calls.len() && calls[at] == SUBMIT {
        let number = calls[at + 1];
        if count <= number {
            refused += 1; // no such event
        } else if is_open(state.standings[number as usize].fate) {
            break;
        }
        at += 2;
    }
    (at, refused)
}
