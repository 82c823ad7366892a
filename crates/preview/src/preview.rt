// A preview of a submit (hand in): the submit is made on a copy of the state, and the lines that it adds to the history
// are counted by fate.
ghost use Rattle.std.specs.Prelude.{◌≡◌, ◌≤◌, length};
ghost use Rattle.preview.specs.Preview.{count_of, counts_in, preview_of};

use plan::answer::{Answer, CallFault};
use plan::fate::Fate;
use plan::history::Entry;
use scheduler::state::State;

// How many lines of a history say done, refused, lapsed and forced.
#[derive(Clone, Copy)]
pub struct Counts {
    pub done: u8,
    pub refused: u8,
    pub lapsed: u8,
    pub forced: u8,
}

// What the submit of the event would settle, or why it would be turned down. The caller's state stays as it was.
pub fn preview(state: State, event: u8) -> Result<Counts, CallFault>
    ensures { result ≡ preview_of state event }
{
    let reply = state.submit(event);
    if let Answer::TurnedDown(fault) = reply.answer {
        return Err(fault);
    }
    let from = usize::from(state.history_len);
    let to = usize::from(reply.state.history_len);
    Ok(count_lines(&reply.state.history[from..to]))
}

// Lines of a history, counted by fate.
fn count_lines(lines: &[Entry]) -> Counts
    requires { length lines.now ≤ 16 }
    ensures { result ≡ counts_in lines.now }
{
    Counts {
        done: count_fate(lines, Fate::Done),
        refused: count_fate(lines, Fate::Refused),
        lapsed: count_fate(lines, Fate::Lapsed),
        forced: count_fate(lines, Fate::Forced),
    }
}

// How many of these lines say this fate.
fn count_fate(lines: &[Entry], fate: Fate) -> u8
    requires { length lines.now ≤ 16 }
    ensures { result ≡ count_of fate lines.now }
{
    lines.iter().filter(|line| line.fate == fate).count() as u8
}
