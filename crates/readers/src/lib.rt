// What a caller can read of a state. An undeclared number is answered with `None`, never as "open".
#![tactic(auto)]

ghost use Rattle.std.specs.Prelude.{◌≡◌, None, if◌then◌else◌, nat_lt, slice_get};
ghost use Rattle.plan.specs.Plans.{event_count, rule_count};
ghost use Rattle.scheduler.specs.State.{line_count};
ghost use Rattle.scheduler.specs.Runner.{held_count, broken_count};
ghost use Rattle.readers.specs.Readers.{fate_read, event_read, rule_read, line_read, closed_read, broken_read};

use checks::fate::is_held;
use plan::event::Event;
use plan::fate::Fate;
use plan::history::Entry;
use plan::rule::Rule;
use scheduler::state::State;

pub fn event_count(state: State) -> u8
    ensures { result ≡ event_count state.plan }
{
    state.plan.event_count
}

pub fn rule_count(state: State) -> u8
    ensures { result ≡ rule_count state.plan }
{
    state.plan.rule_count
}

// The number of lines in the history.
pub fn line_count(state: State) -> u8
    ensures { result ≡ line_count state }
{
    state.history_len
}

// The number of events that are held.
pub fn held_count(state: State) -> usize
    ensures { result ≡ held_count state }
{
    let n = usize::from(state.plan.event_count);
    state
        .standings
        .iter()
        .take(n)
        .filter(|s| is_held(s.fate))
        .count()
}

// The number of rules that are recorded as broken.
pub fn broken_count(state: State) -> usize
    ensures { result ≡ broken_count state }
{
    let n = usize::from(state.plan.rule_count);
    state.broken.iter().take(n).filter(|is| **is).count()
}

pub fn read_fate(state: State, event: u8) -> Option<Fate>
    ensures { result ≡ fate_read state event }
{
    declared(&state.standings, state.plan.event_count, event).map(|s| s.fate)
}

pub fn read_event(state: State, event: u8) -> Option<Event>
    ensures { result ≡ event_read state event }
{
    declared(&state.plan.events, state.plan.event_count, event)
}

pub fn read_rule(state: State, rule: u8) -> Option<Rule>
    ensures { result ≡ rule_read state rule }
{
    declared(&state.plan.rules, state.plan.rule_count, rule).map(|line| line.rule)
}

// A line of the history.
pub fn read_line(state: State, line: u8) -> Option<Entry>
    ensures { result ≡ line_read state line }
{
    declared(&state.history, state.history_len, line)
}

// Is a step closed?
pub fn read_closed(state: State, step: u8) -> Option<bool>
    ensures { result ≡ closed_read state step }
{
    place(&state.closed, step)
}

// Is a rule recorded as broken?
pub fn read_broken(state: State, rule: u8) -> Option<bool>
    ensures { result ≡ broken_read state rule }
{
    declared(&state.broken, state.plan.rule_count, rule)
}

// What stands in place i, if that is one of the first n places.
fn declared<T: Copy>(places: &[T], n: u8, i: u8) -> Option<T>
    ensures { result ≡ (if nat_lt i n then slice_get places.now i else None) }
{
    if i < n { place(places, i) } else { None }
}

// What stands in place i, if there is such a place.
fn place<T: Copy>(places: &[T], i: u8) -> Option<T>
    ensures { result ≡ slice_get places.now i }
{
    places.get(usize::from(i)).copied()
}
