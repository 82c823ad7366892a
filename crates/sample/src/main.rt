// Runs the reader of sheets, the search, single calls and the readers of a state on small sheets and prints what each
// gives. The gate compares this with the file `stdout`. Each `print!` and `println!` is one write.
#![tactic(auto)]

mod show;

use checks::answer::sheet_fault_number;
use plan::calls::Call;
use plan::fate::{Fate, Standing};
use readers::{read_broken, read_closed, read_event, read_fate, read_line, read_rule};
use scheduler::order::Found;
use scheduler::reply::Reply;
use scheduler::state::State;
use sheet::read::read_sheet;
use show::{Shown, show_event, show_line, show_rule};
use std::io;

// Two events that can be delayed; the first needs the second and comes before it.
const TWO: &[u8] = b"\x01\x00\x06\x01\x01\x06\x02\x00\x01\x03\x00\x01\x05";

// Two events that can be forced; the first needs the second.
const NEEDS: &[u8] = b"\x01\x00\x01\x01\x01\x01\x03\x00\x01\x05";

// Events of one step that can be delayed, each of which needs the next: six in a ring, seven in a ring, seven in a row.
const RING_OF_SIX: &[u8] =
    b"\x01\x00\x06\x01\x00\x06\x01\x00\x06\x01\x00\x06\x01\x00\x06\x01\x00\x06\
    \x03\x00\x01\x03\x01\x02\x03\x02\x03\x03\x03\x04\x03\x04\x05\x03\x05\x00\x05";

const RING_OF_SEVEN: &[u8] =
    b"\x01\x00\x06\x01\x00\x06\x01\x00\x06\x01\x00\x06\x01\x00\x06\x01\x00\x06\x01\x00\x06\
    \x03\x00\x01\x03\x01\x02\x03\x02\x03\x03\x03\x04\x03\x04\x05\x03\x05\x06\x03\x06\x00\x05";

const ROW_OF_SEVEN: &[u8] =
    b"\x01\x00\x06\x01\x00\x06\x01\x00\x06\x01\x00\x06\x01\x00\x06\x01\x00\x06\x01\x00\x06\
    \x03\x00\x01\x03\x01\x02\x03\x02\x03\x03\x03\x04\x03\x04\x05\x03\x05\x06\x05";

fn main(rt: HostRuntime) -> io::Result<()> {
    let two = read_sheet(TWO).state;
    show_calls(&rt, two)?;
    show_effects(&rt, two)?;
    show_readings(&rt)?;
    show_orders(&rt)
}

// Calls of each sort on one sheet, each on the state that the one before gave, and one on a state that was changed by
// hand.
fn show_calls<R: Print>(rt: &R, first: State) -> io::Result<()> {
    let mut state = after_call(rt, "hand in 0:", first.submit(0))?;
    state = after_call(rt, "hand in 1:", state.submit(1))?;
    state = after_call(rt, "hand in 2:", state.submit(2))?;
    state = after_call(rt, "close step 0:", state.close_step(0))?;
    state = after_call(rt, "close step 0:", state.close_step(0))?;
    state = after_call(rt, "wind up:", state.finish())?;
    state = after_call(rt, "close step 1, as data:", state.call(Call::Close(1)))?;
    show_state(rt, state)?;
    let mut torn = first;
    torn.history_len = 1;
    after_call(rt, "hand in 0, a line too many:", torn.submit(0))?;
    Ok(())
}

// Shows a call's answer and hands on the state after it.
fn after_call<R: Print>(rt: &R, call: &str, reply: Reply) -> io::Result<State> {
    print!(rt; "{call}")?;
    println!(rt; " {}", Shown(reply.answer))?;
    Ok(reply.state)
}

// The counts of a state, and what its readers answer for 0, 1 and 2.
fn show_state<R: Print>(rt: &R, state: State) -> io::Result<()> {
    for (word, count) in [
        ("events", readers::event_count(state) as usize),
        (" rules", readers::rule_count(state) as usize),
        (" lines", readers::line_count(state) as usize),
        (" held", readers::held_count(state)),
        (" broken", readers::broken_count(state)),
    ] {
        print!(rt; "{word} {count}")?;
    }
    println!(rt)?;
    for i in 0..3 {
        show_number(rt, state, i)?;
    }
    Ok(())
}

// What the readers of a state answer for a number.
fn show_number<R: Print>(rt: &R, state: State, i: u8) -> io::Result<()> {
    print!(rt; "event {i}")?;
    show_event(rt, read_event(state, i))?;
    println!(rt; " {}", Shown(read_fate(state, i)))?;
    print!(rt; "rule {i}")?;
    show_rule(rt, read_rule(state, i))?;
    print!(rt; " broken {}", Shown(read_broken(state, i)))?;
    print!(rt; " step {i}")?;
    print!(rt; " closed {}", Shown(read_closed(state, i)))?;
    print!(rt; " line {i}")?;
    show_line(rt, read_line(state, i))
}

// The calls of a list on a sheet's first state, and once its steps 0 and 1 are closed.
fn show_effects<R: Print>(rt: &R, first: State) -> io::Result<()> {
    for (name, made) in [
        ("in a list, hand in 0:", Call::Submit(0)),
        ("in a list, hand in 9:", Call::Submit(9)),
        ("in a list, close step 1:", Call::Close(1)),
        ("in a list, wind up:", Call::Finish),
    ] {
        show_effect(rt, name, first, made)?;
    }
    let closed = taken(taken(first, Call::Close(0)), Call::Close(1));
    for (name, made) in [
        ("both closed, hand in 0:", Call::Submit(0)),
        ("both closed, close step 0:", Call::Close(0)),
        ("both closed, wind up:", Call::Finish),
    ] {
        show_effect(rt, name, closed, made)?;
    }
    Ok(())
}

// What a call does in a list, where number 12 is not tested: turned down, idle, or so many lines of history after it.
fn show_effect<R: Print>(rt: &R, name: &str, state: State, made: Call) -> io::Result<()> {
    print!(rt; "{name}")?;
    if state.turns_down(made) {
        println!(rt; " turned down")
    } else if state.is_idle(made) {
        println!(rt; " idle")
    } else {
        let lines = readers::line_count(taken(state, made));
        print!(rt; " taken, lines {lines}")?;
        println!(rt)
    }
}

// The state after an accepted call.
fn taken(state: State, made: Call) -> State {
    state.with_course(state.after_call(made))
}

// What reading some sheets gives.
fn show_readings<R: Print>(rt: &R) -> io::Result<()> {
    for (name, sheet) in [
        ("A", TWO),
        ("F", b"\x01\x00\x01\x01\x01\x06\x03\x00\x01\x05"),
        ("no bytes", b""),
        ("end", b"\x05"),
        ("end twice", b"\x05\x05"),
        ("delayable alone", b"\x01\x00\x04\x05"),
        ("17 events", b"\x06\x00\x06\x01\x06\x02\x06\x03\x01\x09\x09"),
    ] {
        match read_sheet(sheet).verdict {
            Ok(()) => println!(rt; "{name} admitted")?,
            Err(refusal) => {
                let number = sheet_fault_number(refusal.fault);
                println!(rt; "{name} refused {number} at {}", refusal.at)?
            }
        }
    }
    Ok(())
}

// The chosen order for an event of some sheets: with every event held, and with every event open.
fn show_orders<R: Print>(rt: &R) -> io::Result<()> {
    for (name, sheet, event) in [
        ("J, a ring of six:", RING_OF_SIX, 0),
        ("J, a ring of seven:", RING_OF_SEVEN, 0),
        ("K, 0:", ROW_OF_SEVEN, 0),
        ("K, 1:", ROW_OF_SEVEN, 1),
    ] {
        show_order(rt, name, all_held(read_sheet(sheet).state), event)?;
    }
    show_order(rt, "D, all open:", read_sheet(NEEDS).state, 0)
}

// Every event held.
fn all_held(state: State) -> State {
    State {
        standings: [Standing { fate: Fate::Held }; 16],
        ..state
    }
}

// The chosen order for an event, and which of its events were open.
fn show_order<R: Print>(rt: &R, name: &str, state: State, event: u8) -> io::Result<()> {
    print!(rt; "{name}")?;
    match state.find_order(event) {
        Some(found) => show_found(rt, found),
        None => println!(rt; " none"),
    }
}

// The events of an order.
fn show_found<R: Print>(rt: &R, found: Found) -> io::Result<()> {
    for place in &found.places[..found.len.min(6) as usize] {
        print!(rt; " {}", place.event)?;
        if place.opened {
            print!(rt; " (open)")?;
        }
    }
    println!(rt)
}
