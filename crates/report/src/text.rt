// The lines of a report.
ghost use Rattle.std.specs.Prelude.{◌≡◌, ◌++◌};
ghost use Rattle.scheduler.specs.Runner.{history_lines, report};
ghost use Rattle.report.specs.Internal.Texts.{fate_end, entry_line, head, tail, state_text, refusal_line};
ghost use Rattle.pages.specs.Text.{HasRoom};

use super::page::{put_count, put_decimal, put_line};
use checks::answer::sheet_fault_number;
use checks::history::lines_in;
use pages::Page;
use plan::answer::Refusal;
use plan::fate::Fate;
use plan::history::Entry;
use readers::{broken_count, held_count};
use scheduler::reply::Outcome;
use scheduler::state::State;

// An outcome's report.
pub(crate) fn put_report(page: &mut Page, outcome: Outcome)
    requires { HasRoom page.old (report outcome) }
    ensures { page.new ≡ page.old ++ report outcome }
{
    match outcome.verdict {
        Ok(()) => put_state(page, outcome.state, outcome.refused),
        Err(refusal) => put_refusal(page, refusal),
    }
}

// A history line.
fn put_entry(page: &mut Page, entry: Entry)
    requires { HasRoom page.old (entry_line entry) }
    ensures { page.new ≡ page.old ++ entry_line entry }
{
    put_decimal(page, entry.event as usize);
    put_fate(page, entry.fate);
}

// The fate that ends a history line. Each arm puts a text of a known length, which is faster than to choose the text.
fn put_fate(page: &mut Page, fate: Fate)
    requires { HasRoom page.old (fate_end fate) }
    ensures { page.new ≡ page.old ++ fate_end fate }
{
    match fate {
        Fate::Open => page.put(b" open\n"),
        Fate::Held => page.put(b" held\n"),
        Fate::Done => page.put(b" done\n"),
        Fate::Refused => page.put(b" refused\n"),
        Fate::Lapsed => page.put(b" lapsed\n"),
        Fate::Forced => page.put(b" forced\n"),
    }
}

// The history lines.
fn put_history(page: &mut Page, entries: &[Entry])
    requires { HasRoom page.old (history_lines entries.now) }
    ensures { page.new ≡ page.old ++ history_lines entries.now }
{
    for entry in entries {
        put_entry(page, *entry);
    }
}

// The line that counts declarations.
fn put_head(page: &mut Page, events: u8, rules: u8)
    requires { HasRoom page.old (head events rules) }
    ensures { page.new ≡ page.old ++ head events rules }
{
    put_count(page, b"events ", events as usize);
    put_line(page, b" rules ", rules as usize);
}

// The last three lines: how many events are held, rules recorded, calls turned down.
fn put_tail(page: &mut Page, held: usize, broken: usize, refused: usize)
    requires { HasRoom page.old (tail held broken refused) }
    ensures { page.new ≡ page.old ++ tail held broken refused }
{
    put_line(page, b"held ", held);
    put_line(page, b"broken ", broken);
    put_line(page, b"refused calls ", refused);
}

// The report of an admitted sheet.
fn put_state(page: &mut Page, state: State, refused: usize)
    requires { HasRoom page.old (state_text state refused) }
    ensures { page.new ≡ page.old ++ state_text state refused }
{
    let lines = lines_in(state.history_len) as usize;
    put_head(page, state.plan.event_count, state.plan.rule_count);
    put_history(page, &state.history[..lines]);
    let held = held_count(state);
    let broken = broken_count(state);
    put_tail(page, held, broken, refused);
}

// The report of a sheet turned down.
fn put_refusal(page: &mut Page, refusal: Refusal)
    requires { HasRoom page.old (refusal_line refusal) }
    ensures { page.new ≡ page.old ++ refusal_line refusal }
{
    put_count(page, b"refused ", sheet_fault_number(refusal.fault));
    put_line(page, b" at ", refusal.at);
}
