// Opening a journal.
ghost use Rattle.std.specs.Prelude.{ℕ, ◌≤◌, true, false, ◌≡◌, drop, length};
ghost use Rattle.plan.specs.declared.plan.Plan.{Plan};
ghost use Rattle.plan.specs.Sheets.{whole, read_plan};
ghost use Rattle.scheduler.specs.declared.state.State.{State};
ghost use Rattle.scheduler.specs.Coherent.{coherent};
ghost use Rattle.scheduler.specs.Answers.{turns_down, idle};
ghost use Rattle.plan.specs.declared.calls.Call.TheVariants.{Submit};
ghost use Rattle.journal.specs.Records.{run};
ghost use Rattle.journal.specs.Journals.{opened_at, open_journal};
ghost use Rattle.journal.specs.Calls.{calls};
ghost use Rattle.journal.specs.Answers.{journal_read, fault_number, fault_offset, journal_number, journal_offset, journal_left};
ghost use Rattle.journal.specs.Scheduled.{JournalHolds};
ghost use Rattle.recorder.specs.Internal.Underway.{Underway};

use super::record::record_at;
use checks::answer::sheet_fault_number;
use checks::calls::{call_size, skip_finishes};
use checks::fate::is_open;
use journal::open::{Journal, JournalFault, Opened};
use journal::record::NoRecord;
use plan::answer::SheetFault;
use plan::calls::{Call, FINISH, SUBMIT};
use scheduler::state::{Course, State};
use sheet::kind::body_length;
use sheet::read::read_sheet;

// Reads the sheet at the front, and makes the calls of the records behind it. The guarantee (demand 3) is true of the
// calls that the journal holds, and number 12 does not apply to the state after them.
pub fn open_journal(bytes: &[u8]) -> Journal
    ensures result { result ≡ journal_read (open_journal calls bytes.now) }
    ensures holds { JournalHolds bytes.now result }
{
    let end = sheet_end(bytes);
    let reading = read_sheet(&bytes[..end]);
    match reading.verdict {
        Ok(()) => open_records(reading.state, bytes, end),
        Err(_) => open_other(bytes),
    }
}

// The number of a journal that does not open.
pub fn fault_number(fault: JournalFault) -> u8
    ensures { result ≡ fault_number fault }
{
    match fault {
        JournalFault::Broken { at } => 17,
        JournalFault::Unread(refusal) => sheet_fault_number(refusal.fault) as u8,
    }
}

// The offset of its fault.
pub fn fault_offset(fault: JournalFault) -> usize
    ensures { result ≡ fault_offset fault }
{
    match fault {
        JournalFault::Broken { at } => at,
        JournalFault::Unread(refusal) => refusal.at,
    }
}

// The number that opening gives.
pub fn journal_number(verdict: Result<Opened, JournalFault>) -> u8
    ensures { result ≡ journal_number verdict }
{
    match verdict {
        Ok(_) => 0,
        Err(fault) => fault_number(fault),
    }
}

// The offset behind the last whole record, or that of the fault.
pub fn journal_offset(verdict: Result<Opened, JournalFault>) -> usize
    ensures { result ≡ journal_offset verdict }
{
    match verdict {
        Ok(opened) => opened.end,
        Err(fault) => fault_offset(fault),
    }
}

// How many bytes are left over.
pub fn journal_left(verdict: Result<Opened, JournalFault>) -> usize
    ensures { result ≡ journal_left verdict }
{
    match verdict {
        Ok(opened) => opened.left,
        Err(_) => 0,
    }
}

// Where the sheet at the front ends, by the kinds of its records alone. Nothing rests on it: if these bytes are no
// sheet, `open_other` opens the journal.
fn sheet_end(bytes: &[u8]) -> usize
    ensures { result ≤ length bytes.now }
{
    let mut at = 0;
    while let Some(&kind) = bytes.get(at) {
        at += 1;
        if kind == 5 {
            return at;
        }
        at += body_length(kind) as usize;
    }
    bytes.len()
}

// Opens any journal: it is read as a sheet, and number 8 says that records follow a sheet that is whole.
fn open_other(bytes: &[u8]) -> Journal
    ensures { result ≡ journal_read (open_journal calls bytes.now) }
{
    let reading = read_sheet(bytes);
    match reading.verdict {
        Ok(()) => Journal {
            verdict: Ok(Opened {
                end: bytes.len(),
                left: 0,
            }),
            state: reading.state,
        },
        Err(refusal) => match refusal.fault {
            SheetFault::Extra => open_behind(bytes, refusal.at),
            _ => Journal {
                verdict: Err(JournalFault::Unread(refusal)),
                state: reading.state,
            },
        },
    }
}

// Opens a journal whose sheet is whole and ends at an offset.
fn open_behind(bytes: &[u8], end: usize) -> Journal
    requires { (p : Plan) × (read_plan bytes.now ≡ whole p end) }
    ensures { result ≡ journal_read (open_journal calls bytes.now) }
{
    open_records(read_sheet(&bytes[..end]).state, bytes, end)
}

// Makes record after record from an offset on, from an admitted sheet's first state. That state is coherent, and every
// call preserves coherence, so number 12 is not tested.
fn open_records(state: State, bytes: &[u8], from: usize) -> Journal
    requires hangs { coherent state ≡ true }
    requires inside { from ≤ length bytes.now }
    ensures { result ≡ journal_read (opened_at from (length bytes.now) (run calls state (drop from bytes.now))) }
{
    let mut state = state;
    let mut at = from;
    loop {
        at = skip_idle(&state, bytes, at);
        let verdict = match record_at(bytes, at) {
            Ok(made) if state.turns_down(made) => Err(JournalFault::Broken { at }),
            Ok(made) => {
                // In place: `with_course` would copy the plan too.
                let Course {
                    standings,
                    broken,
                    closed,
                    history,
                    history_len,
                    minute,
                } = state.after_call(made);
                state.standings = standings;
                state.broken = broken;
                state.closed = closed;
                state.history = history;
                state.history_len = history_len;
                state.minute = minute;
                at += call_size(made);
                continue;
            }
            Err(NoRecord::Short) => Ok(Opened {
                end: at,
                left: bytes.len() - at,
            }),
            Err(NoRecord::Other) => Err(JournalFault::Broken { at }),
        };
        return Journal { verdict, state };
    }
}

// Skips the records from an offset on whose calls are accepted and leave the state as it is: submits (hand-ins) of
// events that are not open, and finishes once nothing is held. The last byte is left to the ordinary way.
fn skip_idle(state: &State, bytes: &[u8], from: usize) -> usize
    requires { (coherent state.now ≡ true) × (from ≤ length bytes.now) }
    ensures ahead { from ≤ result }
    ensures same { (s : State) (b : ℕ) → Underway s bytes.now b state.now from → Underway s bytes.now b state.now result }
{
    let mut at = from;
    loop {
        at = skip_submits(state, bytes, at);
        if bytes.len() <= at + 1 || bytes[at] != FINISH {
            break;
        }
        if state.turns_down(Call::Finish) || !state.is_idle(Call::Finish) {
            break;
        }
        at = skip_finishes(bytes, at + 1);
    }
    at
}

// As `skip_idle`, of the submits that follow one another from an offset on. A journal of such submits is this loop
// alone, so it is kept short: its place in memory then matters little.
fn skip_submits(state: &State, bytes: &[u8], from: usize) -> usize
    requires { (coherent state.now ≡ true) × (from ≤ length bytes.now) }
    ensures ahead { from ≤ result }
    ensures inside { result ≤ length bytes.now }
    ensures same { (s : State) (b : ℕ) → Underway s bytes.now b state.now from → Underway s bytes.now b state.now result }
{
    let mut at = from;
    while at + 1 < bytes.len() && bytes[at] == SUBMIT && is_past(state, bytes[at + 1]) {
        at += 2;
    }
    at
}

// Is a submit of the event accepted, and does it change nothing? One test for `turns_down` and `is_idle`.
fn is_past(state: &State, event: u8) -> bool
    requires { coherent state.now ≡ true }
    ensures { result ≡ true → (turns_down state.now (Submit event) ≡ false) × (idle state.now (Submit event) ≡ true) }
{
    event < state.plan.event_count && !is_open(state.standings[event as usize].fate)
}
