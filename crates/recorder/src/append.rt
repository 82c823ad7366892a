// Appending a call's record to a journal in a lent buffer.
ghost use Rattle.std.specs.Prelude.{◌+◌, ◌≤◌, ◌≡◌, length, take};
ghost use Rattle.journal.specs.Journals.{Opens, room_for, append_to, append, written_by, buffer_after};
ghost use Rattle.journal.specs.Calls.{calls};
ghost use Rattle.journal.specs.Answers.{append_answer, fault_reply, reply_of, refusal_of, asked_reply, buffer_asked};

use super::open::{fault_number, fault_offset, open_journal};
use super::record::record_of;
use checks::answer::call_fault_number;
use journal::append::{AppendFault, AppendReply, Appended};
use journal::open::{JournalFault, Opened};
use journal::record::NoCall;
use plan::answer::{Answer, CallFault};
use plan::calls::Call;
use scheduler::state::State;

// Writes the call's record behind the last whole one, over leftover bytes. Nothing else is written, and nothing at all
// if the call is turned down.
pub fn append(buffer: &mut [u8], len: usize, made: Call) -> Result<Appended, AppendFault>
    ensures answer { result ≡ append_answer (append calls buffer.old len made) }
    ensures bytes { buffer.new ≡ buffer_after calls buffer.old len made }
{
    if buffer.len() < len {
        return Err(AppendFault::TooLong);
    }
    let journal = open_journal(&buffer[..len]);
    let opened = journal.verdict?;
    append_behind(buffer, opened.end, journal.state, made)
}

// Appends what a host asks for. What is no call is turned down where a call would be.
#[tactic(auto, unfolding(journal::specs::Answers::asked_reply, journal::specs::Answers::buffer_asked))]
pub fn append_asked(buffer: &mut [u8], len: usize, asked: Result<Call, NoCall>) -> AppendReply
    ensures reply { result ≡ asked_reply buffer.old len asked }
    ensures bytes { buffer.new ≡ buffer_asked buffer.old len asked }
{
    match asked {
        Ok(made) => reply_of(len, append(buffer, len, made)),
        Err(_) if buffer.len() < len => fault_reply(len, AppendFault::TooLong),
        Err(fault) => refusal_of(fault.number, len, open_journal(&buffer[..len]).verdict),
    }
}

// The number of an answer, the length of the journal after it, and an offset.
fn reply_of(len: usize, answer: Result<Appended, AppendFault>) -> AppendReply
    ensures { result ≡ reply_of len answer }
{
    match answer {
        Ok(appended) => AppendReply {
            number: 0,
            len: appended.len,
            at: appended.at,
        },
        Err(fault) => fault_reply(len, fault),
    }
}

// The same where nothing is appended.
fn fault_reply(len: usize, fault: AppendFault) -> AppendReply
    ensures { result ≡ fault_reply len fault }
{
    let (number, at) = match fault {
        AppendFault::TooLong => (CallFault::NoRoom as u8, 0),
        AppendFault::Unopened(fault) => (fault_number(fault), fault_offset(fault)),
        AppendFault::TurnedDown { fault, end } => (call_fault_number(fault) as u8, end),
        AppendFault::NoRoom { end } => (CallFault::NoRoom as u8, end),
    };
    AppendReply { number, len, at }
}

// The answer to what is no call: the journal's number, or this one if the journal opens.
fn refusal_of(number: u8, len: usize, verdict: Result<Opened, JournalFault>) -> AppendReply
    ensures { result ≡ refusal_of number len verdict }
{
    match verdict {
        Ok(opened) => AppendReply {
            number,
            len,
            at: opened.end,
        },
        Err(fault) => fault_reply(len, fault.into()),
    }
}

// Appends behind an offset, if the state there accepts the call.
fn append_behind(
    buffer: &mut [u8],
    end: usize,
    state: State,
    made: Call,
) -> Result<Appended, AppendFault>
    requires { end ≤ length buffer.old }
    ensures answer { result ≡ append_answer (append_to calls (length buffer.old) made (Opens state end 0)) }
    ensures bytes { buffer.new ≡ written_by calls buffer.old made (append_to calls (length buffer.old) made (Opens state end 0)) }
{
    if let Answer::TurnedDown(fault) = state.call(made).answer {
        return Err(AppendFault::TurnedDown { fault, end });
    }
    put_behind(buffer, end, made)
}

// Writes the record behind an offset, if there is room.
fn put_behind(buffer: &mut [u8], end: usize, made: Call) -> Result<Appended, AppendFault>
    requires { end ≤ length buffer.old }
    ensures answer { result ≡ append_answer (room_for calls (length buffer.old) end made) }
    ensures bytes { buffer.new ≡ written_by calls buffer.old made (room_for calls (length buffer.old) end made) }
{
    let record = record_of(made);
    if buffer.len() - end < record.size {
        return Err(AppendFault::NoRoom { end });
    }
    let len = end + record.size;
    buffer[end..len].copy_from_slice(record.as_slice());
    Ok(Appended { at: end, len })
}
