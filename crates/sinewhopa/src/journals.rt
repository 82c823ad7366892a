// A journal that the host keeps: opening it, appending to it, and the record of a call.
ghost use Rattle.std.specs.Prelude.{◌≡◌};
ghost use Rattle.image.specs.Layout.{image_of};
ghost use Rattle.journal.specs.Journals.{open_journal};
ghost use Rattle.journal.specs.Calls.{calls, asked_call, record_in, record_size};
ghost use Rattle.journal.specs.Answers.{journal_read, journal_number, journal_offset, journal_left, asked_reply, buffer_asked};

use image::write::put_state;
use recorder::append::append_asked;
use recorder::open::{journal_left, journal_number, journal_offset, open_journal};
use recorder::record::{asked_call, put_asked};

// Opens a journal and writes the state after its whole records, before a bad record, or the empty state if the sheet is
// turned down. Answers 0, 17 or the sheet's number. Writes into `at` the offset behind the last whole record, or that of
// the fault, and into `leftover` how many bytes are left over.
#[unsafe(no_mangle)]
pub extern "C" fn sinewhopa_open_journal(
    state: &mut [u8; 384],
    journal: &[u8],
    at: &mut usize,
    leftover: &mut usize,
) -> u8
    ensures number { result ≡ journal_number (journal_read (open_journal calls journal.now)).verdict }
    ensures bytes { state.new ≡ image_of (journal_read (open_journal calls journal.now)).state }
    ensures offset { at.new ≡ journal_offset (journal_read (open_journal calls journal.now)).verdict }
    ensures left { leftover.new ≡ journal_left (journal_read (open_journal calls journal.now)).verdict }
{
    let opened = open_journal(journal);
    put_state(state, opened.state);
    *at = journal_offset(opened.verdict);
    *leftover = journal_left(opened.verdict);
    journal_number(opened.verdict)
}

// Appends the record of a call, given by its kind and its number, to the journal in the first `len` bytes of a buffer.
// Answers 0, or the number by which it is turned down, and then writes nothing into the buffer. Writes the journal's
// length after it into `new_len`, and into `at` the offset behind the last whole record, or that of the journal's fault.
#[unsafe(no_mangle)]
pub extern "C" fn sinewhopa_append(
    journal: &mut [u8],
    len: usize,
    kind: u8,
    number: u32,
    new_len: &mut usize,
    at: &mut usize,
) -> u8
    ensures number { result ≡ (asked_reply journal.old len (asked_call kind number)).number }
    ensures bytes { journal.new ≡ buffer_asked journal.old len (asked_call kind number) }
    ensures length { new_len.new ≡ (asked_reply journal.old len (asked_call kind number)).len }
    ensures offset { at.new ≡ (asked_reply journal.old len (asked_call kind number)).at }
{
    let reply = append_asked(journal, len, asked_call(kind, number));
    *new_len = reply.len;
    *at = reply.at;
    reply.number
}

// Writes the record of a call, given by its kind and its number, and answers how many bytes it has; 0 if it is no call,
// and then writes nothing.
#[unsafe(no_mangle)]
pub extern "C" fn sinewhopa_record(kind: u8, number: u32, record: &mut [u8; 8]) -> usize
    ensures size { result ≡ record_size (asked_call kind number) }
    ensures bytes { «record».new ≡ record_in (asked_call kind number) «record».old }
{
    put_asked(record, asked_call(kind, number))
}
