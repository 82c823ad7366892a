// The records of a journal: what stands at an offset, a call's record, and calls that a host asks for by a kind and a
// number.
ghost use Rattle.std.specs.Prelude.{◌≡◌, drop};
ghost use Rattle.journal.specs.Records.{front};
ghost use Rattle.journal.specs.Calls.{record_length, calls, record_of, asked_call, record_in, record_size};
ghost use Rattle.journal.specs.Answers.{record_read};
ghost use Rattle.journal.proofs.CallLaws.{other_or_cut};

use checks::bytes::byte_at;
use checks::calls::any_call_at;
use journal::record::{CallRecord, NoCall, NoRecord};
use plan::answer::SheetFault;
use plan::calls::{ADVANCE, CLOSE, Call, CallRead, FINISH, SUBMIT};

// The record at an offset.
#[tactic(auto, using(journal::proofs::CallLaws::front_read_lem))]
pub fn record_at(bytes: &[u8], at: usize) -> Result<Call, NoRecord>
    ensures { result ≡ record_read (front calls (drop at bytes.now)) }
{
    match any_call_at(bytes, at) {
        CallRead::Listed(made) => Ok(made),
        CallRead::End => Err(NoRecord::Short),
        CallRead::Bad => cut_or_other(byte_at(bytes, at)),
    }
}

// The record of a call.
pub fn record_of(made: Call) -> CallRecord
    ensures { result ≡ record_of made }
{
    match made {
        Call::Submit(event) => CallRecord {
            bytes: [SUBMIT, event, 0, 0, 0, 0, 0, 0],
            size: 2,
        },
        Call::Close(step) => CallRecord {
            bytes: [CLOSE, step, 0, 0, 0, 0, 0, 0],
            size: 2,
        },
        Call::Finish => CallRecord {
            bytes: [FINISH, 0, 0, 0, 0, 0, 0, 0],
            size: 1,
        },
        Call::Advance(minute) => {
            let [a, b, c, d] = minute.to_le_bytes();
            CallRecord {
                bytes: [ADVANCE, a, b, c, d, 0, 0, 0],
                size: 5,
            }
        }
    }
}

// What a kind and a number ask for.
#[tactic(auto, unfolding(journal::specs::Calls::asked_call))]
pub fn asked_call(kind: u8, number: u32) -> Result<Call, NoCall>
    ensures { result ≡ asked_call kind number }
{
    match kind {
        SUBMIT => Ok(Call::Submit(u8::try_from(number)?)),
        CLOSE => Ok(Call::Close(u8::try_from(number)?)),
        FINISH => Ok(Call::Finish),
        ADVANCE => Ok(Call::Advance(number)),
        _ => Err(NoCall {
            number: SheetFault::BadKind as u8,
        }),
    }
}

// Writes the record of what is asked for, if it is a call, and answers how many bytes it has. The bytes behind it stay.
#[tactic(auto, unfolding(journal::specs::Calls::record_in, journal::specs::Calls::record_size))]
pub fn put_asked(out: &mut [u8; 8], asked: Result<Call, NoCall>) -> usize
    ensures size { result ≡ record_size asked }
    ensures bytes { out.new ≡ record_in asked out.old }
{
    let Ok(made) = asked else { return 0 };
    let wanted = record_of(made);
    out[..wanted.size].copy_from_slice(wanted.as_slice());
    wanted.size
}

// A record that is not read as a call's: it is cut if its kind is a call's.
fn cut_or_other(kind: u8) -> Result<Call, NoRecord>
    ensures { result ≡ record_read (other_or_cut (record_length kind)) }
{
    Err(if matches!(kind, SUBMIT..=ADVANCE) {
        NoRecord::Short
    } else {
        NoRecord::Other
    })
}
