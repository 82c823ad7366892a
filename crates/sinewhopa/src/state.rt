// A state that the host keeps: 384 bytes, as include/sinewhopa.h lays them out. Bytes that are no image are answered
// with 12 and stay as they are.
ghost use Rattle.std.specs.Prelude.{◌≡◌, ◌≤◌, length};
ghost use Rattle.scheduler.specs.Prelude.{Submit, Close, Finish, Advance};
ghost use Rattle.scheduler.specs.Sheet.{read_sheet};
ghost use Rattle.image.specs.Layout.{image_of};
ghost use Rattle.image.specs.Calls.{number_on, image_after, check_on, verdict_number, verdict_offset, report_on};
ghost use Rattle.pages.specs.Filled.{filled};

use image::kept::{check, is_sound, make_call};
use image::number::{verdict_number, verdict_offset};
use image::read::state_in;
use image::write::put_state;
use plan::calls::Call;
use report::write_report;
use scheduler::reply::Outcome;
use sheet::read::read_sheet;

// Reads a sheet and writes its first state, or the empty state if the sheet is turned down. Answers the sheet's number,
// and writes the offset of its fault into `at`.
#[unsafe(no_mangle)]
pub extern "C" fn sinewhopa_open(state: &mut [u8; 384], sheet: &[u8], at: &mut usize) -> u8
    ensures number { result ≡ verdict_number (read_sheet sheet.now).verdict }
    ensures bytes { state.new ≡ image_of (read_sheet sheet.now).state }
    ensures offset { at.new ≡ verdict_offset (read_sheet sheet.now).verdict }
{
    let reading = read_sheet(sheet);
    put_state(state, reading.state);
    *at = verdict_offset(reading.verdict);
    verdict_number(reading.verdict)
}

// Submits (hands in) an event.
#[unsafe(no_mangle)]
pub extern "C" fn sinewhopa_submit(state: &mut [u8; 384], event: u8) -> u8
    ensures number { result ≡ number_on state.old (Submit event) }
    ensures bytes { state.new ≡ image_after state.old (Submit event) }
{
    make_call(state, Call::Submit(event))
}

// Closes a step.
#[unsafe(no_mangle)]
pub extern "C" fn sinewhopa_close_step(state: &mut [u8; 384], step: u8) -> u8
    ensures number { result ≡ number_on state.old (Close step) }
    ensures bytes { state.new ≡ image_after state.old (Close step) }
{
    make_call(state, Call::Close(step))
}

// Finishes (winds up).
#[unsafe(no_mangle)]
pub extern "C" fn sinewhopa_finish(state: &mut [u8; 384]) -> u8
    ensures number { result ≡ number_on state.old Finish }
    ensures bytes { state.new ≡ image_after state.old Finish }
{
    make_call(state, Call::Finish)
}

// Advances to a minute, and settles. The current minute is allowed; one below it is answered with 16.
#[unsafe(no_mangle)]
pub extern "C" fn sinewhopa_advance(state: &mut [u8; 384], minute: u32) -> u8
    ensures number { result ≡ number_on state.old (Advance minute) }
    ensures bytes { state.new ≡ image_after state.old (Advance minute) }
{
    make_call(state, Call::Advance(minute))
}

// The check: 0 if the bytes are the image of a coherent state, else 12.
#[unsafe(no_mangle)]
pub extern "C" fn sinewhopa_check(state: &[u8; 384]) -> u8
    ensures { result ≡ check_on state.now }
{
    check(state)
}

// Writes what the runner would print of the state after `refused` calls turned down, and answers its length. If `out`
// is shorter than that, or if `sinewhopa_check` says 12, nothing is written; with 12 the length is 0.
#[unsafe(no_mangle)]
pub extern "C" fn sinewhopa_report(state: &[u8; 384], refused: usize, out: &mut [u8]) -> usize
    ensures length { result ≡ length (report_on state.now refused) }
    ensures bytes { out.new ≡ filled (report_on state.now refused) out.old }
    ensures short { result ≤ 320 }
{
    if !is_sound(state) {
        return 0;
    }
    let outcome = Outcome {
        verdict: Ok(()),
        state: state_in(state),
        refused,
    };
    write_report(outcome, out)
}
