// A state's bytes, written row by row.
ghost use Rattle.std.specs.Prelude.{◌≡◌, ◌+◌, ◌*◌, ◌≤◌};
ghost use Rattle.std.specs.Fn.{FnReturnsAt};
ghost use Rattle.image.specs.Layout.{word_byte, image_of};
ghost use Rattle.image.specs.Internal.Writes.{put_to, IsRowPut, IsWordRowPut, with_plan, with_call};

use super::layout::{
    A_AT, ATTRIBUTES_AT, B_AT, C_AT, EVENT_COUNT_AT, FATE_AT, FROM_AT, KIND_AT, LINE_COUNT_AT,
    LINE_EVENT_AT, LINE_FATE_AT, MARK_AT, MINUTE_AT, RULE_COUNT_AT, SHUT_AT, STEP_AT, UNTIL_AT,
    VERSION_AT,
};
use super::number::rule_bytes;
use checks::fate::fate_number;
use plan::plan::Plan;
use scheduler::state::State;

// The whole state.
pub fn put_state(image: &mut [u8; 384], state: State)
    ensures { image.new ≡ image_of state }
{
    *image = [0; 384];
    put_plan(image, &state.plan);
    put_call(image, &state);
}

// What a call may change: fates, marks, closed steps, the history, the minute.
pub(crate) fn put_call(image: &mut [u8; 384], state: &State)
    ensures { image.new ≡ with_call state.now image.old }
{
    image[LINE_COUNT_AT] = state.history_len;
    put_row(
        image,
        FATE_AT,
        state.standings,
        |standing| fate_number(standing.fate),
    );
    put_row(image, MARK_AT, state.broken, |mark| *mark as u8);
    put_row(image, SHUT_AT, state.closed, |mark| *mark as u8);
    put_row(image, LINE_EVENT_AT, state.history, |line| line.event);
    put_row(
        image,
        LINE_FATE_AT,
        state.history,
        |line| fate_number(line.fate),
    );
    put_word(image, MINUTE_AT, state.minute);
}

// What a plan declares, with the version before it.
fn put_plan(image: &mut [u8; 384], plan: &Plan)
    ensures { image.new ≡ with_plan plan.now image.old }
{
    image[VERSION_AT] = 1;
    image[EVENT_COUNT_AT] = plan.event_count;
    image[RULE_COUNT_AT] = plan.rule_count;
    put_row(image, STEP_AT, plan.events, |event| event.step);
    put_row(image, ATTRIBUTES_AT, plan.events, |event| event.attributes);
    put_row(image, KIND_AT, plan.rules, |line| rule_bytes(line.rule)[0]);
    put_row(image, A_AT, plan.rules, |line| rule_bytes(line.rule)[1]);
    put_row(image, B_AT, plan.rules, |line| rule_bytes(line.rule)[2]);
    put_row(image, C_AT, plan.rules, |line| rule_bytes(line.rule)[3]);
    put_words(image, FROM_AT, plan.windows, |window| window.from);
    put_words(image, UNTIL_AT, plan.windows, |window| window.until);
}

// A byte of each element of a row, from an offset on. The row is passed by value and each element copied before its
// byte is taken: rows that are lent, or read field by field, are not loaded as vectors.
fn put_row<T: Copy, const N: usize, F: Fn(&T) -> u8>(
    image: &mut [u8; 384],
    at: usize,
    row: [T; N],
    byte: F,
)
    requires room { at + N ≤ 384 }
    requires callable { F.IsAlwaysCallable byte }
    ensures { IsRowPut (FnReturnsAt F.Fn byte) at row N image.old image.new }
{
    for i in 0..N {
        let x = row[i];
        image[at + i] = byte(&x);
    }
}

// A number of four bytes of each element of a row.
fn put_words<T: Copy, const N: usize, F: Fn(&T) -> u32>(
    image: &mut [u8; 384],
    at: usize,
    row: [T; N],
    word: F,
)
    requires room { at + 4 * N ≤ 384 }
    requires callable { F.IsAlwaysCallable word }
    ensures { IsWordRowPut (FnReturnsAt F.Fn word) at row N image.old image.new }
{
    for i in 0..N {
        let x = row[i];
        put_word(image, at + 4 * i, word(&x));
    }
}

// A number's four bytes, the lowest first.
fn put_word(image: &mut [u8; 384], at: usize, word: u32)
    requires { at + 4 ≤ 384 }
    ensures { image.new ≡ put_to at (word_byte word) image.old 4 }
{
    image[at..at + 4].copy_from_slice(&word.to_le_bytes());
}
