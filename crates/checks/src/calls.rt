// Calls as data, and their records: 16 and an event, 17 and a step, 18, or 19 and a minute.
ghost use Rattle.std.specs.Prelude.{◌≡◌, ◌≢◌, ◌+◌, ◌<◌, ◌≤◌, length, get_or, drop, [], ◌∷◌};
ghost use Rattle.plan.specs.Calls.{call_of, call_size, first_call, advance_in, any_call_first, Finishes};

use super::bytes::{byte_at, word_of};
use plan::calls::{ADVANCE, CLOSE, Call, CallRead, FINISH, SUBMIT};

// The record at an offset, of a kind that the runner takes: 16 to 18.
pub fn call_at(bytes: &[u8], at: usize) -> CallRead
    ensures { result ≡ first_call (drop at bytes.now) }
{
    if bytes.len() <= at {
        return CallRead::End;
    }
    if bytes.len() - at == 1 {
        return last_call(bytes[at]);
    }
    call_of(bytes[at], bytes[at + 1])
}

// The record at an offset, of any kind.
pub fn any_call_at(bytes: &[u8], at: usize) -> CallRead
    ensures { result ≡ any_call_first (drop at bytes.now) }
{
    if byte_at(bytes, at) == ADVANCE {
        advance_at(bytes, at)
    } else {
        call_at(bytes, at)
    }
}

// Skips the finishes that follow one another from an offset on. (In a function of its own the loop is a few bytes long,
// and its place in memory does not matter.)
#[inline(never)]
pub fn skip_finishes(bytes: &[u8], from: usize) -> usize
    ensures ahead { from ≤ result }
    ensures inside { from ≤ length bytes.now → result ≤ length bytes.now }
    ensures finishes { Finishes bytes.now from result }
    ensures another { result < length bytes.now → get_or bytes.now result 0 ≢ 18 }
{
    for at in from..bytes.len() {
        if bytes[at] != FINISH {
            return at;
        }
    }
    from.max(bytes.len())
}

// The record of kind 19 at an offset: four bytes follow, the lowest first, or the record is cut.
fn advance_at(bytes: &[u8], at: usize) -> CallRead
    requires { at < length bytes.now }
    ensures { result ≡ advance_in (drop (at + 1) bytes.now) }
{
    match &bytes[at + 1..] {
        [a, b, c, d, ..] => CallRead::Listed(Call::Advance(word_of(*a, *b, *c, *d))),
        _ => CallRead::Bad,
    }
}

// How many bytes a call's record has.
pub fn call_size(made: Call) -> usize
    ensures { result ≡ call_size made }
{
    match made {
        Call::Submit(_) | Call::Close(_) => 2,
        Call::Finish => 1,
        Call::Advance(_) => 5,
    }
}

// A record with only its kind byte left.
fn last_call(kind: u8) -> CallRead
    ensures { result ≡ first_call (kind ∷ []) }
{
    if kind == FINISH {
        CallRead::Listed(Call::Finish)
    } else {
        CallRead::Bad
    }
}

// The call of a record of this kind, with the byte after the kind.
fn call_of(kind: u8, number: u8) -> CallRead
    ensures { result ≡ call_of kind number }
{
    match kind {
        SUBMIT => CallRead::Listed(Call::Submit(number)),
        CLOSE => CallRead::Listed(Call::Close(number)),
        FINISH => CallRead::Listed(Call::Finish),
        _ => CallRead::Bad,
    }
}
