// The records of a sheet's bytes.
ghost use Rattle.std.specs.Prelude.{◌≡◌};
ghost use Rattle.plan.specs.Records.{record_at, word_at};
ghost use Rattle.sheet.specs.Internal.Records.{four_bytes_at};

use super::kind::Kind;
use checks::bytes::word_of;
use plan::record::Record;

// The record at an offset; past the sheet's end, zeros. Only kind 7 has the two numbers.
pub(crate) fn record_at(sheet: &[u8], at: usize) -> Record
    ensures { result ≡ record_at sheet.now at }
{
    let [kind, x, y, z] = four_bytes_at(sheet, at);
    let (from, until) = if matches!(Kind::of(kind), Some(Kind::Window)) {
        (word_at(sheet, at + 2), word_at(sheet, at + 6))
    } else {
        (0, 0)
    };
    Record {
        kind,
        x,
        y,
        z,
        from,
        until,
    }
}

// Four bytes as a number, the lowest first; past the sheet's end, zeros. (With the array as it stands, and not taken
// apart for `word_of`, reading was slower.)
fn word_at(sheet: &[u8], at: usize) -> u32
    ensures { result ≡ word_at sheet.now at }
{
    let [a, b, c, d] = four_bytes_at(sheet, at);
    word_of(a, b, c, d)
}

// The four bytes from an offset on; past the sheet's end, zeros.
fn four_bytes_at(sheet: &[u8], at: usize) -> [u8; 4]
    ensures { result ≡ four_bytes_at sheet.now at }
{
    match *sheet.get(at..).unwrap_or(&[]) {
        [a, b, c, d, ..] => [a, b, c, d],
        [a, b, c] => [a, b, c, 0],
        [a, b] => [a, b, 0, 0],
        [a] => [a, 0, 0, 0],
        [] => [0; 4],
    }
}
