// A state that the host keeps, written out as a sheet.
ghost use Rattle.std.specs.Prelude.{◌≡◌, length};
ghost use Rattle.writer.specs.Kept.{write_number_on, buffer_on, need_on};

use writer::kept::write_sheet_on;

// Writes the sheet that declares the state's events, rules and windows to the start of `out`, and its length into
// `need`, and answers 0. Otherwise it answers 12, with 0 in `need`, or 14, with the length in `need`, and leaves `out`
// as it was.
#[unsafe(no_mangle)]
pub extern "C" fn sinewhopa_write_sheet(state: &[u8; 384], out: &mut [u8], need: &mut usize) -> u8
    ensures number { result ≡ write_number_on state.now (length out.old) }
    ensures bytes { out.new ≡ buffer_on state.now out.old }
    ensures need { need.new ≡ need_on state.now }
{
    write_sheet_on(state, out, need)
}
