// The sheet of a kept state, 384 bytes, which are only read.
ghost use Rattle.std.specs.Prelude.{◌≡◌, length};
ghost use Rattle.writer.specs.Kept.{write_number_on, buffer_on, need_on};

use super::write::write_sheet;
use checks::answer::call_fault_number;
use image::read::state_in;
use image::test::is_image;
use plan::answer::CallFault;

// Writes the state's sheet to the start of the buffer and its length into `need`, and answers 0. Otherwise it answers
// 12, with 0 in `need`, or 14, with the length in `need`, and the buffer keeps its bytes.
pub fn write_sheet_on(image: &[u8; 384], out: &mut [u8], need: &mut usize) -> u8
    ensures number { result ≡ write_number_on image.now (length out.old) }
    ensures bytes { out.new ≡ buffer_on image.now out.old }
    ensures need { need.new ≡ need_on image.now }
{
    if !is_image(image) {
        *need = 0;
        return CallFault::Incoherent as u8;
    }
    match write_sheet(state_in(image), out) {
        Ok(length) => {
            *need = length;
            0
        }
        Err(fault) => {
            *need = fault.need();
            call_fault_number(fault.into()) as u8
        }
    }
}
