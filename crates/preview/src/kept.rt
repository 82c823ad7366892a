// A preview on a kept state, 384 bytes, which are only read.
ghost use Rattle.std.specs.Prelude.{◌≡◌};
ghost use Rattle.preview.specs.Kept.{preview_number_on, counts_on};

use super::preview::preview;
use checks::answer::call_fault_number;
use image::read::state_in;
use image::test::is_image;
use plan::answer::CallFault;

// Writes the counts of the event's preview and answers 0; or answers the number of the submit (hand in) itself, and
// writes nothing.
pub fn preview_on(image: &[u8; 384], event: u8, added: &mut [u8; 4]) -> u8
    ensures number { result ≡ preview_number_on image.now event }
    ensures counts { added.new ≡ counts_on image.now event added.old }
{
    if !is_image(image) {
        return CallFault::Incoherent as u8;
    }
    match preview(state_in(image), event) {
        Ok(counts) => {
            *added = [counts.done, counts.refused, counts.lapsed, counts.forced];
            0
        }
        Err(fault) => call_fault_number(fault) as u8,
    }
}
