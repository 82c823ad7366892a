// What a submit (hand in) would settle on a state that the host keeps.
ghost use Rattle.std.specs.Prelude.{◌≡◌};
ghost use Rattle.preview.specs.Kept.{preview_number_on, counts_on};

use preview::kept::preview_on;

// Writes how many lines the submit of the event would add to the history as done, refused, lapsed and forced, and
// answers 0; or answers the number of the submit itself, and leaves `added` as it was.
#[unsafe(no_mangle)]
pub extern "C" fn sinewhopa_preview(state: &[u8; 384], event: u8, added: &mut [u8; 4]) -> u8
    ensures number { result ≡ preview_number_on state.now event }
    ensures counts { added.new ≡ counts_on state.now event added.old }
{
    preview_on(state, event, added)
}
