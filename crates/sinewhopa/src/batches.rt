// Calls that are made together on a state that the host keeps.
ghost use Rattle.std.specs.Prelude.{◌≡◌};
ghost use Rattle.batch.specs.Kept.{batch_number_on, image_after_batch, entries_on};

use batch::batch::submit_all;
use batch::entry::BatchEntry;
use batch::kept::{kept_state, note_reply};

// Makes the calls that the entries ask for, in their order, and writes its answer into each entry. Answers 0; or 12 or
// 13 if the whole batch is turned down, and then writes nothing.
#[unsafe(no_mangle)]
pub extern "C" fn sinewhopa_submit_all(state: &mut [u8; 384], entries: &mut [BatchEntry]) -> u8
    ensures number { result ≡ batch_number_on state.old entries.old }
    ensures bytes { state.new ≡ image_after_batch state.old entries.old }
    ensures answers { entries.new ≡ entries_on state.old entries.old }
{
    let kept = kept_state(*state);
    let reply = submit_all(kept, entries);
    note_reply(state, reply)
}
