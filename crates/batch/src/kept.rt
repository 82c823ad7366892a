// A batch on a kept state, 384 bytes: the state that it begins with, and what it leaves.
ghost use Rattle.std.specs.Prelude.{cond, ◌≡◌};
ghost use Rattle.plan.specs.Faults.{answer_number, is_turned_down};
ghost use Rattle.image.specs.Layout.{image_of};
ghost use Rattle.batch.specs.Internal.Turns.{kept_state};

use checks::answer::answer_number;
use image::read::state_in;
use image::test::is_image;
use image::write::put_state;
use plan::answer::Answer;
use scheduler::reply::Reply;
use scheduler::state::State;

// The state that the bytes stand for. For bytes that are no image it is a state that is not coherent, so that a batch
// on it is turned down with number 12.
pub fn kept_state(bytes: [u8; 384]) -> State
    ensures { result ≡ kept_state bytes }
{
    let mut state = state_in(&bytes);
    if !is_image(&bytes) {
        state.plan.event_count = 17;
    }
    state
}

// Writes the state after a batch, unless it was turned down, and answers the batch's number.
pub fn note_reply(image: &mut [u8; 384], reply: Reply) -> u8
    ensures { (result ≡ answer_number reply.answer) × (image.new ≡ cond (is_turned_down reply.answer) image.old (image_of reply.state)) }
{
    if !matches!(reply.answer, Answer::TurnedDown(_)) {
        put_state(image, reply.state);
    }
    answer_number(reply.answer) as u8
}
