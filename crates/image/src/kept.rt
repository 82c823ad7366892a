// Calls on an image, and the check of an image. Bytes that are no image are answered with 12 and stay as they are.
ghost use Rattle.std.specs.Prelude.{◌≡◌, cond};
ghost use Rattle.plan.specs.Faults.{answer_number, is_turned_down};
ghost use Rattle.image.specs.Calls.{number_on, image_after, is_sound, check_on};
ghost use Rattle.image.specs.Internal.Writes.{with_call};

use super::read::state_in;
use super::test::is_image;
use super::write::put_call;
use checks::answer::answer_number;
use plan::answer::{Answer, CallFault};
use plan::calls::Call;
use scheduler::state::State;

// Makes a call on the state of the image and answers its number: 0 if it is accepted.
#[tactic(auto, unfolding(crate::specs::Calls::number_on, crate::specs::Calls::image_after))]
pub fn make_call(image: &mut [u8; 384], made: Call) -> u8
    ensures number { result ≡ number_on image.old made }
    ensures bytes { image.new ≡ image_after image.old made }
{
    if !is_image(image) {
        return CallFault::Incoherent as u8;
    }
    let reply = state_in(image).call(made);
    note(image, reply.answer, &reply.state)
}

// Are the bytes the image of a coherent state?
#[tactic(auto, unfolding(crate::specs::Calls::is_sound))]
pub fn is_sound(image: &[u8; 384]) -> bool
    ensures { result ≡ is_sound image.now }
{
    is_image(image) && state_in(image).is_coherent()
}

// The check: 0 if they are, else 12.
#[tactic(auto, unfolding(crate::specs::Calls::check_on))]
pub fn check(image: &[u8; 384]) -> u8
    ensures { result ≡ check_on image.now }
{
    if is_sound(image) {
        0
    } else {
        CallFault::Incoherent as u8
    }
}

// Writes what a call has changed, unless it was turned down, and answers its number.
fn note(image: &mut [u8; 384], answer: Answer, next: &State) -> u8
    ensures number { result ≡ answer_number answer }
    ensures bytes { image.new ≡ cond (is_turned_down answer) image.old (with_call next.now image.old) }
{
    if !matches!(answer, Answer::TurnedDown(_)) {
        put_call(image, next);
    }
    answer_number(answer) as u8
}
