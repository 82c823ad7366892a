// Which bytes are an image. No test ends its loop early, so that whole rows are compared at once.
ghost use Rattle.std.specs.Prelude.{◌≡◌, ℕ, ◌<◌};
ghost use Rattle.image.specs.Layout.{place_ok, is_image};
ghost use Rattle.image.specs.Internal.Tests.{IsEveryTest};

use super::layout::{C_AT, FATE_AT, KIND_AT, LINE_FATE_AT, MARK_AT, SHUT_AT, SPARE_AT, VERSION_AT};

// Are the bytes an image? Any bytes are the minute, and the minutes of windows.
pub fn is_image(image: &[u8; 384]) -> bool
    ensures { result ≡ is_image image.now }
{
    (image[VERSION_AT] == 1)
        & all_pass(16, |i| is_place(image, i))
        & all_pass(8, |k| image[SHUT_AT + k] < 2)
        & all_pass(80, |k| image[SPARE_AT + k] == 0)
}

// Does a place hold a rule, two fates and a mark as they are written?
#[tactic(auto, unfolding(crate::specs::Layout::place_ok))]
fn is_place(image: &[u8; 384], i: usize) -> bool
    requires { i < 16 }
    ensures { result ≡ place_ok image.now i }
{
    let kind = image[KIND_AT + i];
    (1 < kind)
        & (kind < 5)
        & ((kind == 4) | (image[C_AT + i] == 0))
        & (image[FATE_AT + i] < 6)
        & (image[MARK_AT + i] < 2)
        & (image[LINE_FATE_AT + i] < 6)
}

// Does every number below n pass the test?
fn all_pass<F: Fn(usize) -> bool>(n: usize, passes: F) -> bool
    requires { (i : ℕ) → i < n → F.pre passes i }
    ensures { IsEveryTest (F.post passes) n result }
{
    let mut all = true;
    for i in 0..n {
        all &= passes(i);
    }
    all
}
