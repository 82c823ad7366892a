// Windows of time.
ghost use Rattle.std.specs.Prelude.{◌≡◌};
ghost use Rattle.plan.specs.Plans.{allowed_in, over_in};

use plan::window::Window;

// May an event with this window be done at the minute?
#[tactic(auto, unfolding(plan::specs::Plans::allowed_in))]
pub fn is_allowed(window: Window, minute: u32) -> bool
    ensures { result ≡ allowed_in window minute }
{
    (window.until == 0) | ((window.from <= minute) & (minute < window.until))
}

// Is the window over at the minute?
#[tactic(auto, unfolding(plan::specs::Plans::over_in))]
pub fn is_over(window: Window, minute: u32) -> bool
    ensures { result ≡ over_in window minute }
{
    (window.until != 0) & (window.until <= minute)
}
