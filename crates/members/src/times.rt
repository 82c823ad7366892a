// The windows of the sixteen events, at a minute, as sets.
ghost use Rattle.std.specs.Prelude.{◌≡◌};
ghost use Rattle.members.specs.Times.{Clocks, any_window};

use super::set::with_if;
use checks::window::{is_allowed, is_over};
use plan::window::Window;

// The events that may be done now, and those whose window is over.
#[derive(Clone, Copy)]
pub struct Times {
    pub timely: u16,
    pub late: u16,
}

impl Times {
    // One pass over the windows. If there are none, all sixteen events are in time, and none is late.
    pub fn of(windows: [Window; 16], minute: u32) -> Times
        ensures { Clocks windows minute result }
    {
        if !has_window(windows) {
            return Times {
                timely: u16::MAX,
                late: 0,
            };
        }
        let mut timely = 0;
        let mut late = 0;
        for e in 0..16u8 {
            let window = windows[e as usize];
            timely = with_if(timely, e, is_allowed(window, minute));
            late = with_if(late, e, is_over(window, minute));
        }
        Times { timely, late }
    }
}

// Is there a window at all? It looks at every place without a branch: the compiler joins them and tests once.
fn has_window(windows: [Window; 16]) -> bool
    ensures { result ≡ any_window windows }
{
    let mut any = false;
    for window in &windows {
        any |= window.until != 0;
    }
    any
}
