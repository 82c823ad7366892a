// What a sheet declares.
ghost use Rattle.std.specs.Prelude.{◌≡◌};
ghost use Rattle.plan.specs.declared.plan.Plan.{Plan};
ghost use Rattle.plan.specs.Base.{read_at};
ghost use Rattle.plan.specs.Plans.{blank_event, empty_plan, event_count, has_event};

use plan::event::Event;
use plan::plan::Plan;
use plan::rule::{Rule, RuleLine};
use plan::window::Window;

// What an unused place holds.
const NO_EVENT: Event = Event {
    step: 0,
    attributes: 0,
};

const NO_RULE: RuleLine = RuleLine {
    rule: Rule::Order(0, 0),
};

const NO_WINDOW: Window = Window { from: 0, until: 0 };

// The plan without events and rules.
pub fn empty_plan() -> Plan
    ensures { result ≡ empty_plan }
{
    Plan {
        events: [NO_EVENT; 16],
        event_count: 0,
        rules: [NO_RULE; 16],
        rule_count: 0,
        windows: [NO_WINDOW; 16],
    }
}

// Does one of the first `count` events belong to the step? An event past the 16 places counts as of step 0.
pub fn has_event(events: [Event; 16], count: u8, step: u8) -> bool
    ensures { (p : Plan) → p.events ≡ events → event_count p ≡ count → result ≡ has_event p step }
{
    for e in 0..count {
        if event_at(&events, e).step == step {
            return true;
        }
    }
    false
}

// The event in a place; past the 16 places there are none.
pub(crate) fn event_at(events: &[Event; 16], e: u8) -> Event
    ensures { result ≡ read_at 16 events.now e blank_event }
{
    events.get(e as usize).copied().unwrap_or(NO_EVENT)
}
