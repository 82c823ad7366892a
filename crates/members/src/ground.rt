// What a search reads of a state again and again.
ghost use Rattle.std.specs.Prelude.{◌≡◌, List, Bool, ℕ, ◌<◌, Some};
ghost use Rattle.plan.specs.Base.{when};
ghost use Rattle.plan.specs.Fates.{Fates};
ghost use Rattle.plan.specs.Plans.{rule_at};
ghost use Rattle.orders.specs.Runs.{doing};
ghost use Rattle.members.specs.Prelude.{Plan};
ghost use Rattle.members.specs.Sets.{unbroken, IsGround};

use super::view::View;
use plan::rule::{Rule, RuleLine};

// The rules of a plan with their marks (recorded as broken or not), how many rules are declared, and the view of its
// events. Passed by reference: a step of a search reads it several times.
#[derive(Clone, Copy)]
pub struct Ground {
    pub rules: [RuleLine; 16],
    pub broken: [bool; 16],
    pub count: u8,
    pub view: View,
}

impl Ground {
    // The ground after the event is done.
    pub fn after(&self, event: u8) -> Ground
        ensures { (p : Plan) (marks : List Bool) (f : Fates) → event < 16 → IsGround p marks f self.now → IsGround p marks (doing f event) result }
    {
        Ground {
            view: self.view.after(event),
            ..*self
        }
    }

    // The rule in a place, if it is not recorded as broken. Past the places stands the blank rule.
    pub fn standing(&self, i: u8) -> Option<Rule>
        ensures { (p : Plan) (marks : List Bool) (f : Fates) → IsGround p marks f self.now → result ≡ when (unbroken marks i) (Some (rule_at p i)) }
    {
        if i >= 16 {
            Some(Rule::Order(0, 0))
        } else if self.broken[i as usize] {
            None
        } else {
            Some(self.rules[i as usize].rule)
        }
    }
}
