// The least closed set: the events that have to be done together with one.
ghost use Rattle.std.specs.Prelude.{◌≡◌, List, Bool, ℕ};
ghost use Rattle.plan.specs.Fates.{Fates};
ghost use Rattle.orders.specs.Closed.{asks, target};
ghost use Rattle.members.specs.Prelude.{Plan};
ghost use Rattle.members.specs.Sets.{in_set, unbroken, Shows, IsGround};
ghost use Rattle.members.specs.Growing.{Added, Sure, Passed, Closes};

use super::ground::Ground;
use super::set::{is_in, with_if};
use super::view::View;
use plan::rule::Rule;

// A set of events, and how many it has.
#[derive(Clone, Copy)]
pub struct Members {
    pub set: u16,
    pub count: u8,
}

impl Ground {
    // The least closed set of the event: all events that its members wait for or call for are in it. There is none if
    // one of its events is not able, or if it has more than six.
    pub fn close(&self, able: u16, event: u8) -> Option<Members>
        ensures { (p : Plan) (marks : List Bool) (f : Fates) → IsGround p marks f self.now → Closes p (unbroken marks) f (in_set able) event result }
    {
        if !is_in(able, event) {
            return None;
        }
        let mut members = Members {
            set: with_if(0, event, true),
            count: 1,
        };
        let mut before = 0;
        while before < members.count {
            before = members.count;
            members = self.pass_over(able, members)?;
        }
        Some(members)
    }

    // The members with what the rules ask for, once over the rules.
    fn pass_over(&self, able: u16, members: Members) -> Option<Members>
        ensures { (p : Plan) (marks : List Bool) (f : Fates) (e : ℕ) → IsGround p marks f self.now → Sure p (unbroken marks) f (in_set able) e members → Passed p (unbroken marks) f (in_set able) e members result }
    {
        let mut next = members;
        for i in 0..self.count {
            if let Some(rule) = self.standing(i) {
                next = next.add_target(rule, self.view, able)?;
            }
        }
        Some(next)
    }
}

impl Members {
    // The members after a rule.
    fn add_target(self, rule: Rule, view: View, able: u16) -> Option<Members>
        ensures { (p : Plan) (f : Fates) → Shows p f view → Added p f (in_set able) self rule result }
    {
        let target = target_of(rule);
        if !view.does_ask(rule, self.set) || is_in(view.done | view.gone | self.set, target) {
            Some(self)
        } else if is_in(able, target) & (self.count < 6) {
            Some(Members {
                set: with_if(self.set, target, true),
                count: self.count + 1,
            })
        } else {
            None
        }
    }
}

// The event that the rule asks for.
fn target_of(rule: Rule) -> u8
    ensures { result ≡ target rule }
{
    match rule {
        Rule::Order(a, _) => a,
        Rule::Need(_, b) => b,
        Rule::Conditional(_, _, c) => c,
    }
}

impl View {
    // Does the rule ask for its event if the members are to be done?
    fn does_ask(self, rule: Rule, members: u16) -> bool
        ensures { (p : Plan) (f : Fates) → Shows p f self → result ≡ asks p f (in_set members) rule }
    {
        let sure = members | self.done;
        match rule {
            Rule::Order(_, b) => is_in(members, b) & is_in(self.waits, b),
            Rule::Need(a, _) => is_in(sure, a),
            Rule::Conditional(a, b, c) => {
                let first = is_in(sure, a);
                let second = is_in(sure, b);
                (first & second)
                    | (first & self.is_pending(c, b))
                    | (second & self.is_pending(c, a))
            }
        }
    }
}
