// Rules, and which of them a sheet may declare. The tests of a single rule take the arrays that they read, and not the
// whole plan: their contracts cover every plan with these events. What a rule forbids and owes is asked of sets, in
// `members`.
ghost use Rattle.std.specs.Prelude.{◌≡◌};
ghost use Rattle.plan.specs.declared.plan.Plan.{Plan};
ghost use Rattle.plan.specs.Rules.{named, enforceable};

use super::event::{is_delayable, is_forcible, is_rejectable};
use super::plans::event_at;
use plan::event::Event;
use plan::rule::Rule;

// Are the rule's events declared, and none named twice? (With `&&` the loop over rules is slower by a sixth.)
#[tactic(auto, unfolding(plan::specs::Rules::named))]
pub fn are_named(count: u8, rule: Rule) -> bool
    ensures { result ≡ named count rule }
{
    match rule {
        Rule::Order(a, b) | Rule::Need(a, b) => (a < count) & (b < count) & (a != b),
        Rule::Conditional(a, b, c) => {
            (a < count) & (b < count) & (c < count) & (a != b) & (a != c) & (b != c)
        }
    }
}

// Is the rule enforceable?
pub fn is_enforceable(events: [Event; 16], rule: Rule) -> bool
    ensures { (p : Plan) → p.events ≡ events → result ≡ enforceable p rule }
{
    let (a, b, c) = match rule {
        Rule::Order(a, b) | Rule::Need(a, b) => (a, b, b),
        Rule::Conditional(a, b, c) => (a, b, c),
    };
    let first = event_at(&events, a).attributes;
    let second = event_at(&events, b).attributes;
    let last = event_at(&events, c).attributes;
    match rule {
        Rule::Order(..) => is_delayable(last) | is_rejectable(first),
        Rule::Need(..) => is_rejectable(first) | is_forcible(last),
        Rule::Conditional(..) => {
            is_rejectable(first) | is_rejectable(second) | is_forcible(last)
        }
    }
}
