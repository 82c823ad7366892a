// The events that may not come next.
ghost use Rattle.std.specs.Prelude.{◌||◌, ◌≡◌, List, Bool, ℕ, ◌<◌};
ghost use Rattle.plan.specs.Fates.{Fates};
ghost use Rattle.plan.specs.Rules.{bars};
ghost use Rattle.orders.specs.Stepwise.{follows, blocked};
ghost use Rattle.members.specs.Prelude.{Plan};
ghost use Rattle.members.specs.Sets.{in_set, unbroken, Shows, IsGround};

use super::ground::Ground;
use super::set::{is_in, with_if};
use super::view::View;
use plan::rule::Rule;

impl Ground {
    // The events that a rule forbids for good, or puts after one of those left. With none left, these are the events
    // that a rule bars.
    pub fn blocked(&self, left: u16) -> u16
        ensures { (p : Plan) (marks : List Bool) (f : Fates) → IsGround p marks f self.now → (x : ℕ) → x < 16 → in_set result x ≡ blocked p (unbroken marks) f (in_set left) x }
    {
        let mut blocked = 0;
        for i in 0..self.count {
            if let Some(rule) = self.standing(i) {
                blocked = add_blocked(blocked, rule, self.view, left);
            }
        }
        blocked
    }
}

// The set with the events that the rule forbids for good, or puts after one of those left.
fn add_blocked(set: u16, rule: Rule, view: View, left: u16) -> u16
    ensures { (p : Plan) (f : Fates) → Shows p f view → (x : ℕ) → x < 16 → in_set result x ≡ ((bars p f rule x || follows p (in_set left) rule x) || in_set set x) }
{
    match rule {
        Rule::Order(a, b) => {
            let late = with_if(set, a, is_in(view.done, b));
            with_if(late, b, is_in(left, a) & ((a != b) | is_in(view.waits, b)))
        }
        Rule::Need(a, b) => with_if(set, a, is_in(view.gone, b)),
        Rule::Conditional(a, b, c) => {
            let gone = is_in(view.gone, c);
            let second = with_if(set, a, gone & view.is_reckoned(c, b));
            with_if(second, b, gone & view.is_reckoned(c, a))
        }
    }
}
