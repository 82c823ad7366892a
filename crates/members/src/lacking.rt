// The events at hand that no single rule shows to be hopeless.
ghost use Rattle.std.specs.Prelude.{not, ◌&&◌, ◌≡◌, List, Bool, ℕ};
ghost use Rattle.plan.specs.Fates.{Fates};
ghost use Rattle.members.specs.Prelude.{Plan};
ghost use Rattle.members.specs.Sets.{in_set, unbroken, Shows, IsGround};
ghost use Rattle.members.specs.Lacking.{lacking, Spared};

use super::ground::Ground;
use super::set::{is_in, with_if, without};
use super::view::View;
use plan::rule::Rule;

impl Ground {
    // The events at hand, less those for which a rule asks for an event that is not at hand: one pass over the rules.
    // The last rule comes first, so that one pass drops a chain of needs as it is mostly written down.
    pub fn spare(&self, hand: u16) -> u16
        ensures { (p : Plan) (marks : List Bool) (f : Fates) → IsGround p marks f self.now → Spared p (unbroken marks) f (in_set hand) (in_set result) }
    {
        let mut able = hand;
        for i in (0..self.count).rev() {
            if let Some(rule) = self.standing(i) {
                able = drop_lacking(able, rule, self.view);
            }
        }
        able
    }
}

// The events, less the one for which the rule asks for an event that is neither among them nor settled.
fn drop_lacking(able: u16, rule: Rule, view: View) -> u16
    ensures { (p : Plan) (f : Fates) → Shows p f view → (x : ℕ) → in_set result x ≡ (in_set able x && not (lacking p f (in_set able) rule x)) }
{
    let here = view.done | view.gone | able;
    match rule {
        Rule::Order(a, b) => without(able, with_if(0, b, is_in(view.waits, b) & !is_in(here, a))),
        Rule::Need(a, b) => without(able, with_if(0, a, !is_in(here, b))),
        Rule::Conditional(_, _, _) => able,
    }
}
