// What one rule counts as done, forbids and owes, by the sets of a view.
ghost use Rattle.std.specs.Prelude.{not, ◌&&◌, ◌≡◌};
ghost use Rattle.plan.specs.Fates.{Fates};
ghost use Rattle.plan.specs.Plans.{forcible};
ghost use Rattle.plan.specs.Rules.{unstoppable, reckoned, forbids, owes};
ghost use Rattle.members.specs.Prelude.{Plan};
ghost use Rattle.members.specs.Sets.{Shows};

use super::set::is_in;
use super::view::View;
use plan::rule::Rule;

impl View {
    // Does the rule forbid doing the event, for good or for now (6.2 to 6.6, 6.11)?
    pub fn does_forbid(self, rule: Rule, event: u8) -> bool
        ensures { (p : Plan) (f : Fates) → Shows p f self → result ≡ forbids p f rule event }
    {
        match rule {
            Rule::Order(a, b) => {
                ((event == a) & is_in(self.done, b))
                    | ((event == b)
                        & is_in(self.waits, b)
                        & !(is_in(self.done, a) | is_in(self.gone, a)))
            }
            Rule::Need(a, b) => (event == a) & is_in(self.gone, b),
            Rule::Conditional(a, b, c) => {
                is_in(self.gone, c)
                    & (((event == a) & self.is_reckoned(c, b))
                        | ((event == b) & self.is_reckoned(c, a)))
            }
        }
    }

    // Does the rule owe (6.3, 6.7, 6.10)?
    pub fn does_owe(self, rule: Rule) -> bool
        ensures { (p : Plan) (f : Fates) → Shows p f self → result ≡ owes p f rule }
    {
        match rule {
            Rule::Order(_, _) => false,
            Rule::Need(a, b) => is_in(self.done, a) & !(is_in(self.done, b) | is_in(self.gone, b)),
            Rule::Conditional(a, b, c) => {
                ((is_in(self.done, a) & self.is_reckoned(c, b))
                    | (is_in(self.done, b) & self.is_reckoned(c, a)))
                    & !(is_in(self.done, c) | is_in(self.gone, c))
            }
        }
    }

    // Does the trigger count as done for a conditional with this c: is it done, or is it open and unstoppable and c not
    // forcible (6.9)?
    pub fn is_reckoned(self, c: u8, trigger: u8) -> bool
        ensures { (p : Plan) (f : Fates) → Shows p f self → result ≡ reckoned p f c trigger }
    {
        is_in(self.done, trigger) | self.is_pending(c, trigger)
    }

    // Is the trigger open and unstoppable, and c not forcible?
    pub fn is_pending(self, c: u8, trigger: u8) -> bool
        ensures { (p : Plan) (f : Fates) → Shows p f self → result ≡ (unstoppable p f trigger && not (forcible p c)) }
    {
        !is_in(self.stoppable, trigger) & !is_in(self.forcible, c)
    }
}
