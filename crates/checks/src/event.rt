// Events and their attributes.
ghost use Rattle.std.specs.Prelude.{◌≡◌};
ghost use Rattle.plan.specs.Plans.{holds_bit};
ghost use Rattle.plan.specs.Rules.{bad_attributes};

use plan::event::{DELAYABLE, FORCIBLE, REJECTABLE};

pub fn is_forcible(attributes: u8) -> bool
    ensures { result ≡ holds_bit 1 attributes }
{
    attributes & FORCIBLE != 0
}

pub fn is_rejectable(attributes: u8) -> bool
    ensures { result ≡ holds_bit 2 attributes }
{
    attributes & REJECTABLE != 0
}

pub fn is_delayable(attributes: u8) -> bool
    ensures { result ≡ holds_bit 4 attributes }
{
    attributes & DELAYABLE != 0
}

// Attributes that no sheet may declare: above 7, or delayable without rejectable. (With `||` and `&&` the loop over
// events is slower by a sixth.)
pub fn are_bad(attributes: u8) -> bool
    ensures { result ≡ bad_attributes attributes }
{
    (attributes > 7) | (is_delayable(attributes) & !is_rejectable(attributes))
}
