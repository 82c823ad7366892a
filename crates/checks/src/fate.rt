// Fates, and the place that holds one for an event.
ghost use Rattle.std.specs.Prelude.{◌≡◌};
ghost use Rattle.plan.specs.Fates.{is_open, is_held, is_done, is_gone, is_settled, done_as, fate_number};

use plan::fate::Fate;

pub fn is_open(x: Fate) -> bool
    ensures { result ≡ is_open x }
{
    x == Fate::Open
}

pub fn is_held(x: Fate) -> bool
    ensures { result ≡ is_held x }
{
    x == Fate::Held
}

// Done, or forced, which counts as done: settled, and neither refused nor lapsed. (A match on two non-adjacent variants
// compiles to a table and slows the loop over events.)
pub fn is_done(x: Fate) -> bool
    ensures { result ≡ is_done x }
{
    is_settled(x) & !is_gone(x)
}

// Refused or lapsed.
pub fn is_gone(x: Fate) -> bool
    ensures { result ≡ is_gone x }
{
    matches!(x, Fate::Refused | Fate::Lapsed)
}

pub fn is_settled(x: Fate) -> bool
    ensures { result ≡ is_settled x }
{
    matches!(x, Fate::Done | Fate::Refused | Fate::Lapsed | Fate::Forced)
}

// The fate that an order gives an event: forced if the event is open when its turn comes, else done.
pub fn done_as(opened: bool) -> Fate
    ensures { result ≡ done_as opened }
{
    if opened { Fate::Forced } else { Fate::Done }
}

// The number of a fate, as in an image.
pub fn fate_number(x: Fate) -> u8
    ensures { result ≡ fate_number x }
{
    x as u8
}
