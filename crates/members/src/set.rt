// Sets of the sixteen events: a bit for each.
ghost use Rattle.std.specs.Prelude.{◌≡◌, not, ◌&&◌, ◌||◌, ℕ, eqb, ltb};
ghost use Rattle.plan.specs.Base.{lowest};
ghost use Rattle.members.specs.Sets.{in_set};

// Is the event in the set?
pub fn is_in(set: u16, event: u8) -> bool
    ensures { result ≡ in_set set event }
{
    event < 16 && (set >> event) & 1 == 1
}

// The set with one event more, if `is` is true; an event past the 16 places is not added.
pub fn with_if(set: u16, event: u8, is: bool) -> u16
    ensures { (x : ℕ) → in_set result x ≡ ((eqb x event && (ltb event 16 && is)) || in_set set x) }
{
    if is & (event < 16) {
        set | (1 << event)
    } else {
        set
    }
}

// The events below a number.
pub fn first_of(count: u8) -> u16
    ensures { (x : ℕ) → in_set result x ≡ (ltb x 16 && ltb x count) }
{
    if count < 16 {
        (1 << count) - 1
    } else {
        u16::MAX
    }
}

// The events of both sets.
pub fn common(set: u16, other: u16) -> u16
    ensures { (x : ℕ) → in_set result x ≡ (in_set set x && in_set other x) }
{
    set & other
}

// The events of one set that are not in the other.
pub fn without(set: u16, other: u16) -> u16
    ensures { (x : ℕ) → in_set result x ≡ (in_set set x && not (in_set other x)) }
{
    set & !other
}

// The lowest event of the set: the number of zeros below its lowest bit.
pub fn lowest_of(set: u16) -> Option<u8>
    ensures { result ≡ lowest 16 (in_set set) }
{
    if set == 0 {
        None
    } else {
        Some(set.trailing_zeros() as u8)
    }
}
