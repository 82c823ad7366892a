// Rules. The tests of a single rule are in `checks`; what a rule forbids and owes is asked of sets, in `members`.

// Order a, b: a before b. Need a, b: a only if b. Conditional a, b, c: if a and b, then c.
#[derive(Clone, Copy)]
pub enum Rule {
    Order(u8, u8),
    Need(u8, u8),
    Conditional(u8, u8, u8),
}

// A rule in its place.
#[derive(Clone, Copy)]
pub struct RuleLine {
    pub rule: Rule,
}
