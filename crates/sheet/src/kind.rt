// The kinds of records: the length of a body, what a record declares, and the rule of a rule's record.
ghost use Rattle.std.specs.Prelude.{◌≡◌, ◌<◌, ◌⊎◌, MatchOption};
ghost use Rattle.plan.specs.Records.{body_length, new_events, new_rules, rule_of};
ghost use Rattle.sheet.specs.Internal.Records.{number_of};

use plan::record::Record;
use plan::rule::Rule;

#[derive(Clone, Copy, PartialEq, Eq)]
pub(crate) enum Kind {
    Event,
    Order,
    Need,
    Conditional,
    End,
    FourEvents,
    Window,
}

// The length of the body of a record with this byte as its kind; 0 if no kind has this byte.
pub fn body_length(kind: u8) -> u8
    ensures { result ≡ body_length kind }
{
    match Kind::of(kind) {
        Some(kind) => kind.body_length(),
        None => 0,
    }
}

impl Kind {
    // The kind that has this byte.
    pub(crate) fn of(byte: u8) -> Option<Kind>
        ensures { MatchOption result ((byte ≡ 0) ⊎ (7 < byte)) (λ kind. number_of kind ≡ byte) }
    {
        match byte {
            1 => Some(Kind::Event),
            2 => Some(Kind::Order),
            3 => Some(Kind::Need),
            4 => Some(Kind::Conditional),
            5 => Some(Kind::End),
            6 => Some(Kind::FourEvents),
            7 => Some(Kind::Window),
            _ => None,
        }
    }

    // The length of the body, and how many events and rules it declares. An array in place of the arms would be built
    // again at every call.
    pub(crate) fn body_length(self) -> u8
        ensures { result ≡ body_length (number_of self) }
    {
        match self {
            Kind::Event | Kind::Order | Kind::Need => 2,
            Kind::Conditional => 3,
            Kind::End => 0,
            Kind::FourEvents => 1,
            Kind::Window => 9,
        }
    }

    pub(crate) fn new_events(self) -> u8
        ensures { result ≡ new_events (number_of self) }
    {
        match self {
            Kind::Event => 1,
            Kind::FourEvents => 4,
            _ => 0,
        }
    }

    pub(crate) fn new_rules(self) -> u8
        ensures { result ≡ new_rules (number_of self) }
    {
        match self {
            Kind::Order | Kind::Need | Kind::Conditional => 1,
            _ => 0,
        }
    }

    // The rule of a record of kind 2, 3 or 4.
    #[tactic(auto, unfolding(plan::specs::Records::rule_of))]
    pub(crate) fn rule_of(self, rec: Record) -> Rule
        requires { number_of self ≡ rec.kind }
        ensures { result ≡ rule_of rec }
    {
        match self {
            Kind::Order => Rule::Order(rec.x, rec.y),
            Kind::Need => Rule::Need(rec.x, rec.y),
            _ => Rule::Conditional(rec.x, rec.y, rec.z),
        }
    }
}
