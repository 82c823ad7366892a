// Numbers in an image and in answers: fates, rules, and the verdict on a sheet.
ghost use Rattle.std.specs.Prelude.{◌≡◌, [], ◌∷◌};
ghost use Rattle.plan.specs.Records.{rule_of};
ghost use Rattle.image.specs.Layout.{fate_from, rule_kind, rule_a, rule_b, rule_c};
ghost use Rattle.image.specs.Calls.{verdict_number, verdict_offset};

use checks::answer::sheet_fault_number;
use plan::answer::Verdict;
use plan::fate::Fate;
use plan::rule::Rule;

// A sheet's number: 0 if it is admitted.
pub fn verdict_number(verdict: Verdict) -> u8
    ensures { result ≡ verdict_number verdict }
{
    match verdict {
        Ok(()) => 0,
        Err(refusal) => sheet_fault_number(refusal.fault) as u8,
    }
}

// The offset of a sheet's fault: 0 if the sheet is admitted.
pub fn verdict_offset(verdict: Verdict) -> usize
    ensures { result ≡ verdict_offset verdict }
{
    match verdict {
        Ok(()) => 0,
        Err(refusal) => refusal.at,
    }
}

// The fate that has this number.
pub(crate) fn fate_from(n: u8) -> Fate
    ensures { result ≡ fate_from n }
{
    match n {
        0 => Fate::Open,
        1 => Fate::Held,
        2 => Fate::Done,
        3 => Fate::Refused,
        4 => Fate::Lapsed,
        _ => Fate::Forced,
    }
}

// The rule that four bytes stand for.
#[tactic(auto, unfolding(plan::specs::Records::rule_of))]
pub(crate) fn rule_from(kind: u8, a: u8, b: u8, c: u8) -> Rule
    ensures { result ≡ rule_of (record { kind = kind; x = a; y = b; z = c; from = 0; until = 0 }) }
{
    match kind {
        2 => Rule::Order(a, b),
        3 => Rule::Need(a, b),
        _ => Rule::Conditional(a, b, c),
    }
}

// A rule's four bytes: its kind and the events that it names, with 0 for a third one that it has not.
pub(crate) fn rule_bytes(rule: Rule) -> [u8; 4]
    ensures { result ≡ rule_kind rule ∷ rule_a rule ∷ rule_b rule ∷ rule_c rule ∷ [] }
{
    match rule {
        Rule::Order(a, b) => [2, a, b, 0],
        Rule::Need(a, b) => [3, a, b, 0],
        Rule::Conditional(a, b, c) => [4, a, b, c],
    }
}
