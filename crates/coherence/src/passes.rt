// The tests of coherence, number 12: of single events and rules, the passes over all of them, and the whole. They read
// any parts, also those of a state that a caller made up. A pass does not get the history: its contract covers every
// history consistent with its arguments.
ghost use Rattle.std.specs.Prelude.{Bool, true, not, ◌&&◌, List, ◌≡◌, ℕ, ◌≤◌, take};
ghost use Rattle.plan.specs.Fates.{is_open, is_held, fates_of};
ghost use Rattle.plan.specs.Plans.{holds_bit, event_count, rule_count};
ghost use Rattle.plan.specs.Rules.{bad_step, bad_attributes, named, enforceable, sound_windows};
ghost use Rattle.plan.specs.Histories.{holds};
ghost use Rattle.coherence.specs.Listings.{Placed, place_in, Marked};
ghost use Rattle.coherence.specs.Cohering.{events_cohere, rules_cohere, coheres, awaits, right_as};

use super::listing::list_events;
use checks::event::{are_bad, is_delayable, is_forcible, is_rejectable};
use checks::fate::{is_held, is_open, is_settled};
use checks::rule::{are_named, is_enforceable};
use plan::event::Event;
use plan::fate::{Fate, Standing};
use plan::history::Entry;
use plan::plan::Plan;
use plan::rule::Rule;
use plan::window::Window;

// Are the parts of a state coherent? If they are not, number 12 applies.
pub fn does_cohere(
    plan: Plan,
    standings: [Standing; 16],
    broken: [bool; 16],
    closed: [bool; 8],
    history: [Entry; 16],
    len: u8,
) -> bool
    ensures { result ≡ coheres plan (fates_of standings) broken closed (take len history) len }
{
    if plan.event_count > 16 || plan.rule_count > 16 || len > 16 {
        return false;
    }
    let Some(listing) = list_events(history, len, plan.event_count, standings) else {
        return false;
    };
    are_events_coherent(plan, standings, closed, listing.listed)
        && are_rules_coherent(plan, standings, broken, listing.places)
        && are_windows_sound(plan)
}

// Does every event's place hold no window, or one that a sheet could give the event?
fn are_windows_sound(plan: Plan) -> bool
    ensures { result ≡ sound_windows plan }
{
    for (e, window) in plan.windows.iter().enumerate() {
        if !is_right(
            *window,
            e < plan.event_count as usize,
            plan.events[e].attributes,
        ) {
            return false;
        }
    }
    true
}

// Is there no window, or one that ends after it begins, of a declared event that is delayable?
#[tactic(auto, unfolding(crate::specs::Cohering::right_as))]
fn is_right(window: Window, declared: bool, attributes: u8) -> bool
    ensures { result ≡ right_as declared attributes window }
{
    ((window.from == 0) & (window.until == 0))
        | (declared & is_delayable(attributes) & (window.from < window.until))
}

// Are the declared events coherent with the history and the steps? `listed` says which have a line.
fn are_events_coherent(
    plan: Plan,
    standings: [Standing; 16],
    closed: [bool; 8],
    listed: [bool; 16],
) -> bool
    requires { event_count plan ≤ 16 }
    ensures { (h : List Entry) → Marked h (fates_of standings) listed → result ≡ events_cohere plan (fates_of standings) closed h }
{
    for i in 0..plan.event_count as usize {
        let event = plan.events[i];
        let fate = standings[i].fate;
        if !is_sound(event) {
            return false;
        }
        if (is_settled(fate) & !listed[i])
            | !may_be_held(event, fate)
            | (is_open(fate) & closed[event.step as usize])
        {
            return false;
        }
    }
    true
}

// Could a sheet declare the event?
fn is_sound(event: Event) -> bool
    ensures { result ≡ (not (bad_step event.step) && not (bad_attributes event.attributes)) }
{
    (event.step <= 7) & !are_bad(event.attributes)
}

// A held event is delayable.
fn may_be_held(event: Event, fate: Fate) -> bool
    ensures { result ≡ not (is_held fate && not (holds_bit 4 event.attributes)) }
{
    !is_held(fate) | is_delayable(event.attributes)
}

// Are the declared rules coherent with the events and the history? The events are; `places` says which of them are
// done, and in which order.
fn are_rules_coherent(
    plan: Plan,
    standings: [Standing; 16],
    broken: [bool; 16],
    places: [u8; 16],
) -> bool
    requires { (event_count plan ≤ 16) × (rule_count plan ≤ 16) }
    ensures { (closed : List Bool) (h : List Entry) → Placed h (place_in places) → events_cohere plan (fates_of standings) closed h ≡ true → result ≡ rules_cohere plan (fates_of standings) broken h }
{
    for i in 0..plan.rule_count as usize {
        let rule = plan.rules[i].rule;
        if !is_admitted(plan.event_count, plan.events, rule) {
            return false;
        }
        if !(broken[i]
            | (does_hold(places, rule) & !does_await(plan.events, standings, places, rule)))
        {
            return false;
        }
    }
    true
}

// Could a sheet with these events declare the rule?
fn is_admitted(count: u8, events: [Event; 16], rule: Rule) -> bool
    ensures { (p : Plan) → p.events ≡ events → result ≡ (named count rule && enforceable p rule) }
{
    are_named(count, rule) & is_enforceable(events, rule)
}

// Does the rule hold? Its events have places: 0 for one that is not done, else a number in the order of the history.
#[tactic(auto, unfolding(plan::specs::Rules::named))]
fn does_hold(places: [u8; 16], rule: Rule) -> bool
    requires { (n : ℕ) × (n ≤ 16) × (named n rule ≡ true) }
    ensures { (h : List Entry) → Placed h (place_in places) → result ≡ holds h rule }
{
    match rule {
        Rule::Order(a, b) => {
            !((0 < places[b as usize]) & (places[b as usize] < places[a as usize]))
        }
        Rule::Need(a, b) => !((0 < places[a as usize]) & !(0 < places[b as usize])),
        Rule::Conditional(a, b, c) => {
            !((0 < places[a as usize]) & (0 < places[b as usize]) & !(0 < places[c as usize]))
        }
    }
}

// Does a conditional owe because nothing can stop one of its triggers, which is open, while the other is done (6.10)?
#[tactic(auto, unfolding(plan::specs::Rules::named))]
fn does_await(events: [Event; 16], standings: [Standing; 16], places: [u8; 16], rule: Rule) -> bool
    requires { (n : ℕ) × (n ≤ 16) × (named n rule ≡ true) }
    ensures { (p : Plan) (h : List Entry) → p.events ≡ events → Placed h (place_in places) → result ≡ awaits p (fates_of standings) h rule }
{
    let Rule::Conditional(a, b, c) = rule else {
        return false;
    };
    let (a, b, c) = (a as usize, b as usize, c as usize);
    (((0 < places[a]) & is_unstoppable(events[b], standings[b].fate))
        | ((0 < places[b]) & is_unstoppable(events[a], standings[a].fate)))
        & !is_forcible(events[c].attributes)
        & !is_settled(standings[c].fate)
}

// Is the event open, and neither rejectable nor delayable?
fn is_unstoppable(event: Event, fate: Fate) -> bool
    ensures { result ≡ (is_open fate && not (holds_bit 2 event.attributes) && not (holds_bit 4 event.attributes)) }
{
    is_open(fate) & !is_rejectable(event.attributes) & !is_delayable(event.attributes)
}
