// The fates and attributes of the sixteen events as sets.
ghost use Rattle.std.specs.Prelude.{◌≡◌, ◌<◌};
ghost use Rattle.plan.specs.Fates.{Fates, fates_of};
ghost use Rattle.plan.specs.Plans.{event_count};
ghost use Rattle.orders.specs.Runs.{doing};
ghost use Rattle.members.specs.Prelude.{Plan};
ghost use Rattle.members.specs.Sets.{Shows, Tells};

use super::set::{common, first_of, with_if, without};
use checks::event::{is_delayable, is_forcible, is_rejectable};
use checks::fate::{is_gone, is_held, is_open};
use plan::event::Event;
use plan::fate::Standing;

// Sets of events: the declared ones that are held; the declared ones at hand (held, or open and forcible); those that
// are done; those refused or lapsed; the delayable ones; the stoppable ones (not open, or rejectable, or delayable);
// and the forcible ones.
#[derive(Clone, Copy)]
pub struct View {
    pub held: u16,
    pub able: u16,
    pub done: u16,
    pub gone: u16,
    pub waits: u16,
    pub stoppable: u16,
    pub forcible: u16,
}

impl View {
    // The view of a plan's events and their fates. Past the count nothing is held or at hand. The set of all sixteen
    // places is `u16::MAX`.
    pub fn of(events: [Event; 16], count: u8, standings: [Standing; 16]) -> View
        ensures { (p : Plan) → p.events ≡ events → event_count p ≡ count → Shows p (fates_of standings) result }
    {
        let facts = facts_of(events, standings);
        let declared = first_of(count);
        View {
            held: common(facts.held, declared),
            able: common(facts.held | common(facts.comes, facts.forcible), declared),
            done: without(u16::MAX, facts.held | facts.comes | facts.gone),
            gone: facts.gone,
            waits: facts.waits,
            stoppable: without(u16::MAX, facts.comes) | facts.refusable | facts.waits,
            forcible: facts.forcible,
        }
    }

    // The view after the event is done.
    pub fn after(self, event: u8) -> View
        ensures { (p : Plan) (f : Fates) → event < 16 → Shows p f self → Shows p (doing f event) result }
    {
        let one = with_if(0, event, true);
        View {
            held: without(self.held, one),
            able: without(self.able, one),
            done: with_if(self.done, event, true),
            gone: without(self.gone, one),
            stoppable: with_if(self.stoppable, event, true),
            ..self
        }
    }
}

// What single fates and attributes say of the sixteen events: those held, open, and refused or lapsed; the delayable,
// the forcible and the rejectable ones.
#[derive(Clone, Copy)]
struct Facts {
    held: u16,
    comes: u16,
    gone: u16,
    waits: u16,
    forcible: u16,
    refusable: u16,
}

// One pass over the events. An event is read whole: then the compiler reads all sixteen at once, which takes half the
// instructions of `events[e as usize].attributes`.
fn facts_of(events: [Event; 16], standings: [Standing; 16]) -> Facts
    ensures { Tells events standings result }
{
    let mut facts = Facts {
        held: 0,
        comes: 0,
        gone: 0,
        waits: 0,
        forcible: 0,
        refusable: 0,
    };
    for e in 0..16u8 {
        let fate = standings[e as usize].fate;
        let event = events[e as usize];
        facts.held = with_if(facts.held, e, is_held(fate));
        facts.comes = with_if(facts.comes, e, is_open(fate));
        facts.gone = with_if(facts.gone, e, is_gone(fate));
        facts.waits = with_if(facts.waits, e, is_delayable(event.attributes));
        facts.forcible = with_if(facts.forcible, e, is_forcible(event.attributes));
        facts.refusable = with_if(facts.refusable, e, is_rejectable(event.attributes));
    }
    facts
}
