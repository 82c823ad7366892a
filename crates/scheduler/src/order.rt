// The chosen order for an event. The events that have to be done with it are found first. The order then always takes
// the lowest of them that may come next, so nothing is tried twice (7.10, 7.11).
ghost use Rattle.std.specs.Prelude.{◌≡◌, ◌+◌, ◌≤◌, take};
ghost use Rattle.members.specs.Sets.{in_set, Shows};
ghost use Rattle.orders.specs.Stepwise.{stepwise};
ghost use Rattle.scheduler.specs.State.{fate_of};
ghost use Rattle.scheduler.specs.Rules.{stands};
ghost use Rattle.scheduler.specs.Orders.{chosen, found_order};
ghost use Rattle.scheduler.specs.Internal.GroundOf.{GroundOf};
ghost use Rattle.scheduler.specs.Internal.Hopeful.{Hopeful};
ghost use Rattle.scheduler.specs.Internal.Marked.{settle_all};
ghost use Rattle.scheduler.specs.Internal.Placed.{blank_order, found_from};
ghost use Rattle.scheduler.specs.Internal.Timing.{Timing};

use super::state::State;
use checks::fate::{done_as, is_open};
use members::ground::Ground;
use members::set::{common, lowest_of, with_if, without};
use members::times::Times;
use members::view::View;

// A place of an order: its event, and whether that was open when its turn came.
#[derive(Clone, Copy)]
pub struct Place {
    pub event: u8,
    pub opened: bool,
}

// An order: its places from the front, blank ones (event zero, not open) after them, and its length.
#[derive(Clone, Copy)]
pub struct Found {
    pub places: [Place; 6],
    pub len: u8,
}

impl State {
    // The chosen order for the event (7.5).
    pub fn find_order(self, event: u8) -> Option<Found>
        ensures { result ≡ found_order self (chosen self event) }
    {
        let ground = self.ground();
        let able = common(ground.view.able, self.times().timely);
        self.find_within(&ground, able, event)
    }

    // The chosen order for the event, where no event but these has one: the order of the least closed set (7.11). A
    // search that looked at orders of held events first would find the same (7.9, `held_first_lem`), so nothing is
    // looked at twice.
    pub(crate) fn find_within(&self, ground: &Ground, able: u16, event: u8) -> Option<Found>
        requires grounds { GroundOf self.now ground.now }
        requires hopes { Hopeful self.now (in_set able) }
        ensures { result ≡ found_order self.now (chosen self.now event) }
    {
        let members = ground.close(able, event)?;
        search(self, ground, members.set, 0, 6)
    }

    // Does the events of an order one after another, at most six: each is forced if it was open when the search came to
    // it, else done.
    pub(crate) fn do_order(&mut self, found: Found)
        ensures { self.new ≡ settle_all self.old (take found.len found.places) }
    {
        for place in &found.places[..found.len.min(6) as usize] {
            self.settle_as(done_as(place.opened), place.event);
        }
    }

    // The events that are in time, and those whose window is over. Both stay the same through a whole call.
    pub(crate) fn times(&self) -> Times
        ensures { Timing self.now result }
    {
        Times::of(self.plan.windows, self.minute)
    }

    // The state's events as sets.
    pub(crate) fn view(&self) -> View
        ensures { Shows self.now.plan (fate_of self.now) result }
    {
        View::of(self.plan.events, self.plan.event_count, self.standings)
    }

    // What a search asks of the state again and again.
    pub(crate) fn ground(&self) -> Ground
        ensures { GroundOf self.now result }
    {
        let rules = self.plan.rules;
        let broken = self.broken;
        Ground {
            rules,
            broken,
            count: self.plan.rule_count,
            view: self.view(),
        }
    }
}

// Puts the events that are left in order: always the lowest that no other of them has to come before. There is no order
// if there is no such event, or no place for it. The search goes on from an order of `at` events: its own stand at `at`
// and after, and the length counts both. The ground is the state's. After the last event the search does not call
// itself.
fn search(s: &State, ground: &Ground, left: u16, at: u8, places: u8) -> Option<Found>
    requires fits { at + places ≤ 6 }
    requires grounds { GroundOf s.now ground.now }
    ensures { result ≡ found_from s.now at (stepwise s.now.plan (stands s.now) places (fate_of s.now) (in_set left)) }
{
    if lowest_of(left).is_none() {
        return Some(blank_order(at));
    }
    if places == 0 {
        return None;
    }
    let x = lowest_of(without(left, ground.blocked(left)))?;
    let opened = is_open(s.fate(x));
    let rest = without(left, with_if(0, x, true));
    let mut found = blank_order(at + 1);
    if lowest_of(rest).is_some() {
        let mut next = *s;
        next.settle_as(done_as(opened), x);
        found = search(&next, &ground.after(x), rest, at + 1, places - 1)?;
    }
    found.places[at as usize] = Place { event: x, opened };
    Some(found)
}

// No event placed yet.
fn blank_order(len: u8) -> Found
    ensures { result ≡ blank_order len }
{
    let blank = Place {
        event: 0,
        opened: false,
    };
    Found {
        places: [blank; 6],
        len,
    }
}
