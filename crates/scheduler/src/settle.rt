// Settling.
ghost use Rattle.std.specs.Prelude.{◌≡◌};
ghost use Rattle.members.specs.Sets.{in_set};
ghost use Rattle.scheduler.specs.Prelude.{State};
ghost use Rattle.scheduler.specs.Orders.{found_order};
ghost use Rattle.scheduler.specs.Calls.{to_refuse, to_do, settle};
ghost use Rattle.scheduler.specs.Internal.GroundOf.{GroundOf};
ghost use Rattle.scheduler.specs.Internal.Hopeful.{Hopeful};
ghost use Rattle.scheduler.specs.Internal.Timing.{Timing};

use super::order::Found;
use super::state::State;
use members::ground::Ground;
use members::set::{common, first_of, is_in, lowest_of, with_if, without};
use members::times::Times;
use plan::fate::Fate;

impl State {
    // Settles the state: takes turns until none is possible. Each turn settles an event, and there are at most 16. Where
    // no event is held there is no turn, and then no view is made.
    pub(crate) fn settle(&mut self)
        ensures { self.new ≡ settle self.old }
    {
        if !self.has_held() {
            return;
        }
        let times = self.times();
        for _turn in 0..16u8 {
            let ground = self.ground();
            if ground.view.held == 0 {
                return;
            }
            if let Some(barred) = find_barred(&ground, times) {
                self.settle_as(Fate::Refused, barred);
            } else if let Some(found) = self.find_held(&ground, times) {
                self.do_order(found);
            } else {
                return;
            }
        }
    }

    // The chosen order of the lowest held event that has one. An event that has none is in no order for another, so it
    // does not count as able for the rest of this turn. (The searches read the state by reference: with a copy for each
    // of them a ring of sixteen needs took 1.2 times as long.)
    fn find_held(&self, ground: &Ground, times: Times) -> Option<Found>
        requires grounds { GroundOf self.now ground.now }
        requires timed { Timing self.now times }
        ensures { result ≡ found_order self.now (to_do self.now) }
    {
        let mut able = self.find_hopeful(ground, times);
        for e in 0..self.plan.event_count {
            if is_in(common(ground.view.held, able), e) {
                if let Some(found) = self.find_within(ground, able, e) {
                    return Some(found);
                }
                able = without(able, with_if(0, e, true));
            }
        }
        None
    }

    // The events at hand that are worth a search. If several events are held, and some event is neither settled nor at
    // hand, one pass over the rules drops events that are not worth one.
    fn find_hopeful(&self, ground: &Ground, times: Times) -> u16
        requires grounds { GroundOf self.now ground.now }
        requires timed { Timing self.now times }
        ensures { Hopeful self.now (in_set result) }
    {
        let view = ground.view;
        let able = common(view.able, times.timely);
        let events = first_of(self.plan.event_count);
        let missing = without(events, able | view.done | view.gone);
        if view.held.is_power_of_two() || missing == 0 {
            return able;
        }
        ground.spare(able)
    }
}

// The lowest held event that is barred. No rule bars anything if nothing is done, refused or lapsed, and no window does
// if none is over.
fn find_barred(ground: &Ground, times: Times) -> Option<u8>
    ensures { (s : State) → GroundOf s ground.now → Timing s times → result ≡ to_refuse s }
{
    let view = ground.view;
    if view.done == 0 && view.gone == 0 && times.late == 0 {
        return None;
    }
    lowest_of(common(view.held, ground.blocked(0) | times.late))
}
