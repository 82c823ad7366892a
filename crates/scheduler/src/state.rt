// The state of a plan under way: how its parts are read, and its writers.
ghost use Rattle.std.specs.Prelude.{◌≡◌};
ghost use Rattle.plan.specs.Plans.{step_of, delayable, rejectable};
ghost use Rattle.scheduler.specs.State.{fate_of, closed_at, hold, settle_as, break_rule, shut, course_of, with_course};

use checks::event::{is_delayable, is_rejectable};
use plan::fate::{Fate, Standing};
use plan::history::Entry;
use plan::plan::Plan;

// A plan and what has happened (5.4).
#[derive(Clone, Copy)]
pub struct State {
    pub plan: Plan,
    pub standings: [Standing; 16],
    pub broken: [bool; 16],
    pub closed: [bool; 8],
    pub history: [Entry; 16],
    pub history_len: u8,
    pub minute: u32,
}

// The part of a state that calls change: all but the plan. Calls give this, so that no plan is copied for each.
#[derive(Clone, Copy)]
pub struct Course {
    pub standings: [Standing; 16],
    pub broken: [bool; 16],
    pub closed: [bool; 8],
    pub history: [Entry; 16],
    pub history_len: u8,
    pub minute: u32,
}

impl State {
    // The same plan, with another such part.
    pub fn with_course(self, course: Course) -> State
        ensures { result ≡ with_course self course }
    {
        let Course {
            standings,
            broken,
            closed,
            history,
            history_len,
            minute,
        } = course;
        State {
            standings,
            broken,
            closed,
            history,
            history_len,
            minute,
            ..self
        }
    }

    // The part of the state that calls change.
    pub(crate) fn course(&self) -> Course
        ensures { result ≡ course_of self.now }
    {
        let State {
            standings,
            broken,
            closed,
            history,
            history_len,
            minute,
            ..
        } = *self;
        Course {
            standings,
            broken,
            closed,
            history,
            history_len,
            minute,
        }
    }

    // The event's fate. Past the 16 places an event is open.
    pub(crate) fn fate(&self, event: u8) -> Fate
        ensures { result ≡ fate_of self.now event }
    {
        if event < 16 {
            self.standings[event as usize].fate
        } else {
            Fate::Open
        }
    }

    // The event's step. Past the 16 places an event is of step 0.
    pub(crate) fn step(&self, event: u8) -> u8
        ensures { result ≡ step_of self.now.plan event }
    {
        if event < 16 {
            self.plan.events[event as usize].step
        } else {
            0
        }
    }

    // Can the event wait?
    pub(crate) fn can_wait(&self, event: u8) -> bool
        ensures { result ≡ delayable self.now.plan event }
    {
        event < 16 && is_delayable(self.plan.events[event as usize].attributes)
    }

    // Can the event be refused?
    pub(crate) fn can_refuse(&self, event: u8) -> bool
        ensures { result ≡ rejectable self.now.plan event }
    {
        event < 16 && is_rejectable(self.plan.events[event as usize].attributes)
    }

    // Is the step closed?
    pub(crate) fn is_closed(&self, step: u8) -> bool
        ensures { result ≡ closed_at self.now step }
    {
        step < 8 && self.closed[step as usize]
    }

    // An event becomes held.
    pub(crate) fn hold(&mut self, event: u8)
        ensures { self.new ≡ hold self.old event }
    {
        if event < 16 {
            self.standings[event as usize] = Standing { fate: Fate::Held };
        }
    }

    // An event is settled: its fate is written and its line added to the history.
    pub(crate) fn settle_as(&mut self, fate: Fate, event: u8)
        ensures { self.new ≡ settle_as fate self.old event }
    {
        let len = self.history_len;
        if event < 16 {
            self.standings[event as usize] = Standing { fate };
        }
        if len < 16 {
            self.history[len as usize] = Entry { event, fate };
            self.history_len = len + 1;
        }
    }

    // A step is closed.
    pub(crate) fn shut(&mut self, step: u8)
        ensures { self.new ≡ shut self.old step }
    {
        if step < 8 {
            self.closed[step as usize] = true;
        }
    }

    // A rule is recorded as broken.
    pub(crate) fn break_rule(&mut self, rule: u8)
        ensures { self.new ≡ break_rule self.old rule }
    {
        if rule < 16 {
            self.broken[rule as usize] = true;
        }
    }
}
