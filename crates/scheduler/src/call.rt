// The calls: submit (hand in), close a step, finish (wind up), advance (move the minute). Each takes the state and
// gives the answer and the state after it. A call that is turned down gives the state back as it came in.
ghost use Rattle.std.specs.Prelude.{◌≡◌};
ghost use Rattle.scheduler.specs.Prelude.{Submit, Close, Finish, Advance};
ghost use Rattle.plan.specs.Base.{any_below};
ghost use Rattle.plan.specs.Fates.{is_held};
ghost use Rattle.plan.specs.Plans.{event_count};
ghost use Rattle.scheduler.specs.State.{fate_of, shut, with_course};
ghost use Rattle.scheduler.specs.Calls.{do_alone, decide, submit, lapse, close_step, refuse_held, finish, advance_to};
ghost use Rattle.scheduler.specs.Answers.{unclosed_at, turns_down, idle, accept, turned_down_by, take_call, call};

use super::reply::Reply;
use super::state::{Course, State};
use checks::fate::{is_held, is_open};
use checks::plans::has_event;
use members::set::lowest_of;
use plan::answer::{Answer, CallFault};
use plan::calls::Call;
use plan::fate::Fate;

impl State {
    // Submits an event. The answer is the fate that the event then has.
    pub fn submit(self, event: u8) -> Reply
        ensures { result ≡ call self (Submit event) }
    {
        if !self.is_coherent() {
            return self.turn_down(CallFault::Incoherent);
        }
        self.take_submit(event)
    }

    // Closes a step.
    pub fn close_step(self, step: u8) -> Reply
        ensures { result ≡ call self (Close step) }
    {
        if !self.is_coherent() {
            return self.turn_down(CallFault::Incoherent);
        }
        self.take_close(step)
    }

    // Finishes: settles, and then refuses what is still held.
    pub fn finish(self) -> Reply
        ensures { result ≡ call self Finish }
    {
        if !self.is_coherent() {
            return self.turn_down(CallFault::Incoherent);
        }
        if self.has_unclosed() {
            return self.turn_down(CallFault::NotClosed);
        }
        let mut state = self;
        state.make_finish();
        Reply {
            answer: Answer::Made,
            state,
        }
    }

    // Advances to a minute: the current one or a later one.
    pub fn advance(self, minute: u32) -> Reply
        ensures { result ≡ call self (Advance minute) }
    {
        if !self.is_coherent() {
            return self.turn_down(CallFault::Incoherent);
        }
        if minute < self.minute {
            return self.turn_down(CallFault::Backward);
        }
        let mut state = self;
        state.make_advance(minute);
        Reply {
            answer: Answer::Made,
            state,
        }
    }

    // Makes any call.
    pub fn call(self, made: Call) -> Reply
        ensures { result ≡ call self made }
    {
        match made {
            Call::Submit(event) => self.submit(event),
            Call::Close(step) => self.close_step(step),
            Call::Finish => self.finish(),
            Call::Advance(minute) => self.advance(minute),
        }
    }

    // Submits an event without the coherence test, number 12; the caller has made it. For an event that is not open the
    // state is handed back and not copied.
    pub fn take_submit(self, event: u8) -> Reply
        ensures { result ≡ take_call self (Submit event) }
    {
        if self.plan.event_count <= event {
            return self.turn_down(CallFault::Unknown);
        }
        let fate = self.fate(event);
        if !is_open(fate) {
            return Reply {
                answer: Answer::Is(fate),
                state: self,
            };
        }
        let mut state = self;
        state.make_submit(event);
        Reply {
            answer: Answer::Is(state.fate(event)),
            state,
        }
    }

    // Closes a step without the coherence test; the caller has made it.
    pub fn take_close(self, step: u8) -> Reply
        ensures { result ≡ take_call self (Close step) }
    {
        if !has_event(self.plan.events, self.plan.event_count, step) {
            return self.turn_down(CallFault::Unknown);
        }
        if self.is_closed(step) {
            return self.turn_down(CallFault::AlreadyClosed);
        }
        let mut state = self;
        state.make_close(step);
        Reply {
            answer: Answer::Made,
            state,
        }
    }

    // Is the call turned down, if the state is coherent? A list needs only this and `after_call`: a sheet's first state
    // is coherent, and every call preserves coherence, so number 12 is not tested call by call.
    pub fn turns_down(&self, made: Call) -> bool
        ensures { result ≡ turns_down self.now made }
    {
        match made {
            Call::Submit(event) => self.plan.event_count <= event,
            Call::Close(step) => {
                !has_event(self.plan.events, self.plan.event_count, step) || self.is_closed(step)
            }
            Call::Finish => self.has_unclosed(),
            Call::Advance(minute) => minute < self.minute,
        }
    }

    // Would the call, if it is accepted, leave the state as it is? Then a list need not make it.
    pub fn is_idle(&self, made: Call) -> bool
        ensures { result ≡ idle self.now made }
    {
        match made {
            Call::Submit(event) => !is_open(self.fate(event)),
            Call::Finish => !self.has_held(),
            Call::Close(_) | Call::Advance(_) => false,
        }
    }

    // What an accepted call leaves of the state: all but the plan, which no call changes.
    pub fn after_call(self, made: Call) -> Course
        ensures { with_course self result ≡ (accept self made).state }
    {
        let mut state = self;
        match made {
            Call::Submit(event) => state.make_submit(event),
            Call::Close(step) => state.make_close(step),
            Call::Finish => state.make_finish(),
            Call::Advance(minute) => state.make_advance(minute),
        }
        state.course()
    }

    // Makes an accepted submit. If the event is not open, nothing changes. Else it is held; one that cannot wait is
    // decided at once.
    fn make_submit(&mut self, event: u8)
        ensures { self.new ≡ submit self.old event }
    {
        if !is_open(self.fate(event)) {
            return;
        }
        self.hold(event);
        if !self.can_wait(event) {
            self.decide(event);
        }
        self.settle();
    }

    // Makes an accepted closing.
    fn make_close(&mut self, step: u8)
        ensures { self.new ≡ close_step self.old step }
    {
        self.shut(step);
        self.lapse_step(step);
        self.settle();
    }

    // Makes an accepted finish.
    fn make_finish(&mut self)
        ensures { self.new ≡ finish self.old }
    {
        self.settle();
        self.refuse_held();
    }

    // Makes an accepted advance.
    fn make_advance(&mut self, minute: u32)
        ensures { self.new ≡ advance_to self.old minute }
    {
        self.minute = minute;
        self.settle();
    }

    // Decides a held event that cannot wait: its chosen order is run; else the event is refused if it can be; else it
    // is done alone.
    fn decide(&mut self, event: u8)
        ensures { self.new ≡ decide self.old event }
    {
        if let Some(found) = self.find_order(event) {
            self.do_order(found);
        } else if self.can_refuse(event) {
            self.settle_as(Fate::Refused, event);
        } else {
            self.do_alone(event);
        }
    }

    // Does the event by itself. Each standing rule that forbids it, or that owes right after it, is recorded as broken.
    fn do_alone(&mut self, event: u8)
        ensures { self.new ≡ do_alone self.old event }
    {
        let ground = self.ground();
        self.settle_as(Fate::Done, event);
        let after = self.view();
        for i in 0..ground.count {
            if let Some(rule) = ground.standing(i) {
                if ground.view.does_forbid(rule, event) || after.does_owe(rule) {
                    self.break_rule(i);
                }
            }
        }
    }

    // The open events of the step lapse, the lowest first.
    fn lapse_step(&mut self, step: u8)
        ensures { self.new ≡ lapse (event_count self.old.plan) 0 self.old step }
    {
        for e in 0..self.plan.event_count {
            if is_open(self.fate(e)) && self.step(e) == step {
                self.settle_as(Fate::Lapsed, e);
            }
        }
    }

    // Refuses the lowest held event and settles, as long as any event is held. Each turn settles an event, and there
    // are at most 16.
    fn refuse_held(&mut self)
        ensures { self.new ≡ refuse_held 16 self.old }
    {
        for _turn in 0..16u8 {
            let Some(lowest) = lowest_of(self.view().held) else {
                return;
            };
            self.settle_as(Fate::Refused, lowest);
            self.settle();
        }
    }

    // Is there a step that has an event and is not closed?
    fn has_unclosed(&self) -> bool
        ensures { result ≡ any_below 8 (unclosed_at self.now) }
    {
        for e in 0..self.plan.event_count {
            let step = self.step(e);
            if step < 8 && !self.is_closed(step) {
                return true;
            }
        }
        false
    }

    // Is an event held?
    pub(crate) fn has_held(&self) -> bool
        ensures { result ≡ any_below (event_count self.now.plan) (λ e. is_held (fate_of self.now e)) }
    {
        for e in 0..self.plan.event_count {
            if is_held(self.fate(e)) {
                return true;
            }
        }
        false
    }

    // A call that is turned down gives the state back as it came in.
    fn turn_down(self, fault: CallFault) -> Reply
        ensures { result ≡ turned_down_by fault self }
    {
        Reply {
            answer: Answer::TurnedDown(fault),
            state: self,
        }
    }
}
