// An entry of a batch, and its turn: the single call that it asks for, with the answer written into it.
ghost use Rattle.std.specs.Prelude.{◌≡◌};
ghost use Rattle.batch.specs.Batch.{carrying, carries};
ghost use Rattle.batch.specs.Internal.Turns.{turn, turned};

use checks::answer::{answer_fate, answer_number};
use checks::fate::fate_number;
use plan::answer::{Answer, SheetFault};
use plan::calls::{CLOSE, SUBMIT};
use scheduler::state::State;

// A submit (hand in, kind 16) or a closing (kind 17) with its number, and its answer: the number that turned it down,
// or 0, and the fate of an event that was submitted (9.11, 9.13).
#[repr(C)]
#[derive(Clone, Copy)]
pub struct BatchEntry {
    pub kind: u8,
    pub number: u8,
    pub refused: u8,
    pub fate: u8,
}

impl BatchEntry {
    // The entry's turn on a state, and the state after it. The batch has made the coherence test, number 12, and every
    // call preserves coherence, so the turns do not test it again.
    pub(crate) fn take_turn(&mut self, state: State) -> State
        ensures state { result ≡ turn state self.old }
        ensures entry { self.new ≡ turned state self.old }
    {
        let reply = match self.kind {
            SUBMIT => state.take_submit(self.number),
            CLOSE => state.take_close(self.number),
            _ => {
                self.refused = SheetFault::BadKind as u8;
                self.fate = 0;
                return state;
            }
        };
        self.carry(reply.answer);
        reply.state
    }

    // Writes its call's answer into the entry; its kind and number stay.
    fn carry(&mut self, answer: Answer)
        ensures { self.new ≡ carries self.old answer }
    {
        self.refused = answer_number(answer) as u8;
        self.fate = answer_fate(answer).map_or(0, fate_number);
    }
}
