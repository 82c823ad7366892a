// Why a sheet or a call is turned down, and what it answers.
ghost use Rattle.std.specs.Prelude.{◌≡◌};
ghost use Rattle.plan.specs.Faults.{sheet_fault_number, call_fault_number, answer_number, answer_fate};

use plan::answer::{Answer, CallFault, SheetFault};
use plan::fate::Fate;

// The number of a sheet's fault (4.2).
pub fn sheet_fault_number(fault: SheetFault) -> usize
    ensures { result ≡ sheet_fault_number fault }
{
    fault as usize
}

pub fn call_fault_number(fault: CallFault) -> usize
    ensures { result ≡ call_fault_number fault }
{
    fault as usize
}

// An answer's number: that of the fault if the call is turned down, 0 if it is accepted.
pub fn answer_number(answer: Answer) -> usize
    ensures { result ≡ answer_number answer }
{
    match answer {
        Answer::Is(_) | Answer::Made => 0,
        Answer::TurnedDown(fault) => call_fault_number(fault),
    }
}

// An answer's fate.
pub fn answer_fate(answer: Answer) -> Option<Fate>
    ensures { result ≡ answer_fate answer }
{
    match answer {
        Answer::Is(fate) => Some(fate),
        Answer::Made | Answer::TurnedDown(_) => None,
    }
}
