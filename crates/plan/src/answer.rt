// Why a sheet or a call is turned down, and what it answers.
use super::fate::Fate;

// Why a sheet is turned down, with its number.
#[derive(Clone, Copy)]
pub enum SheetFault {
    Cut = 1,
    BadKind,
    Full,
    BadStep,
    BadAttributes,
    BadNames,
    Unenforceable,
    Extra,
    BadWindow = 15,
}

// Why a call is turned down, with its number; 13 is for a batch, and 14 for a lent buffer.
#[derive(Clone, Copy)]
pub enum CallFault {
    Unknown = 9,
    AlreadyClosed,
    NotClosed,
    Incoherent,
    TooLong,
    NoRoom,
    Backward = 16,
}

// What a call answers: a submit (hand in) the event's fate, any other call that it was made.
#[derive(Clone, Copy)]
pub enum Answer {
    Is(Fate),
    Made,
    TurnedDown(CallFault),
}

// Why a sheet is turned down, and the offset of the fault.
#[derive(Clone, Copy)]
pub struct Refusal {
    pub fault: SheetFault,
    pub at: usize,
}

// What reading a sheet gives: it is admitted, or turned down.
pub type Verdict = Result<(), Refusal>;
