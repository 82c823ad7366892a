// What appending a call to a journal answers.
ghost use Rattle.std.specs.Prelude.{◌≡◌};
ghost use Rattle.journal.specs.declared.append.AppendFault.TheVariants.{Unopened};

use super::open::JournalFault;
use plan::answer::CallFault;

// An appended record: its offset, and the journal's new length.
#[derive(Clone, Copy)]
pub struct Appended {
    pub at: usize,
    pub len: usize,
}

// Why nothing is appended, in the order of the tests. TooLong, number 14: the stated length is above the buffer's.
// Unopened: the journal does not open. TurnedDown: the call's fault. NoRoom, number 14. The last two carry where the
// last whole record ends.
#[derive(Clone, Copy)]
pub enum AppendFault {
    TooLong,
    Unopened(JournalFault),
    TurnedDown { fault: CallFault, end: usize },
    NoRoom { end: usize },
}

impl From<JournalFault> for AppendFault {
    ghost from_gives = { λ fault why. why ≡ Unopened fault };

    fn from(fault: JournalFault) -> AppendFault {
        AppendFault::Unopened(fault)
    }
}

// What appending answers a host: the number, the journal's length after it, and an offset.
#[derive(Clone, Copy)]
pub struct AppendReply {
    pub number: u8,
    pub len: usize,
    pub at: usize,
}
