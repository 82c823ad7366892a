// What opening a journal gives.
use plan::answer::Refusal;
use scheduler::state::State;

// A journal that opens: where its last whole record ends, and how many bytes are left over behind that.
#[derive(Clone, Copy)]
pub struct Opened {
    pub end: usize,
    pub left: usize,
}

// Why a journal does not open: a bad record at an offset, number 17; or its sheet is turned down.
#[derive(Clone, Copy)]
pub enum JournalFault {
    Broken { at: usize },
    Unread(Refusal),
}

// The verdict, with the state after the whole records, before the bad one, or the empty state.
#[derive(Clone, Copy)]
pub struct Journal {
    pub verdict: Result<Opened, JournalFault>,
    pub state: State,
}
