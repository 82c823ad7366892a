// Calls as data, and their records: 16 and an event, 17 and a step, 18, or 19 and a minute.

// The kind byte that a call's record begins with.
pub const SUBMIT: u8 = 16;

pub const CLOSE: u8 = 17;

pub const FINISH: u8 = 18;

pub const ADVANCE: u8 = 19;

// Submit (hand in) an event, close a step, finish (wind up), advance to a minute.
#[derive(Clone, Copy)]
pub enum Call {
    Submit(u8),
    Close(u8),
    Finish,
    Advance(u32),
}

// What bytes of calls hold at an offset: a call's record, their end, or a record that is cut or of another kind.
#[derive(Clone, Copy)]
pub enum CallRead {
    Listed(Call),
    End,
    Bad,
}
