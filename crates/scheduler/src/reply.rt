// What reading a sheet, a call and a list of calls give.
use super::state::State;
use plan::answer::{Answer, Verdict};

// A sheet that is turned down gives the empty state.
#[derive(Clone, Copy)]
pub struct Reading {
    pub verdict: Verdict,
    pub state: State,
}

// What a call gives: its answer, and the state after it.
#[derive(Clone, Copy)]
pub struct Reply {
    pub answer: Answer,
    pub state: State,
}

// What running a list of calls on a sheet gives: the sheet's verdict, the state after the list, and how many calls were
// turned down.
#[derive(Clone, Copy)]
pub struct Outcome {
    pub verdict: Verdict,
    pub state: State,
    pub refused: usize,
}
