// What a submit (hand in) would settle, counted by fate, on a state and on a kept one. Only the counts are written. The
// definitions are in specs/.
#![tactic(auto)]

pub mod kept;
pub mod preview;
