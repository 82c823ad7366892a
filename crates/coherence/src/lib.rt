// Whether the parts of a state are coherent: the test of number 12. It makes one pass over the history, one over the
// events and one over the rules. The definitions are in specs/.
#![tactic(auto)]

mod listing;
pub mod passes;
