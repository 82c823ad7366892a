// The state of a plan under way: its writers, the chosen order, settling, the calls and the coherence test, number 12.
// The definitions are in specs/; those that only private functions need are in specs/Internal/.
#![tactic(auto)]

mod call;
mod coherent;
pub mod order;
pub mod reply;
mod settle;
pub mod state;
