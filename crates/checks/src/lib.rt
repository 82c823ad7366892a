// Tests of single events, fates, rules and windows, the numbers of faults and answers, and the reading of call records.
#![tactic(auto)]

pub mod answer;
pub mod bytes;
pub mod calls;
pub mod event;
pub mod fate;
pub mod history;
pub mod plans;
pub mod rule;
pub mod window;
