// A list of calls, run on a sheet: a runner's list, and one of calls of every kind.
#![tactic(auto)]

mod list;
pub mod replay;
pub mod run;
