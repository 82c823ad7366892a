// Types alone: what a sheet declares, rules, the fates of events, and the formats of sheets and calls. The definitions
// are in specs/, the functions in `checks`.
#![tactic(auto)]

pub mod answer;
pub mod calls;
pub mod event;
pub mod fate;
pub mod history;
pub mod plan;
pub mod record;
pub mod rule;
pub mod window;
