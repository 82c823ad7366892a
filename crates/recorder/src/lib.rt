// A journal in code: opening it, appending to it, and the record of a call. The definitions are in `journal`.
#![tactic(auto)]

pub mod append;
pub mod open;
pub mod record;
