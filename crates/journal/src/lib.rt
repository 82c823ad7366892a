// The types of journals: what opening one, appending to it and recording a call answer, with the conversions of their
// errors. The definitions are in specs/, the functions in `recorder`.
#![tactic(auto)]

pub mod append;
pub mod open;
pub mod record;
