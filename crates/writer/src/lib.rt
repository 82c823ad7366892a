// A state written out as a sheet, into a buffer that the caller lends; for a state and for a kept one. The definitions
// are in specs/.
#![tactic(auto)]

pub mod kept;
mod records;
pub mod write;
