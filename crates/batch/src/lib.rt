// Submits (hand-ins) and closings that are made together: a list of entries is lent, and each gets its answer. The
// definitions are in specs/.
#![tactic(auto)]

pub mod batch;
pub mod entry;
pub mod kept;
