// Reading a sheet (docs/SPECIFICATION.md, sections 3 and 4).
#![tactic(auto)]

mod declare;
mod fault;
pub mod kind;
pub mod read;
mod reader;
mod record;
