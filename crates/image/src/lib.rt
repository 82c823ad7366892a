// A state as the 384 bytes that a host keeps (include/sinewhopa.h): which bytes are an image, the state that they stand
// for, the bytes of a state, and calls on an image. The definitions are in specs/.
#![tactic(auto)]

pub mod kept;
mod layout;
pub mod number;
pub mod read;
pub mod test;
pub mod write;
