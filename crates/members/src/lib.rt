// The events that have to be done together with one, and those that may not come next. A set is the bits of a number,
// and each question takes one pass over the rules. What the contracts cite is in specs/ here and in `orders`.
#![tactic(auto)]

pub mod blocked;
pub mod closed;
pub mod ground;
pub mod lacking;
pub mod rule;
pub mod set;
pub mod times;
pub mod view;
