//! Reading an input to its end, or up to a limit.
#![tactic(auto)]

mod reading;

pub use reading::{InputFault, read_up_to};
