//! What fills the points that a window uncovers, and pixels that are gathered before a window goes or moves.
#![tactic(auto)]

mod converting;
mod gathered;
mod reaching;

pub use converting::convert;
pub use gathered::{Content, Gathered, Picture};
pub use reaching::{Columns, columns_in, reached, strip};
