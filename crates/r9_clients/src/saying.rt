//! What a client says to a server, as the lines of a record whose session 1 it is (intro(5)).
#![tactic(auto)]

mod lines;
mod opening;

pub use lines::{are_bytes, push_said, push_write};
pub use opening::{begin, push_attach, push_hello, push_opens, way_to_data, way_to_new};
