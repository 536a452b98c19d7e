//! Reading the input of a desk: events of the mouse, one after the other.
#![tactic(auto)]

mod events;
mod input;

pub use events::Events;
pub use input::{DeskFault, read_events};
