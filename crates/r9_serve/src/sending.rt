//! The frame that a mirror sends of the display: which cells of it, and their text.
#![tactic(auto)]

mod cells;
mod frame;

pub use cells::Sending;
pub use frame::entry_text;
