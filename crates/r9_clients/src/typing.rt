//! The record of a session that shows a text in a window that scrolls: its lines, one for each thing that the client says (draw(3),
//! rio(4)).
#![tactic(auto)]

mod opening;
mod pieces;
mod record;

pub use record::{TextFault, text_record};
