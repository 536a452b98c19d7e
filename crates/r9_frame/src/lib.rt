//! A stream of bytes cut into messages of 9P2000 (intro(5)), however it comes in pieces.
#![tactic(auto)]

mod framer;
mod next;

pub use framer::Framer;
pub use next::Next;
