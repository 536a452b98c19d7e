//! The draw messages with which a client shows a text in a window that scrolls, as bytes (draw(3)).
#![tactic(auto)]

mod made;
mod moves;
mod shape;

pub use made::making;
pub use moves::moves_bytes;
pub use shape::Shape;
