//! What the messages of a write to the draw device (draw(3)) used by which a session could notice another one, read from the write's bytes
//! after it.
#![tactic(auto)]

mod again;
mod first;
mod listed;
mod naming;
mod plain;

pub use again::look_again;
