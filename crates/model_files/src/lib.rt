//! These parts, each with a text of its own at its head: `console`, `frame`, `mouse`, `tree`, `wctl`, `wire`.
#![tactic(auto)]

pub mod console;
pub mod frame;
pub mod mouse;
pub mod tree;
pub mod wctl;
pub mod wire;
