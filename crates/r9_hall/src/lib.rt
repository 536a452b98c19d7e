//! These parts, each with a text of its own at its head: `hall`, `seen`, `shared`.
#![tactic(auto)]

pub mod hall;
pub mod seen;
pub mod shared;
