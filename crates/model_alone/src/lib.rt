//! These parts, each with a text of its own at its head: `alone`, `used`.
#![tactic(auto)]

pub mod alone;
pub mod used;
