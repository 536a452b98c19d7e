//! These parts, each with a text of its own at its head: `looked`, `used`.
#![tactic(auto)]

pub mod looked;
pub mod used;
