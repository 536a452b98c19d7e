//! These parts, each with a text of its own at its head: `attend`, `workers`.
#![tactic(auto)]

pub mod attend;
pub mod workers;
