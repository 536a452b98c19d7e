//! These parts, each with a text of its own at its head: `fills`, `put`.
#![tactic(auto)]

pub mod fills;
pub mod put;
