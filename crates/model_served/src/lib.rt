//! These parts, each with a text of its own at its head: `served`, `session`.
#![tactic(auto)]

pub mod served;
pub mod session;
