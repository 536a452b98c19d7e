//! These parts, each with a text of its own at its head: `marks`, `steps`.
#![tactic(auto)]

pub mod marks;
pub mod steps;
