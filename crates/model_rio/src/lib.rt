//! These parts, each with a text of its own at its head: `rio`, `window`.
#![tactic(auto)]

pub mod rio;
pub mod window;
