//! These parts, each with a text of its own at its head: `event`, `window`.
#![tactic(auto)]

pub mod event;
pub mod window;
