//! These parts, each with a text of its own at its head: `isol`, `lone`, `watch`.
#![tactic(auto)]

pub mod isol;
pub mod lone;
pub mod watch;
