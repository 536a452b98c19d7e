//! These parts, each with a text of its own at its head: `client`, `page`, `typed`.
#![tactic(auto)]

pub mod client;
pub mod page;
pub mod typed;
