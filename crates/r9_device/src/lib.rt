//! These parts, each with a text of its own at its head: `client`, `device`.
#![tactic(auto)]

pub mod client;
pub mod device;
