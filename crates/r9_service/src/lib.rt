//! These parts, each with a text of its own at its head: `recorder`, `service`.
#![tactic(auto)]

pub mod recorder;
pub mod service;
