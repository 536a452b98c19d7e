//! These parts, each with a text of its own at its head: `exchanged`, `resize`.
#![tactic(auto)]

pub mod exchanged;
pub mod resize;
