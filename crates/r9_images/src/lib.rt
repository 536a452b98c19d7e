//! These parts, each with a text of its own at its head: `images`, `uses`.
#![tactic(auto)]

pub mod images;
pub mod uses;
