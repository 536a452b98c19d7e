//! These parts, each with a text of its own at its head: `sides`, `wctl`.
#![tactic(auto)]

pub mod sides;
pub mod wctl;
