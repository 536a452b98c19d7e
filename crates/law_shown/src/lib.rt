//! These parts, each with a text of its own at its head: `fitting`, `lasting`, `shown`.
#![tactic(auto)]

pub mod fitting;
pub mod lasting;
pub mod shown;
