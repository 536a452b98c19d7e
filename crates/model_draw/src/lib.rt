//! These parts, each with a text of its own at its head: `cost`, `draw`, `imgfile`, `looked`.
#![tactic(auto)]

pub mod cost;
pub mod draw;
pub mod imgfile;
pub mod looked;
