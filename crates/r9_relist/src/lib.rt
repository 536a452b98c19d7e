//! These parts, each with a text of its own at its head: `arrive`, `relist`, `resize`, `shift`.
#![tactic(auto)]

pub mod arrive;
pub mod relist;
pub mod resize;
pub mod shift;
