//! These parts, each with a text of its own at its head: `stacking`, `wmgr`.
#![tactic(auto)]

pub mod stacking;
pub mod wmgr;
