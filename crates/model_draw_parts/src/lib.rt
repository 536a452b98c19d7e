//! These parts, each with a text of its own at its head: `dmsg`, `fonts`, `images`.
#![tactic(auto)]

pub mod dmsg;
pub mod fonts;
pub mod images;
