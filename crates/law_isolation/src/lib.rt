//! These parts, each with a text of its own at its head: `alone_law`, `attached`, `isolated`, `names`, `phases`.
#![tactic(auto)]

pub mod alone_law;
pub mod attached;
pub mod isolated;
pub mod names;
pub mod phases;
