//! These parts, each with a text of its own at its head: `assembled`, `beside`, `devices`, `granted`, `grounded`, `holding`,
//! `lawful`, `marked`, `renewed`, `sides`, `written`.
#![tactic(auto)]

pub mod assembled;
pub mod beside;
pub mod devices;
pub mod granted;
pub mod grounded;
pub mod holding;
pub mod lawful;
pub mod marked;
pub mod renewed;
pub mod sides;
pub mod written;
