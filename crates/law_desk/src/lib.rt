//! These parts, each with a text of its own at its head: `bands`, `piloted`, `ready`, `steered`.
#![tactic(auto)]

pub mod bands;
pub mod piloted;
pub mod ready;
pub mod steered;
