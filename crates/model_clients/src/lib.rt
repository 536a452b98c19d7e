//! What clients that show texts and menus say, and what has to be shown and answered then. These parts, each with a text of its own
//! at its head: `bands`, `client`, `page`, `piloted`, `typed`.
#![tactic(auto)]

pub mod bands;
pub mod client;
pub mod page;
pub mod piloted;
pub mod typed;
