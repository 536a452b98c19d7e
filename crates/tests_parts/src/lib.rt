//! These parts, each with a text of its own at its head: `base`, `clients`, `draw`, `server`, `words`.
#![tactic(auto)]

pub mod base;
pub mod clients;
pub mod draw;
pub mod server;
pub mod words;
