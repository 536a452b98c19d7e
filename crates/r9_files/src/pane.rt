//! What is kept of one window for its files (rio(4)): what it knows of itself, its label, the events that wait for its
//! `mouse`, and its console.
#![tactic(auto)]

mod field;
mod pane;

pub use pane::Pane;
