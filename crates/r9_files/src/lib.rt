//! These parts, each with a text of its own at its head: `access`, `around`, `files`, `pane`.
#![tactic(auto)]

pub mod access;
pub mod around;
pub mod files;
pub mod pane;
