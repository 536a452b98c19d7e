//! These parts, each with a text of its own at its head: `deskfile`, `drawing`, `page`, `pointing`, `saying`, `textfile`,
//! `typing`.
#![tactic(auto)]

pub mod deskfile;
pub mod drawing;
pub mod page;
pub mod pointing;
pub mod saying;
pub mod textfile;
pub mod typing;
