//! The top call of the program.
#![tactic(auto)]

mod alone;
mod call;
mod desk;
mod fault;
mod generate;
mod mirror;
mod put;
mod status;
mod text;

pub use call::{DOORS, run, tell};
pub use status::Status;
