//! What all sessions share (draw(3), rio(4)): the draw device, and the windows with what their files have.
#![tactic(auto)]

mod around;
mod attaching;
mod commands;
mod connections;
mod desktop;
mod files;
mod finding;
mod hearing;
mod input;
mod sizing;
mod spending;
mod stepping;
mod telling;
mod using;
mod viewing;

pub use connections::client;
pub use desktop::{Desktop, Turn};
