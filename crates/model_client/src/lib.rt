//! These parts, each with a text of its own at its head: `cursor`, `desk`, `mirror`, `textwin`.
#![tactic(auto)]

pub mod cursor;
pub mod desk;
pub mod mirror;
pub mod textwin;
