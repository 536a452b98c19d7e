//! These parts, each with a text of its own at its head: `draw`, `messages`, `orders`, `strings`.
#![tactic(auto)]

pub mod draw;
pub mod messages;
pub mod orders;
pub mod strings;
