//! These parts, each with a text of its own at its head: `elsewhere`, `events`, `followed`, `isolation`, `near`, `private`,
//! `steady`, `strangers`, `turns`, `unnoticed`, `users`.
#![tactic(auto)]

pub mod elsewhere;
pub mod events;
pub mod followed;
pub mod isolation;
pub mod near;
pub mod private;
pub mod steady;
pub mod strangers;
pub mod turns;
pub mod unnoticed;
pub mod users;
