//! These parts, each with a text of its own at its head: `apart`, `managed`, `orders`, `others`, `serials`, `sized`, `tied`,
//! `told`.
#![tactic(auto)]

pub mod apart;
pub mod managed;
pub mod orders;
pub mod others;
pub mod serials;
pub mod sized;
pub mod tied;
pub mod told;
