//! These parts, each with a text of its own at its head: `ids`, `screens`, `sorted`, `ties`.
#![tactic(auto)]

pub mod ids;
pub mod screens;
pub mod sorted;
pub mod ties;
