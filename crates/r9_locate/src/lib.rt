//! These parts, each with a text of its own at its head: `info`, `lists`, `locate`, `numbered`, `tally`, `watched`.
#![tactic(auto)]

pub mod info;
pub mod lists;
pub mod locate;
pub mod numbered;
pub mod tally;
pub mod watched;
