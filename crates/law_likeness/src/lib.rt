//! These parts, each with a text of its own at its head: `agreement`, `freeing`, `likeness`, `losing`, `making`, `renamed`,
//! `whole`.
#![tactic(auto)]

pub mod agreement;
pub mod freeing;
pub mod likeness;
pub mod losing;
pub mod making;
pub mod renamed;
pub mod whole;
