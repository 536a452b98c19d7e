//! These parts, each with a text of its own at its head: `banded`, `done`, `inked`, `inking`, `menus`, `pens`.
#![tactic(auto)]

pub mod banded;
pub mod done;
pub mod inked;
pub mod inking;
pub mod menus;
pub mod pens;
