//! Rows in ascending order of a key, which are found, added and removed in any order without a walk over all of them. They lie
//! in pieces, so that a row that comes or goes moves the rows of one piece at most.
#![tactic(auto)]

mod key;
mod piece;
mod pieces;
mod sorted;

pub use key::{Key, Keyed};
pub use sorted::Sorted;
