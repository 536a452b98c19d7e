//! A text in a window that scrolls: the definitions that contracts of other crates cite, and a law
//! about them as the contract of a function that does nothing.
#![tactic(auto)]

use r9_text::Bytes;

/// A change of what a window shows.
#[derive(Drop)]
pub enum Move {
    /// Each row goes one up. The first is gone, and the last is empty.
    Scroll,
    /// Characters go to a row from a column on, where the row ends, each less 0x20.
    Put { row: u32, column: u32, codes: Bytes },
}

mod laws;

pub use laws::pieces_are_the_text;
