//! The size of a window of text.

/// How many characters a window shows in a row, how many rows, and how many pixels each character is wide and high.
#[derive(Clone, Copy, Debug, PartialEq, Eq)]
pub struct Shape {
    pub columns: u32,
    pub rows: u32,
    pub width: u32,
    pub height: u32,
}
