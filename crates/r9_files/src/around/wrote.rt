//! How a write of a file ended.

use r9_text::Numbers;

/// How a write of a file ended.
#[derive(Debug, Drop)]
pub struct Wrote {
    /// The number of the refusal that stopped it.
    pub refusal: Option<u8>,
    /// Where memory ran out, or its mark took effect: how many of its messages were done.
    pub short: Option<u32>,
    /// What is told of the messages of a data write; None of a write of another file.
    pub told: Option<Told>,
}

/// What is told of the messages of a data write (draw(3)), so that they can be read again from its bytes.
#[derive(Debug, Drop)]
pub struct Told {
    /// How many were done.
    pub done: u32,
    /// How many bytes the rows had of each `y` that was done, in order.
    pub rows: Numbers,
}
