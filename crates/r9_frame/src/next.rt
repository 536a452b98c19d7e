//! What a framer gives.

use r9_text::Bytes;

/// The next message, or why there is none.
#[derive(Debug, Drop)]
pub enum Next {
    /// All bytes of a message.
    Frame(Bytes),
    /// The bytes held are fewer than a size field, or than a lawful size.
    NeedMore,
    /// The size is below 7 or above the limit. From then on nothing else is given.
    BadSize(u32),
}
