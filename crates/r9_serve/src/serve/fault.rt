//! Why there is no record of an input.

/// Why no record was made of what an input has.
#[derive(Clone, Copy, Debug, PartialEq, Eq)]
pub enum MakeFault {
    /// The input is none, and goes wrong at this place.
    BadInput(u64),
    /// The input failed.
    ReadFault,
    /// There was no memory.
    Memory,
}
