//! Composition of rows of packed colours, and of raw pixels of the layouts that displays use, a block of pixels at a
//! time in lanes. No call takes memory.
#![tactic(auto)]

mod block;
mod bytes;
mod layout;
mod raw;
mod row;

pub use bytes::over_bytes;
pub use layout::{Layout, MaskLayout, Over, read, write};
pub use r9_chan::Chan;
pub use raw::{comp_raw_row, over_raw_row};
pub use row::comp_row;
