//! Packed pixels of a rectangle: a map from its points to raw pixels, in the layout of image(6).
#![tactic(auto)]

mod blocks;
mod composing;
mod counting;
mod keeping;
mod moves;
mod packed;
mod plane;
mod rows;
mod runs;

pub use blocks::{copy_rows, fill_rows};
pub use counting::count_points;
pub use plane::Plane;
pub use rows::{read_rows, row_bytes};
