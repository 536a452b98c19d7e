//! Blocks of points of images over which the topmost window is the same, or one image keeps the pixels, and what images show in
//! rectangles, read, written and copied where it is kept.
#![tactic(auto)]

mod bands;
mod blocks;
mod viewing;

pub use bands::{block, down, steady_down, steady_rows};
pub use blocks::{Block, Cover, Extent, Top, block_of, cover_over, cut, top_over};
pub use viewing::{paint_area, read_area, save_area, show_area, write_area};
