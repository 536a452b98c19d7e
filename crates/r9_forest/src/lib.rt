//! Images by number and the windows that stand on them, where each pixel is kept once.
#![tactic(auto)]

mod coming;
mod filling;
mod images;
mod keeping;
mod leaving;
mod marking;
mod moving;
mod ordering;
mod ranking;
mod reading;
mod replacing;
mod resizing;
mod telling;
mod writing;

pub use images::Images;
pub use keeping::Kept;
