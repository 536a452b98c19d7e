//! Images and the windows that stand on them (draw(2), draw(3)): made and given back, drawn on, loaded and read.
#![tactic(auto)]

mod composing;
mod drawing;
mod forest;
mod task;

pub use forest::Forest;
pub use r9_forest::Kept;
pub use r9_locate::info::{ImageNo, Info};
