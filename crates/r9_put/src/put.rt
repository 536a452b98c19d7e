//! Pixels that are put on an image, where that or another keeps them.
#![tactic(auto)]

mod composing;
mod filling;
mod loading;
mod moving;
mod rows;
mod whole;

pub use composing::compose_area;
pub use filling::fill_area;
pub use loading::load_area;
pub use moving::move_area;
pub use rows::put_rows;
