//! Strings of characters, drawn on images (draw(3)).
#![tactic(auto)]

mod drawing;
mod lettering;

pub use drawing::draw_string;
pub use lettering::{Background, Lettering};
