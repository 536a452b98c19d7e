//! Fonts of the draw device: characters on an image, and how a string of them is laid out (draw(3)).
#![tactic(auto)]

mod font;
mod layout;

pub use font::{Font, FontFault};
pub use layout::{Layout, Pieces};
pub use model_draw_parts::fonts::{Cell, Piece};
