//! Draw messages as a client writes them, as bytes (draw(3)).
#![tactic(auto)]

mod fields;
mod messages;

pub use fields::{Area, ORIGIN, Place};
pub use messages::{
    Character, Drawing, Image, RGB24, Writing, colour, draw, font, make_image, named, rows, string,
    take_character,
};
