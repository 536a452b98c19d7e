//! Definitions: fonts of the draw device and how a string is laid out (draw(3)). No code.
#![tactic(auto)]

use r9_geom::{Point, Rect};

/// A character of a font: its rectangle on the font's image, how far to the right of the pen it is drawn, and how far the
/// pen then moves, in pixels.
#[derive(Clone, Copy, PartialEq, Eq, Debug)]
pub struct Cell {
    pub r: Rect,
    pub left: i8,
    pub width: u8,
}

/// One character of a string: where it is drawn, and the points of the source and of the font's image at its min.
#[derive(Clone, Copy, PartialEq, Eq, Debug)]
pub struct Piece {
    pub r: Rect,
    pub sp: Point,
    pub mp: Point,
}
