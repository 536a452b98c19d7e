//! What a string is drawn on, of what, and where.

use r9_chan::Op;
use r9_geom::{Point, Rect};
use r9_locate::info::ImageNo;

/// A string that is to be drawn (draw(3)): on image `dst` within `clipr`, of image `src` seen through the characters of a
/// font on image `font_image`. The pen begins at p on the writing line, with the source's point sp there.
#[derive(Clone, Copy)]
pub struct Lettering {
    pub dst: ImageNo,
    pub src: ImageNo,
    pub font_image: ImageNo,
    pub background: Option<Background>,
    pub p: Point,
    pub clipr: Rect,
    pub sp: Point,
    pub op: Op,
}

/// An image that is drawn under a string, before it, so that its point p stands at the upper left corner.
#[derive(Clone, Copy)]
pub struct Background {
    pub image: ImageNo,
    pub p: Point,
}
