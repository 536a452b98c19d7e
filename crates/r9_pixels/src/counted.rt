//! Pixels that are written, as a sum that proofs alone read counts them.

ghost use Rattle.r9_geom.specs.Geometry.{area_of};

use r9_geom::Rect;
use r9_locate::tally::Asked;

/// So many pixels side by side.
#[derive(Drop)]
pub(crate) struct Row(pub(crate) usize);

impl Asked for Row {
    ghost cost = { λ row. row.0 };
}

/// The pixels of a rectangle.
#[derive(Drop)]
pub(crate) struct Area(pub(crate) Rect);

impl Asked for Area {
    ghost cost = { λ area. area_of area.0 };
}
