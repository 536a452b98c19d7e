//! What is drawn, and on what.

ghost use Rattle.std.specs.Prelude.{◌^◌};
ghost use Rattle.r9_geom.specs.Geometry.{IsNearBy, IsRectNearBy};

use r9_chan::Op;
use r9_geom::{Point, Rect};

/// A drawing on image `dst`, within `clip`, into `r`, of image `src` seen through image `mask`, so that point `sp` of the
/// source and point `mp` of the mask stand at `r.min`. Where there is no mask, all of the source shows.
#[derive(Clone, Copy)]
pub struct Task {
    pub dst: u32,
    pub clip: Rect,
    pub r: Rect,
    pub src: u32,
    pub sp: Point,
    pub mask: Option<u32>,
    pub mp: Point,
    pub op: Op,
    ghost near: { IsRectNearBy (2 ^ 34) r },
    ghost source_near: { IsNearBy (2 ^ 34) sp },
    ghost mask_near: { IsNearBy (2 ^ 34) mp },
}
