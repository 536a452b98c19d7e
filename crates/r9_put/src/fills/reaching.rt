//! The points of a row to which an image gives a pixel.

ghost use Rattle.std.specs.Prelude.{◌≡◌, ◌&&◌, ◌^◌, ◌≤◌, false, IsTrue};
ghost use Rattle.r9_geom.specs.declared.Point.{Point as Spot};
ghost use Rattle.r9_geom.specs.Geometry as geometry;
ghost use Rattle.r9_geom.specs.Geometry.{holds, is_empty, IsNear};
ghost use Rattle.model_forest.specs.Draw.{reaches};
ghost use Rattle.r9_locate.specs.locate.Lists.{frame_image};
ghost use Rattle.r9_put.specs.fills.Fills.{IsRun};

use r9_geom::{Point, Rect, distance};
use r9_locate::locate::Frame;

/// Columns of a row: from one up to another.
pub struct Columns {
    pub start: usize,
    pub end: usize,
}

/// The points of a rectangle that an image gives a pixel to.
pub fn reached(frame: &Frame, r: &Rect) -> Rect
    ensures { (p : Spot) → holds result p ≡ (holds r.now p && reaches (frame_image frame.now) p) }
{
    let clipped = r.meet(&frame.clipr);
    if frame.repl {
        clipped
    } else {
        clipped.meet(&frame.r)
    }
}

/// The columns of a row that a rectangle within it holds.
pub fn columns_in(at: Point, count: usize, given: &Rect) -> Columns
    requires some { is_empty given.now ≡ false }
    requires inside { (p : Spot) → IsTrue (holds given.now p) → IsTrue (holds (geometry.strip at count) p) }
    ensures { IsRun at count given.now result.start result.end }
{
    Columns {
        start: distance(at.x, given.min.x) as usize,
        end: distance(at.x, given.max.x) as usize,
    }
}

/// A row of so many points.
pub fn strip(at: Point, count: usize) -> Rect
    requires near { IsNear at }
    requires count { count ≤ 2 ^ 40 }
    ensures { result ≡ geometry.strip at count }
{
    Rect {
        min: at,
        max: Point {
            x: at.x + count as i64,
            y: at.y + 1,
        },
    }
}
