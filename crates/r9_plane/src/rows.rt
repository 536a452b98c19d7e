// Where the pixels of a rectangle stand in its rows.

ghost use Rattle.std.specs.Prelude.{◌≡◌, ◌+◌, ◌-◌, ◌*◌, ◌/◌, ◌≤◌, ◌<◌, ◌^◌, ◌≤ℤ◌, ◌+ℤ◌, ℕ, pos, neg_ℤ, length, slice_index, IsTrue};
ghost use Rattle.r9_geom.specs.declared.Point.{Point as Spot};
ghost use Rattle.r9_geom.specs.Geometry as geometry;
ghost use Rattle.r9_geom.specs.Geometry.{height, holds, strip, width, IsNear, IsOrdered, IsRectNear};
ghost use Rattle.model_pixel.specs.Channels.{is_depth};
ghost use Rattle.model_pixel.specs.Rows as spec;
ghost use Rattle.r9_plane.specs.Pixels.{along};

use super::runs;
use r9_geom::{Point, Rect, distance};

// A coordinate counted from -2^40, which no point is left of. That number is a multiple of 8, so columns keep their
// places in a byte.
fn offset(x: i64) -> u64
    requires low { neg_ℤ (pos (2 ^ 40)) ≤ℤ x }
    requires high { x ≤ℤ pos (2 ^ 40) }
    ensures value { pos result ≡ x +ℤ pos (2 ^ 40) }
    ensures range { result ≤ 2 ^ 41 }
{
    distance(-0x100_0000_0000, x)
}

/// The bytes of a row of a rectangle at a depth: from the one that holds its first bit to the one that holds its last,
/// where bits are counted from x = 0 (image(6)).
pub fn row_bytes(r: Rect, depth: u32) -> u64
    requires near { IsRectNear r }
    requires ordered { IsOrdered r }
    requires depth { depth ≤ 32 }
    ensures value { result ≡ spec.row_bytes r depth }
    ensures range { result ≤ 2 ^ 44 }
{
    let depth = u64::from(depth);
    (offset(r.max.x) * depth + 7) / 8 - offset(r.min.x) * depth / 8
}

// How many pixels the first byte of a row has before the row's first pixel.
pub fn skip(r: Rect, depth: u32) -> u64
    requires near { IsRectNear r }
    requires depth { IsTrue (is_depth depth) }
    ensures value { result ≡ spec.skip r depth }
    ensures range { result < 8 }
{
    if depth < 8 {
        offset(r.min.x) % u64::from(8 / depth)
    } else {
        0
    }
}

/// So many points side by side, from one to the right.
pub fn strip(at: Point, len: usize) -> Rect
    requires at { IsNear at }
    requires len { len ≤ 2 ^ 41 }
    ensures { result ≡ strip at len }
{
    Rect {
        min: at,
        max: Point {
            x: at.x + len as i64,
            y: at.y + 1,
        },
    }
}

// How many rows of a rectangle are above a point of it.
pub fn rows_above(r: &Rect, p: Point) -> usize
    requires { IsTrue (holds r.now p) }
    ensures { result ≡ geometry.distance r.now.min.y p.y }
{
    distance(r.min.y, p.y) as usize
}

// How many columns of a rectangle are to the left of a point of it.
pub fn columns_before(r: &Rect, p: Point) -> usize
    requires { IsTrue (holds r.now p) }
    ensures { result ≡ geometry.distance r.now.min.x p.x }
{
    distance(r.min.x, p.x) as usize
}

/// Reads raw pixels from the rows of a rectangle (image(6)) side by side, from a point of it to the right: as many as there is
/// room for in `raws`.
pub fn read_rows(r: &Rect, depth: u32, rows: &[u8], at: Point, raws: &mut [u32])
    requires near { IsRectNear r.now }
    requires ordered { IsOrdered r.now }
    requires depth { IsTrue (is_depth depth) }
    requires inside { (p : Spot) → IsTrue (holds (strip at (length raws.old)) p) → IsTrue (holds r.now p) }
    requires rows { length rows.now ≡ spec.row_bytes r.now depth * height r.now }
    ensures pixels { (k : ℕ) → k < length raws.old → slice_index raws.new k ≡ spec.row_pixel r.now depth rows.now (along at k) }
    ensures range { (k : ℕ) → k < length raws.old → slice_index raws.new k < 2 ^ depth }
{
    if raws.is_empty() {
        return;
    }
    let start = rows_above(r, at) * row_bytes(*r, depth) as usize;
    let first = skip(*r, depth) as usize + columns_before(r, at);
    runs::read_run(&rows[start..], depth, first, raws);
}
