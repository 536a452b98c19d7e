//! Rows over which no edge of a window lies.

ghost use Rattle.std.specs.Prelude.{◌≡◌, ◌^◌, ◌<◌, ◌≤◌, ℕ};
ghost use Rattle.r9_geom.specs.declared.Point.{Point as Spot};
ghost use Rattle.r9_geom.specs.Geometry.{holds, IsNear};
ghost use Rattle.r9_plane.specs.Pixels.{along};
ghost use Rattle.model_forest.specs.View.{top_window};
ghost use Rattle.r9_shown.specs.Shown as spec;
ghost use Rattle.r9_shown.specs.Shown.{down};

use model_forest::Window;
use r9_geom::{Point, Rect, distance};

/// For how many of n rows from that of a point down no row of a rectangle begins or ends.
pub fn steady_down(r: &Rect, q: Point, n: u64) -> u64
    requires { 0 < n }
    ensures some { 0 < result }
    ensures most { result ≤ n }
    ensures same { (p : Spot) (k : ℕ) → p.y ≡ q.y → k < result → holds r.now (down p k) ≡ holds r.now p }
{
    if q.y < r.min.y {
        n.min(distance(q.y, r.min.y))
    } else if q.y < r.max.y {
        n.min(distance(q.y, r.max.y))
    } else {
        n
    }
}

/// For how many of n rows from that of a point down no window of a list begins or ends.
pub fn steady_rows(windows: &[Window], q: Point, n: u64) -> u64
    requires { 0 < n }
    ensures some { 0 < result }
    ensures most { result ≤ n }
    ensures same { (p : Spot) (k : ℕ) → p.y ≡ q.y → k < result → top_window windows.now (down p k) ≡ top_window windows.now p }
{
    let mut rows = n;
    for w in windows {
        rows = steady_down(&w.place, q, rows);
    }
    rows
}

/// The point so many rows down.
pub fn down(at: Point, rows: u64) -> Point
    requires near { IsNear at }
    requires rows { rows ≤ 2 ^ 41 }
    ensures { result ≡ spec.down at rows }
{
    Point {
        x: at.x,
        y: at.y + rows as i64,
    }
}

// The point so many columns and rows further on.
pub(crate) fn beyond(at: Point, columns: usize, rows: u64) -> Point
    requires near { IsNear at }
    requires columns { columns ≤ 2 ^ 41 }
    requires rows { rows ≤ 2 ^ 41 }
    ensures { result ≡ spec.down (along at columns) rows }
{
    Point {
        x: at.x + columns as i64,
        y: at.y + rows as i64,
    }
}

/// The rectangle of so many columns and rows from a point on.
pub fn block(at: Point, columns: usize, rows: u64) -> Rect
    requires near { IsNear at }
    requires columns { columns ≤ 2 ^ 41 }
    requires rows { rows ≤ 2 ^ 41 }
    ensures { result ≡ spec.block at columns rows }
{
    Rect {
        min: at,
        max: Point {
            x: at.x + columns as i64,
            y: at.y + rows as i64,
        },
    }
}
