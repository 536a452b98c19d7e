//! Rectangles of windows, with and without their border, and where they stand.

ghost use Rattle.model_draw.specs.draw.Orders.{corner, inside_border, is_window_rect};
ghost use Rattle.model_forest.specs.Steps.{outside};
ghost use Rattle.r9_geom.specs.Geometry.{IsNearBy, IsRectNearBy};
ghost use Rattle.std.specs.Ordering.{int_eq};
ghost use Rattle.std.specs.Prelude.{neg_ℤ, pos, ◌+ℤ◌, ◌-ℤ◌, ◌≤ℤ◌, ◌<◌, ◌==◌, ◌^◌, ◌≡◌, ◌≤◌};

use r9_device::device::is_near_rect;
use r9_geom::{Point, Rect};

// How wide the border of a window is.
const BORDER: i64 = 4;

// Far outside of every image.
pub(crate) const OUTSIDE: Point = Point {
    x: 1 << 20,
    y: 1 << 20,
};

// A coordinate behind the border that begins there, and one in front of the border that ends there.
fn behind_border(x: i64) -> i64
    requires low { neg_ℤ (pos (2 ^ 33)) ≤ℤ x }
    requires high { x ≤ℤ pos (2 ^ 33) }
    ensures { result ≡ x +ℤ pos 4 }
{
    x + BORDER
}

fn before_border(x: i64) -> i64
    requires low { neg_ℤ (pos (2 ^ 33)) ≤ℤ x }
    requires high { x ≤ℤ pos (2 ^ 33) }
    ensures { result ≡ x -ℤ pos 4 }
{
    x - BORDER
}

pub(crate) fn inside_border(r: &Rect) -> Rect
    requires { IsRectNearBy (2 ^ 33) r.now }
    ensures { result ≡ inside_border r.now }
{
    Rect {
        min: Point {
            x: behind_border(r.min.x),
            y: behind_border(r.min.y),
        },
        max: Point {
            x: before_border(r.max.x),
            y: before_border(r.max.y),
        },
    }
}

// Whether a window may have the rectangle.
pub(crate) fn is_window_rect(r: &Rect) -> bool
    ensures { result ≡ is_window_rect r.now }
{
    is_near_rect(r) && !inside_border(r).is_empty()
}

// How far it is from a coordinate to another, to the left where that is lower.
fn distance(low: i64, high: i64) -> i64
    requires low_left { neg_ℤ (pos (2 ^ 33)) ≤ℤ low }
    requires low_right { low ≤ℤ pos (2 ^ 33) }
    requires high_left { neg_ℤ (pos (2 ^ 33)) ≤ℤ high }
    requires high_right { high ≤ℤ pos (2 ^ 33) }
    ensures { result ≡ high -ℤ low }
{
    high - low
}

pub(crate) fn is_as_wide(r: &Rect, old: &Rect) -> bool
    requires rect { IsRectNearBy (2 ^ 33) r.now }
    requires old { IsRectNearBy (2 ^ 33) old.now }
    ensures { result ≡ int_eq (r.now.max.x -ℤ r.now.min.x) (old.now.max.x -ℤ old.now.min.x) }
{
    distance(r.min.x, r.max.x) == distance(old.min.x, old.max.x)
}

pub(crate) fn is_as_high(r: &Rect, old: &Rect) -> bool
    requires rect { IsRectNearBy (2 ^ 33) r.now }
    requires old { IsRectNearBy (2 ^ 33) old.now }
    ensures { result ≡ int_eq (r.now.max.y -ℤ r.now.min.y) (old.now.max.y -ℤ old.now.min.y) }
{
    distance(r.min.y, r.max.y) == distance(old.min.y, old.max.y)
}

// Where a window stands: a hidden one far outside.
pub(crate) fn corner(r: &Rect, hidden: bool) -> Point
    requires { IsRectNearBy (2 ^ 32) r.now }
    ensures corner { result ≡ corner r.now hidden }
    ensures near { IsNearBy (2 ^ 34) result }
{
    if hidden { OUTSIDE } else { r.min }
}
