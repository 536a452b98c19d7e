//! The rectangles that windows have.

ghost use Rattle.std.specs.Prelude.{◌≡◌, ◌^◌, ◌-ℤ◌, ◌≤ℤ◌, neg_ℤ, pos, if◌then◌else◌, Some, None};
ghost use Rattle.model_files.specs.wctl.Rectangle.{is_near, is_coordinate};
ghost use Rattle.r9_geom.specs.Geometry.{shifted, IsNear, IsRectNearBy};
ghost use Rattle.r9_event.specs.window.Ways.{way};

use r9_geom::{Point, Rect};
use std::marker::Model;

/// How far a window's coordinates may be from 0.
const FARTHEST: i64 = 1_048_576;

/// A rectangle whose coordinates are within 1,048,576 of 0.
#[derive(Clone, Copy, PartialEq, Eq, Debug)]
pub struct Bounds {
    r: Rect,
}

impl Model for Bounds {
    ghost use Rattle.std.specs.Prelude.{◌≡◌, true};
    ghost use Rattle.r9_geom.specs.declared.Rect.{Rect};
    ghost use Rattle.model_files.specs.wctl.Rectangle.{is_near};

    ghost Value = { Rect };

    ghost view = { λ b. b.r };

    ghost invariant = { λ b. is_near b.r ≡ true };

    ghost inverse = { λ r. record { r = r } };
}

fn is_coordinate(n: i64) -> bool
    ensures { result ≡ is_coordinate n }
{
    -FARTHEST <= n && n <= FARTHEST
}

fn is_near(r: Rect) -> bool
    ensures { result ≡ is_near r }
{
    if !is_coordinate(r.min.x) {
        return false;
    }
    if !is_coordinate(r.min.y) {
        return false;
    }
    if !is_coordinate(r.max.x) {
        return false;
    }
    is_coordinate(r.max.y)
}

// How far a coordinate is from another one.
fn ahead(from: i64, to: i64) -> i64
    requires from_low { neg_ℤ (pos (2 ^ 20)) ≤ℤ from }
    requires from_high { from ≤ℤ pos (2 ^ 20) }
    requires to_low { neg_ℤ (pos (2 ^ 20)) ≤ℤ to }
    requires to_high { to ≤ℤ pos (2 ^ 20) }
    ensures value { result ≡ to -ℤ from }
    ensures low { neg_ℤ (pos (2 ^ 21)) ≤ℤ result }
    ensures high { result ≤ℤ pos (2 ^ 21) }
{
    to - from
}

impl Bounds {
    /// A rectangle, where its coordinates are within 1,048,576 of 0.
    pub fn new(r: Rect) -> Option<Bounds>
        ensures { result ≡ (if is_near r then Some r else None) }
    {
        if is_near(r) { Some(Bounds { r }) } else { None }
    }

    /// The rectangle.
    pub fn rect(&self) -> Rect
        ensures value { result ≡ self.now }
        ensures near { IsRectNearBy (2 ^ 20) result }
    {
        self.r
    }

    /// How far its min is from that of another.
    pub fn way_to(&self, other: &Bounds) -> Point
        ensures value { result ≡ way self.now other.now }
        ensures near { IsNear result }
    {
        let from = self.rect();
        let to = other.rect();
        Point {
            x: ahead(from.min.x, to.min.x),
            y: ahead(from.min.y, to.min.y),
        }
    }

    /// The rectangle moved by so many columns and rows, where its coordinates are then within 1,048,576 of 0.
    pub fn moved(&self, by: Point) -> Option<Bounds>
        requires { IsNear by }
        ensures { result ≡ (if is_near (shifted self.now by) then Some (shifted self.now by) else None) }
    {
        Bounds::new(self.r.shifted(by))
    }
}
