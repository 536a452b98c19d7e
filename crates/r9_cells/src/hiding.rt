//! Which cells of a window are hidden, by the rectangles of its parent and of the windows above it.

ghost use Rattle.std.specs.Prelude.{◌≡◌, ◌^◌, ◌+◌, ◌<◌, ◌≤◌, ◌+ℤ◌, ◌<ℤ◌, ◌≤ℤ◌, ℕ, List, Some, false, length, pos, not, slice_index_or, true};
ghost use Rattle.std.specs.Int.{int_max, int_min};
ghost use Rattle.std.specs.List.{list_any};
ghost use Rattle.r9_geom.specs.declared.Point.{Point as Spot};
ghost use Rattle.r9_geom.specs.declared.Rect.{Rect as Area};
ghost use Rattle.r9_geom.specs.Geometry.{height, is_empty, is_inside, meet, width, IsNear, IsNearBy, IsOrdered, IsRectNear};
ghost use Rattle.model_forest.specs.declared.Window.{Window as Listed};
ghost use Rattle.model_kept.specs.Cells as cells;
ghost use Rattle.model_kept.specs.Cells.{cells_across};
ghost use Rattle.r9_cells.specs.Fitting as spec;
ghost use Rattle.r9_cells.specs.Fitting.{hides_at, IsCellIn, IsSpan};
ghost use Rattle.r9_cells.specs.Walking.{cell_out, IsAtCell};

use model_forest::Window;
use r9_geom::{Point, Rect};

/// How many cells a row of cells has.
pub(crate) fn cells_across(r: &Rect) -> usize
    requires near { IsRectNear r.now }
    requires ordered { IsOrdered r.now }
    ensures value { result ≡ cells_across r.now }
    ensures most { result ≤ 2 ^ 37 }
{
    (r.width() as usize).div_ceil(32)
}

/// How many cells a rectangle has.
pub fn cell_count(r: &Rect) -> usize
    requires near { IsRectNear r.now }
    requires ordered { IsOrdered r.now }
    requires columns { width r.now ≤ 2 ^ 35 }
    requires rows { height r.now ≤ 2 ^ 35 }
    ensures value { result ≡ cells.cell_count r.now }
    ensures most { result ≤ 2 ^ 61 }
{
    cells_across(r) * (r.height() as usize).div_ceil(32)
}

// The 32 by 32 points from one on.
fn square(min: Point) -> Rect
    requires { IsNearBy (2 ^ 42) min }
    ensures { result ≡ record { min = min; max = record { x = min.x +ℤ pos 32; y = min.y +ℤ pos 32 } } }
{
    Rect {
        min,
        max: Point {
            x: min.x + 32,
            y: min.y + 32,
        },
    }
}

/// A walk over the cells of a window, row by row.
#[derive(Clone, Copy)]
pub(crate) struct Walk {
    // Where the window stands.
    place: Rect,
    // The upper left corner of the cell.
    at: Point,
}

impl Walk {
    /// At the first cell of a window of rectangle r whose min stands at `to`.
    pub(crate) fn new(r: &Rect, to: Point) -> Self
        requires near { IsRectNear r.now }
        requires to { IsNear to }
        ensures { IsAtCell result r.now to 0 }
    {
        Walk {
            place: standing_part(r, to, r),
            at: to,
        }
    }

    /// Where the cell stands.
    pub(crate) fn cell(&self) -> Rect
        requires { IsNearBy (2 ^ 42) self.now.at }
        ensures value { result ≡ cell_out self.now }
        ensures cell { (r : Area) (to : Spot) (k : ℕ) → IsAtCell self.now r to k → k < cells.cell_count r → result ≡ spec.standing_part r to (cells.cell_part r k) }
    {
        self.place.meet(&square(self.at))
    }

    /// On to the next cell.
    pub(crate) fn step(&mut self)
        requires { IsNearBy (2 ^ 42) self.old.at }
        ensures { (r : Area) (to : Spot) (k : ℕ) → IsOrdered r → k < cells.cell_count r → IsAtCell self.old r to k → IsAtCell self.new r to (k + 1) }
    {
        self.at.x += 32;
        if self.at.x >= self.place.max.x {
            self.at = Point {
                x: self.place.min.x,
                y: self.at.y + 32,
            };
        }
    }
}

// Whether two spans of numbers reach into each other.
fn crosses(low: i64, high: i64, from: i64, to: i64) -> bool
    ensures before { result ≡ true → low <ℤ to }
    ensures past { result ≡ true → from <ℤ high }
    ensures off { result ≡ false → int_min high to ≤ℤ int_max low from }
{
    low < to && from < high
}

// Whether a rectangle may have points in common with some areas, all points of which are in the span.
fn reaches(near: &Rect, r: &Rect) -> bool
    ensures left { result ≡ true → r.now.min.x <ℤ near.now.max.x }
    ensures right { result ≡ true → near.now.min.x <ℤ r.now.max.x }
    ensures top { result ≡ true → r.now.min.y <ℤ near.now.max.y }
    ensures bottom { result ≡ true → near.now.min.y <ℤ r.now.max.y }
    ensures off { result ≡ false → is_empty (meet r.now near.now) ≡ true }
{
    if !crosses(r.min.x, r.max.x, near.min.x, near.max.x) {
        return false;
    }
    crosses(r.min.y, r.max.y, near.min.y, near.max.y)
}

/// Whether two rectangles have points in common.
pub(crate) fn touches(r: &Rect, area: &Rect) -> bool
    ensures { result ≡ not (is_empty (meet r.now area.now)) }
{
    if !reaches(area, r) {
        return false;
    }
    !r.is_empty() && !area.is_empty()
}

/// Whether a rectangle has points in common with one of these areas, or there is none.
pub(crate) fn meets(areas: &[Rect], r: &Rect) -> bool
    ensures { result ≡ spec.meets areas.now r.now }
{
    areas.is_empty() || areas.iter().any(|area| touches(r, area))
}

// Whether one of these windows stands over a rectangle. The last is tried first: of those above a window it is the nearest,
// which mostly does where windows are piled.
fn is_covered(upper: &[Window], out: &Rect) -> bool
    ensures { result ≡ list_any (λ w. not (is_empty (meet w.place out.now))) upper.now }
{
    let mut left = upper.len();
    while left > 0 {
        left -= 1;
        if touches(&upper[left].place, out) {
            return true;
        }
    }
    false
}

/// Where a part of a window with rectangle r stands, whose min stands at `to`.
pub(crate) fn standing_part(r: &Rect, to: Point, part: &Rect) -> Rect
    requires near { IsRectNear r.now }
    requires part { IsRectNear part.now }
    requires to { IsNear to }
    ensures { result ≡ spec.standing_part r.now to part.now }
{
    Rect {
        min: part.min.carried(r.min, to),
        max: part.max.carried(r.min, to),
    }
}

/// Whether an image of rectangle `below` does not show all of a part of its window under these others, which stands at `out`.
pub(crate) fn hides(below: &Rect, upper: &[Window], out: &Rect) -> bool
    ensures { result ≡ hides_at below.now upper.now out.now }
{
    !out.inside(below) || is_covered(upper, out)
}

/// A rectangle with all points of some areas, if there are areas.
pub(crate) fn span(areas: &[Rect]) -> Option<Rect>
    ensures { IsSpan result areas.now }
{
    if areas.is_empty() {
        return None;
    }
    let mut r = areas[0];
    for area in areas {
        r = joined(&r, area);
    }
    Some(r)
}

// A rectangle with the points of two.
fn joined(a: &Rect, b: &Rect) -> Rect
    ensures first { is_inside a.now result ≡ true }
    ensures second { is_inside b.now result ≡ true }
    ensures more { (part : Area) → is_inside part a.now ≡ true → is_inside part result ≡ true }
{
    if a.is_empty() {
        return *b;
    }
    if b.is_empty() {
        return *a;
    }
    Rect {
        min: Point {
            x: a.min.x.min(b.min.x),
            y: a.min.y.min(b.min.y),
        },
        max: Point {
            x: a.max.x.max(b.max.x),
            y: a.max.y.max(b.max.y),
        },
    }
}

/// Whether there are areas, of which no point is known to be.
pub(crate) fn is_nowhere(near: &Option<Rect>) -> bool
    ensures { result ≡ true → (areas : List Area) → IsSpan near.now areas → (r : Area) → spec.meets areas r ≡ false }
{
    match near {
        None => false,
        Some(near) => near.is_empty(),
    }
}

/// The next window from one on that may have points in common with some areas, all points of which are in the span: none of the
/// list where there is none.
pub(crate) fn next_near(windows: &[Window], from: usize, near: &Option<Rect>) -> usize
    ensures least { from ≤ result }
    ensures most { from ≤ length windows.now → result ≤ length windows.now }
    ensures off { (areas : List Area) → IsSpan near.now areas → (k : ℕ) (d : Listed) → from ≤ k → k < result → k < length windows.now → spec.meets areas (slice_index_or windows.now k d).place ≡ false }
{
    let Some(near) = near else {
        return from;
    };
    for at in from..windows.len() {
        if reaches(near, &windows[at].place) {
            return at;
        }
    }
    from.max(windows.len())
}

/// Whether the nearest of these windows stands over the last point of a rectangle and over points of its first cell: then it
/// stands over points of each cell of a window there, and hides them all.
pub(crate) fn is_buried(upper: &[Window], out: &Rect) -> bool
    requires { IsNearBy (2 ^ 42) out.now.min }
    ensures { result ≡ true → (part : Area) → IsCellIn out.now part → list_any (λ w. not (is_empty (meet w.place part))) upper.now ≡ true }
{
    if upper.is_empty() {
        return false;
    }
    let place = &upper[upper.len() - 1].place;
    ends_in(place, out) && starts_in(place, out)
}

// Whether a rectangle lies in one of these areas, or there is none.
fn lies_in(areas: &[Rect], r: &Rect) -> bool
    ensures { result ≡ true → (part : Area) → is_inside part r.now ≡ true → is_empty part ≡ false → spec.meets areas.now part ≡ true }
{
    areas.is_empty() || areas.iter().any(|area| r.inside(area))
}

// Whether an image of rectangle `below` is known to show no whole cell of a window that stands at `out` under these others.
fn hides_all(below: &Rect, upper: &[Window], out: &Rect) -> bool
    requires { IsNearBy (2 ^ 42) out.now.min }
    ensures { result ≡ true → (part : Area) → IsCellIn out.now part → hides_at below.now upper.now part ≡ true }
{
    is_buried(upper, out) || out.meet(below).is_empty()
}

/// Whether each cell of a window that stands at `out` under these others is known to be hidden on an image of rectangle `below`,
/// and to meet one of the areas where there are some.
pub(crate) fn hides_within(below: &Rect, upper: &[Window], areas: &[Rect], out: &Rect) -> bool
    requires { IsNearBy (2 ^ 42) out.now.min }
    ensures { result ≡ true → (part : Area) → IsCellIn out.now part → (spec.meets areas.now part ≡ true) × (hides_at below.now upper.now part ≡ true) }
{
    hides_all(below, upper, out) && lies_in(areas, out)
}

// Whether a rectangle has the last point of another.
fn ends_in(r: &Rect, out: &Rect) -> bool
    ensures right { result ≡ true → out.now.max.x ≤ℤ r.now.max.x }
    ensures bottom { result ≡ true → out.now.max.y ≤ℤ r.now.max.y }
    ensures left { result ≡ true → r.now.min.x <ℤ out.now.max.x }
    ensures top { result ≡ true → r.now.min.y <ℤ out.now.max.y }
{
    out.max.x <= r.max.x && out.max.y <= r.max.y && r.min.x < out.max.x && r.min.y < out.max.y
}

// Whether a rectangle begins before the first cell of another ends.
fn starts_in(r: &Rect, out: &Rect) -> bool
    requires { IsNearBy (2 ^ 42) out.now.min }
    ensures left { result ≡ true → r.now.min.x <ℤ (out.now.min.x +ℤ pos 32) }
    ensures top { result ≡ true → r.now.min.y <ℤ (out.now.min.y +ℤ pos 32) }
{
    r.min.x < out.min.x + 32 && r.min.y < out.min.y + 32
}
