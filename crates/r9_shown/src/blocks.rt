//! Blocks of points over which one image keeps what an image shows.

ghost use Rattle.std.specs.Prelude.{◌≡◌, ◌+◌, ◌-◌, ◌==◌, ◌&&◌, ◌^◌, ◌<◌, ◌≤◌, ◌<ℤ◌, ◌≤ℤ◌, ◌+ℤ◌, pos, ℕ, ℤ, false, true, length, slice_index_or, take, IfSome, IsTrue};
ghost use Rattle.std.specs.List.{position};
ghost use Rattle.r9_geom.specs.declared.Point.{Point as Spot};
ghost use Rattle.r9_geom.specs.Geometry.{carried, holds, strip, IsNear};
ghost use Rattle.r9_plane.specs.Pixels.{along};
ghost use Rattle.model_forest.specs.declared.Window.{Window as Listed};
ghost use Rattle.model_forest.specs.View.{is_bare, top_window};
ghost use Rattle.model_forest.specs.World.{image_at, IsLive};
ghost use Rattle.model_kept.specs.Keeping.{keeping, own};
ghost use Rattle.r9_locate.specs.locate.Table.{shape};
ghost use Rattle.r9_shown.specs.Blocks.{IsKeptFrom};
ghost use Rattle.r9_shown.specs.Shown as spec;
ghost use Rattle.r9_shown.specs.Shown.{IsEnd, IsKeptBelow};

use model_forest::Window;
use r9_geom::{Point, Rect, distance};
use r9_locate::locate::{Frame, Lists, along};

/// So many columns and rows, from a point on.
#[derive(Clone, Copy)]
pub struct Extent {
    pub columns: usize,
    pub rows: u64,
}

/// Whether no window stands over a block, or one does over all of it.
#[derive(Clone, Copy)]
pub struct Cover {
    pub bare: bool,
    pub extent: Extent,
}

/// The topmost window over a block.
#[derive(Clone, Copy)]
pub struct Top {
    pub window: Option<Window>,
    pub extent: Extent,
}

/// A block of points, where an image keeps them itself.
#[derive(Clone, Copy)]
pub struct Block {
    pub image: u32,
    pub at: Point,
    pub extent: Extent,
}

// Whether a number is not above another, or less than so many above it.
fn is_before(at: i64, low: i64, n: u64) -> bool
    ensures { result ≡ false → (low +ℤ pos n) ≤ℤ at }
{
    if at <= low {
        return true;
    }
    distance(low, at) < n
}

// Whether a rectangle begins before a block ends: where not, it has no point of it.
fn begins_in(r: &Rect, q: Point, most: Extent) -> bool
    ensures { result ≡ false → (z : Spot) → IsTrue (holds (spec.block q most.columns most.rows) z) → holds r.now z ≡ false }
{
    if !is_before(r.min.y, q.y, most.rows) {
        return false;
    }
    is_before(r.min.x, q.x, most.columns as u64)
}

/// For how many columns and rows from a point on a rectangle holds all points or none.
pub fn cut(r: &Rect, q: Point, most: Extent) -> Extent
    requires columns { 0 < most.columns }
    requires rows { 0 < most.rows }
    ensures some { 0 < result.columns }
    ensures some_rows { 0 < result.rows }
    ensures most { result.columns ≤ most.columns }
    ensures most_rows { result.rows ≤ most.rows }
    ensures same { (z : Spot) → IsTrue (holds (spec.block q result.columns result.rows) z) → holds r.now z ≡ holds r.now q }
{
    if r.max.x <= q.x {
        return most;
    }
    if r.max.y <= q.y {
        return most;
    }
    if !begins_in(r, q, most) {
        return most;
    }
    cut_near(r, q, most)
}

// The same of a rectangle that ends to the right of the point and below it.
fn cut_near(r: &Rect, q: Point, most: Extent) -> Extent
    requires columns { 0 < most.columns }
    requires rows { 0 < most.rows }
    requires right { q.x <ℤ r.now.max.x }
    requires bottom { q.y <ℤ r.now.max.y }
    ensures some { 0 < result.columns }
    ensures some_rows { 0 < result.rows }
    ensures most { result.columns ≤ most.columns }
    ensures most_rows { result.rows ≤ most.rows }
    ensures same { (z : Spot) → IsTrue (holds (spec.block q result.columns result.rows) z) → holds r.now z ≡ holds r.now q }
{
    let Extent { columns, rows } = most;
    if q.x < r.min.x {
        return cut_left(r, q, most);
    }
    if q.y < r.min.y {
        return Extent {
            columns,
            rows: rows.min(distance(q.y, r.min.y)),
        };
    }
    Extent {
        columns: columns.min(distance(q.x, r.max.x) as usize),
        rows: rows.min(distance(q.y, r.max.y)),
    }
}

// The same left of the rectangle: where it begins below, as many columns as there are.
fn cut_left(r: &Rect, q: Point, most: Extent) -> Extent
    requires columns { 0 < most.columns }
    requires rows { 0 < most.rows }
    requires left { q.x <ℤ r.now.min.x }
    ensures some { 0 < result.columns }
    ensures some_rows { 0 < result.rows }
    ensures most { result.columns ≤ most.columns }
    ensures most_rows { result.rows ≤ most.rows }
    ensures same { (z : Spot) → IsTrue (holds (spec.block q result.columns result.rows) z) → holds r.now z ≡ holds r.now q }
{
    let Extent { columns, rows } = most;
    let before = distance(q.x, r.min.x) as usize;
    if q.y < r.min.y && before < columns {
        return Extent {
            columns,
            rows: rows.min(distance(q.y, r.min.y)),
        };
    }
    Extent {
        columns: columns.min(before),
        rows,
    }
}

// Where so many numbers from one on end, or the last number of 64 bits where they end beyond it.
fn past(low: i64, n: u64) -> i64
    ensures { IsEnd low n result }
{
    low.saturating_add_unsigned(n)
}

// Where a block ends, to the right and below.
fn end_of(q: Point, extent: Extent) -> Point
    ensures columns { IsEnd q.x extent.columns result.x }
    ensures rows { IsEnd q.y extent.rows result.y }
{
    Point {
        x: past(q.x, extent.columns as u64),
        y: past(q.y, extent.rows),
    }
}

// Whether the numbers from low up to high may have some of those from one on, which end there.
fn may_meet(from: i64, end: i64, low: i64, high: i64) -> bool
    ensures past { result ≡ true → from <ℤ high }
    ensures off { result ≡ false → (n : ℕ) (at : ℤ) → IsEnd from n end → low ≤ℤ at → at <ℤ high → from ≤ℤ at → (from +ℤ pos n) ≤ℤ at }
{
    if end <= low {
        return false;
    }
    from < high
}

// Whether a rectangle may have points of a block, of which the first point and the end are given.
fn may_reach(r: &Rect, q: Point, end: Point) -> bool
    ensures right { result ≡ true → q.x <ℤ r.now.max.x }
    ensures bottom { result ≡ true → q.y <ℤ r.now.max.y }
    ensures off { result ≡ false → (columns rows : ℕ) → IsEnd q.x columns end.x → IsEnd q.y rows end.y → (z : Spot) → IsTrue (holds (spec.block q columns rows) z) → holds r.now z ≡ false }
{
    if !may_meet(q.y, end.y, r.min.y, r.max.y) {
        return false;
    }
    may_meet(q.x, end.x, r.min.x, r.max.x)
}

/// Whether a window of a list stands at a point, and over how large a block from there on. The lowest ones are tried first: in a
/// pile they are the ones that hide the most.
pub fn cover_over(windows: &[Window], q: Point, most: Extent) -> Cover
    requires columns { 0 < most.columns }
    requires rows { 0 < most.rows }
    ensures some { 0 < result.extent.columns }
    ensures some_rows { 0 < result.extent.rows }
    ensures most { result.extent.columns ≤ most.columns }
    ensures most_rows { result.extent.rows ≤ most.rows }
    ensures same { (z : Spot) → IsTrue (holds (spec.block q result.extent.columns result.extent.rows) z) → is_bare windows.now z ≡ result.bare }
{
    let mut extent = most;
    let mut end = end_of(q, most);
    let mut left = windows.len();
    while left > 0 {
        left -= 1;
        let place = &windows[left].place;
        if may_reach(place, q, end) {
            if place.holds(q) {
                return Cover {
                    bare: false,
                    extent: cut_near(place, q, most),
                };
            }
            extent = cut_near(place, q, extent);
            end = end_of(q, extent);
        }
    }
    Cover { bare: true, extent }
}

/// The topmost window of a list at a point, and over how large a block from there on.
pub fn top_over(windows: &[Window], q: Point, most: Extent) -> Top
    requires columns { 0 < most.columns }
    requires rows { 0 < most.rows }
    ensures some { 0 < result.extent.columns }
    ensures some_rows { 0 < result.extent.rows }
    ensures most { result.extent.columns ≤ most.columns }
    ensures most_rows { result.extent.rows ≤ most.rows }
    ensures same { (z : Spot) → IsTrue (holds (spec.block q result.extent.columns result.extent.rows) z) → top_window windows.now z ≡ result.window }
{
    let mut extent = most;
    let mut end = end_of(q, most);
    let mut at = 0;
    while at < windows.len() {
        let w = windows[at];
        at += 1;
        if may_reach(&w.place, q, end) {
            extent = cut_near(&w.place, q, extent);
            if w.place.holds(q) {
                return Top {
                    window: Some(w),
                    extent,
                };
            }
            end = end_of(q, extent);
        }
    }
    Top {
        window: None,
        extent,
    }
}

// Whether one of four windows of a list, from one on, is of an image.
fn is_among(windows: &[Window], at: usize, i: u32) -> bool
    requires { at + 4 ≤ length windows.now }
    ensures { result ≡ false → (k : ℕ) (d : Listed) → at ≤ k → k < at + 4 → ((slice_index_or windows.now k d).image == i) ≡ false }
{
    if windows[at].image == i {
        return true;
    }
    if windows[at + 1].image == i {
        return true;
    }
    if windows[at + 2].image == i {
        return true;
    }
    windows[at + 3].image == i
}

// Where a window stands in a list. They are looked at by fours, which is twice as fast.
fn place_in(windows: &[Window], i: u32) -> Option<usize>
    ensures first { result ≡ position (λ w. w.image == i) windows.now }
    ensures within { IfSome result (λ at. at < length windows.now) }
{
    let mut at = 0;
    while windows.len() - at >= 4 {
        if is_among(windows, at, i) {
            break;
        }
        at += 4;
    }
    while at < windows.len() {
        if windows[at].image == i {
            return Some(at);
        }
        at += 1;
    }
    None
}

// Whether an image shows a window of it that stands at a point, and over how large a block from there on: it does where the
// image has the points, and none of the windows above it.
fn shown_over(below: &Frame, at: usize, q: Point, most: Extent) -> Cover
    requires window { at < length below.now.windows.items }
    requires columns { 0 < most.columns }
    requires rows { 0 < most.rows }
    ensures some { 0 < result.extent.columns }
    ensures some_rows { 0 < result.extent.rows }
    ensures most { result.extent.columns ≤ most.columns }
    ensures most_rows { result.extent.rows ≤ most.rows }
    ensures same { (z : Spot) → IsTrue (holds (spec.block q result.extent.columns result.extent.rows) z) → (holds below.now.r z && is_bare (take at below.now.windows.items) z) ≡ result.bare }
{
    let within = cut(&below.r, q, most);
    if !below.r.holds(q) {
        return Cover {
            bare: false,
            extent: within,
        };
    }
    cover_over(&below.windows[..at], q, within)
}

/// Where the first points of a block of an image are kept: those from its upper left corner on, over so many columns and rows.
pub fn block_of(lists: &Lists, i: u32, at: Point, most: Extent) -> Block
    requires live { IsLive (shape lists.now) i }
    requires columns { 0 < most.columns }
    requires rows { 0 < most.rows }
    requires inside { (p : Spot) → IsTrue (holds (spec.block at most.columns most.rows) p) → IsTrue (holds (image_at (shape lists.now) i).r p) }
    ensures some { 0 < result.extent.columns }
    ensures some_rows { 0 < result.extent.rows }
    ensures most { result.extent.columns ≤ most.columns }
    ensures most_rows { result.extent.rows ≤ most.rows }
    ensures kept { (p : Spot) → IsTrue (holds (spec.block at result.extent.columns result.extent.rows) p) → keeping (shape lists.now) i p ≡ own result.image (carried p at result.at) }
{
    let mut block = Block {
        image: i,
        at,
        extent: most,
    };
    while let Some(standing) = lists.get(block.image).standing {
        let below = lists.get(standing.parent);
        let Some(k) = place_in(&below.windows, block.image) else {
            return block;
        };
        let from = lists.get(block.image).r.min;
        let q = block.at.carried(from, below.windows[k].place.min);
        let shown = shown_over(below, k, q, block.extent);
        block.extent = shown.extent;
        if !shown.bare {
            return block;
        }
        block.image = standing.parent;
        block.at = q;
    }
    block
}

/// The last block of so many columns of the first row, of which the first block is known: all of them are kept for its rows as in
/// the first one.
pub(crate) fn last_block(lists: &Lists, i: u32, at: Point, columns: usize, first: &Block) -> Block
    requires live { IsLive (shape lists.now) i }
    requires near { IsNear at }
    requires columns { columns ≤ 2 ^ 41 }
    requires some { 0 < first.now.extent.columns }
    requires fits { first.now.extent.columns ≤ columns }
    requires rows { 0 < first.now.extent.rows }
    requires kept { IsKeptFrom (shape lists.now) i at first.now }
    requires inside { (p : Spot) → IsTrue (holds (spec.block at columns first.now.extent.rows) p) → IsTrue (holds (image_at (shape lists.now) i).r p) }
    ensures some { 0 < result.extent.columns }
    ensures fits { result.extent.columns ≤ columns }
    ensures some_rows { 0 < result.extent.rows }
    ensures most { result.extent.rows ≤ first.now.extent.rows }
    ensures kept { IsKeptFrom (shape lists.now) i (along at (columns - result.extent.columns)) result }
    ensures same { (z : Spot) (k : ℕ) → IsTrue (holds (strip at columns) z) → k < result.extent.rows → IsKeptBelow (shape lists.now) i z k }
{
    let mut last = *first;
    let mut done = last.extent.columns;
    while done < columns {
        let most = Extent {
            columns: columns - done,
            rows: last.extent.rows,
        };
        last = block_of(lists, i, along(at, done), most);
        done += last.extent.columns;
    }
    last
}
