//! Blocks of points over which the same windows are topmost, before and after.

ghost use Rattle.std.specs.Prelude.{◌≡◌, ◌≢◌, ◌-◌, ◌^◌, ◌++◌, ◌<◌, ◌≤◌, ◌<ℤ◌, ◌≤ℤ◌, ℕ, ℤ, true, false, length, drop, take, All, IsTrue};
ghost use Rattle.r9_geom.specs.declared.Point.{Point as Spot};
ghost use Rattle.r9_geom.specs.Geometry.{holds, is_point, strip, IsNear};
ghost use Rattle.r9_plane.specs.Pixels.{along};
ghost use Rattle.model_forest.specs.declared.Window.{Window as Stood};
ghost use Rattle.model_forest.specs.Stack.{without};
ghost use Rattle.model_forest.specs.View.{is_bare, top_window};
ghost use Rattle.r9_shown.specs.Shown as spec;
ghost use Rattle.r9_restack.specs.Stacks.{after_of, before_of, is_window, tops_at, IsFront, IsRunAlong};

use model_forest::Window;
use r9_geom::{Point, Rect};
use r9_locate::locate::along;
use r9_shown::{Extent, Top, cover_over, top_over};

/// The windows of an image, before and after: those with which both lists begin, and the others. The others of the list of
/// after are in two parts, the upper windows first.
#[derive(Clone, Copy)]
pub(crate) struct Stacks<'a> {
    pub(crate) front: &'a [Window],
    pub(crate) old: &'a [Window],
    pub(crate) upper: &'a [Window],
    pub(crate) lower: &'a [Window],
}

/// The topmost windows, before and after.
#[derive(Clone, Copy)]
pub(crate) struct Tops {
    pub(crate) before: Option<Window>,
    pub(crate) after: Option<Window>,
}

/// What is topmost over a block: nothing is told where a window stands with which both lists begin.
#[derive(Clone, Copy)]
pub(crate) struct Run {
    pub(crate) tops: Option<Tops>,
    pub(crate) extent: Extent,
}

// The topmost window of a list in two parts, the upper windows first.
fn top_of(upper: &[Window], lower: &[Window], q: Point, most: Extent) -> Top
    requires columns { 0 < most.columns }
    requires rows { 0 < most.rows }
    ensures some { 0 < result.extent.columns }
    ensures some_rows { 0 < result.extent.rows }
    ensures most { result.extent.columns ≤ most.columns }
    ensures most_rows { result.extent.rows ≤ most.rows }
    ensures same { (z : Spot) → IsTrue (holds (spec.block q result.extent.columns result.extent.rows) z) → top_window (upper.now ++ lower.now) z ≡ result.window }
{
    let first = top_over(upper, q, most);
    if first.window.is_some() {
        return first;
    }
    top_over(lower, q, first.extent)
}

// Whether the numbers from one up to another may have some of those from low up to high.
fn may_meet(from: i64, to: i64, low: i64, high: i64) -> bool
    ensures { result ≡ false → (at : ℤ) → low ≤ℤ at → at <ℤ high → from ≤ℤ at → to ≤ℤ at }
{
    if high <= from {
        return false;
    }
    low < to
}

// Whether a rectangle may have points of another.
fn is_near(r: &Rect, area: &Rect) -> bool
    ensures { result ≡ false → (z : Spot) → IsTrue (holds area.now z) → holds r.now z ≡ false }
{
    if !may_meet(r.min.x, r.max.x, area.min.x, area.max.x) {
        return false;
    }
    may_meet(r.min.y, r.max.y, area.min.y, area.max.y)
}

// How many windows of a list there are before the first one that may have points of an area.
fn count_off(windows: &[Window], area: &Rect) -> usize
    ensures most { result ≤ length windows.now }
    ensures off { (z : Spot) → IsTrue (holds area.now z) → is_bare (take result windows.now) z ≡ true }
{
    for count in 0..windows.len() {
        if is_near(&windows[count].place, area) {
            return count;
        }
    }
    windows.len()
}

// How many windows of a list there are up to the last one that may have points of an area.
fn count_near(windows: &[Window], area: &Rect) -> usize
    ensures most { result ≤ length windows.now }
    ensures off { (z : Spot) → IsTrue (holds area.now z) → is_bare (drop result windows.now) z ≡ true }
{
    let mut count = windows.len();
    while count > 0 {
        if is_near(&windows[count - 1].place, area) {
            return count;
        }
        count -= 1;
    }
    0
}

// The windows of a list from the first to the last one that may have points of an area.
fn within<'a>(windows: &'a [Window], area: &Rect) -> &'a [Window]
    ensures same { (z : Spot) → IsTrue (holds area.now z) → top_window result.now z ≡ top_window windows.now z }
    ensures apart { (w : ℕ) → All (λ (v : Stood). v.image ≢ w) windows.now → All (λ (v : Stood). v.image ≢ w) result.now }
{
    let upper = &windows[..count_near(windows, area)];
    &upper[count_off(upper, area)..]
}

/// The windows, before and after, that may have points of an area.
pub(crate) fn stacks_within<'a>(stacks: &Stacks<'a>, area: &Rect) -> Stacks<'a>
    ensures same { (z : Spot) → IsTrue (holds area.now z) → tops_at result z ≡ tops_at stacks.now z }
    ensures apart { (w : ℕ) → All (λ (v : Stood). v.image ≢ w) stacks.now.front.now → All (λ (v : Stood). v.image ≢ w) result.front.now }
{
    Stacks {
        front: within(stacks.front, area),
        old: within(stacks.old, area),
        upper: within(stacks.upper, area),
        lower: within(stacks.lower, area),
    }
}

/// What is topmost at a point, and over how large a block from there on.
pub(crate) fn run_of(stacks: &Stacks, q: Point, most: Extent) -> Run
    requires columns { 0 < most.columns }
    requires rows { 0 < most.rows }
    ensures some { 0 < result.extent.columns }
    ensures some_rows { 0 < result.extent.rows }
    ensures most { result.extent.columns ≤ most.columns }
    ensures most_rows { result.extent.rows ≤ most.rows }
    ensures same { (z : Spot) → IsTrue (holds (spec.block q result.extent.columns result.extent.rows) z) → tops_at stacks.now z ≡ result.tops }
{
    let front = cover_over(stacks.front, q, most);
    if !front.bare {
        return Run {
            tops: None,
            extent: front.extent,
        };
    }
    let before = top_over(stacks.old, q, front.extent);
    let after = top_of(stacks.upper, stacks.lower, q, before.extent);
    Run {
        tops: Some(Tops {
            before: before.window,
            after: after.window,
        }),
        extent: after.extent,
    }
}

/// The last run of so many columns of the first row, of which the first run is known: in all of them the same windows are topmost
/// for its rows as in the first one.
pub(crate) fn last_run(stacks: &Stacks, at: Point, columns: usize, first: &Run) -> Run
    requires near { IsNear at }
    requires columns { columns ≤ 2 ^ 41 }
    requires some { 0 < first.now.extent.columns }
    requires fits { first.now.extent.columns ≤ columns }
    requires rows { 0 < first.now.extent.rows }
    requires same { (z : Spot) → IsTrue (holds (spec.block at first.now.extent.columns first.now.extent.rows) z) → tops_at stacks.now z ≡ first.now.tops }
    ensures some { 0 < result.extent.columns }
    ensures fits { result.extent.columns ≤ columns }
    ensures some_rows { 0 < result.extent.rows }
    ensures most { result.extent.rows ≤ first.now.extent.rows }
    ensures tops { IsRunAlong stacks.now (along at (columns - result.extent.columns)) result }
    ensures same { (z : Spot) (k : ℕ) → IsTrue (holds (strip at columns) z) → k < result.extent.rows → tops_at stacks.now (spec.down z k) ≡ tops_at stacks.now z }
{
    let mut last = *first;
    let mut done = last.extent.columns;
    while done < columns {
        let most = Extent {
            columns: columns - done,
            rows: last.extent.rows,
        };
        last = run_of(stacks, along(at, done), most);
        done += last.extent.columns;
    }
    last
}

// Whether two points are one.
fn is_point(a: Point, b: Point) -> bool
    ensures { result ≡ is_point a b }
{
    a.x == b.x && a.y == b.y
}

// Whether two windows are one.
fn is_same(a: &Window, b: &Window) -> bool
    ensures { result ≡ is_window a.now b.now }
{
    a.image == b.image && is_point(a.place.min, b.place.min) && is_point(a.place.max, b.place.max)
}

// Whether two lists go on with the same window, which is not image w.
fn goes_on(old: &Window, new: &Window, w: u32) -> bool
    ensures same { result ≡ true → old.now ≡ new.now }
    ensures apart { result ≡ true → new.now.image ≢ w }
{
    if new.image == w {
        return false;
    }
    is_same(old, new)
}

/// With how many windows two lists begin before that of image w, where they are the same but for that.
pub fn count_front(old: &[Window], new: &[Window], w: u32) -> usize
    requires { without w new.now ≡ without w old.now }
    ensures { IsFront old.now new.now w result }
{
    let most = old.len().min(new.len());
    for count in 0..most {
        if old[count].image == w || new[count].image == w {
            return count;
        }
    }
    most
}

/// With how many windows two lists begin before one that differs, or that of image w.
pub(crate) fn count_same(old: &[Window], new: &[Window], w: u32) -> usize
    ensures { IsFront old.now new.now w result }
{
    let most = old.len().min(new.len());
    for count in 0..most {
        if !goes_on(&old[count], &new[count], w) {
            return count;
        }
    }
    most
}

/// The windows of an image before and after, where both lists begin with so many, among which image w is not.
pub(crate) fn stacks_of<'a>(old: &'a [Window], new: &'a [Window], from: usize, w: u32) -> Stacks<'a>
    requires { IsFront old.now new.now w from }
    ensures before { before_of result ≡ old.now }
    ensures after { after_of result ≡ new.now }
    ensures apart { All (λ (v : Stood). v.image ≢ w) result.front.now }
{
    Stacks {
        front: &new[..from],
        old: &old[from..],
        upper: &new[from..],
        lower: &[],
    }
}

/// The windows of an image before and after, where image w leaves the list in two parts, the upper windows first.
pub(crate) fn stacks_around<'a>(
    old: &'a [Window],
    upper: &'a [Window],
    lower: &'a [Window],
    w: u32,
) -> Stacks<'a>
    requires { IsFront old.now upper.now w (length upper.now) }
    ensures before { before_of result ≡ old.now }
    ensures after { after_of result ≡ upper.now ++ lower.now }
    ensures apart { All (λ (v : Stood). v.image ≢ w) result.front.now }
{
    Stacks {
        front: upper,
        old: &old[upper.len()..],
        upper: &[],
        lower,
    }
}
