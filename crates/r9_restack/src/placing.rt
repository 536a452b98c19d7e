//! A window that came or moved is put where it stands then: what shows of it on the image below, and what is hidden with it.

ghost use Rattle.std.specs.Prelude.{◌≡◌, ◌≢◌, ◌+◌, ◌-◌, ◌*◌, ◌^◌, ◌<◌, ◌≤◌, ◌&&◌, ◌||◌, ℕ, Bool, false, true, length, All, IsTrue, Some, None};
ghost use Rattle.r9_geom.specs.declared.Point.{Point as Spot};
ghost use Rattle.r9_geom.specs.Geometry.{area_of, carried, holds, strip, IsNear, IsNearBy, IsOrdered, IsRectNear};
ghost use Rattle.r9_plane.specs.Pixels.{along};
ghost use Rattle.model_forest.specs.declared.Window.{Window as Stood};
ghost use Rattle.model_forest.specs.World.{image_at, parent_of};
ghost use Rattle.model_kept.specs.Keeping.{own, Place};
ghost use Rattle.r9_locate.specs.locate.Forms.{bits_in, HasBits};
ghost use Rattle.r9_locate.specs.locate.Table.{shape};
ghost use Rattle.r9_shown.specs.Shown as spec;
ghost use Rattle.r9_restack.specs.Changing.{HasPlacesBut, IsChange};
ghost use Rattle.r9_restack.specs.Placing.{comes, shows, with_coming, IsComing, IsPlaced};
ghost use Rattle.r9_restack.specs.Stacks.{after_of, tops_at, IsStacked};
ghost use Rattle.r9_restack.specs.Showing.{shown_at, shows_in, IsPartAlong};

use super::changing::{LONGEST, change_block};
use super::giving::{Source, Supply};
use super::stacks::{Stacks, Tops, run_of, stacks_within};
use r9_geom::{Point, Rect};
use r9_locate::locate::{Lists, Pixels, along};
use r9_marks::steps::Steps;
use r9_shown::{Extent, block, cut, down};
use std::sync::ledger::Ledger;

// How many pixels of a row are put at a time.
const BLOCK: usize = 256;

// Where the window that is put shows: whether that is in an area that is done, and what is topmost.
#[derive(Clone, Copy)]
struct Shown {
    done: bool,
    tops: Option<Tops>,
}

// What is known of a block of its points: nothing where it is hidden.
#[derive(Clone, Copy)]
struct Part {
    shown: Option<Shown>,
    extent: Extent,
}

// Whether window w shows at a point of the image below, and over how large a block from there on.
fn part_of(below: &Rect, area: &Rect, stacks: &Stacks, w: u32, q: Point, most: Extent) -> Part
    requires columns { 0 < most.columns }
    requires rows { 0 < most.rows }
    requires apart { All (λ (v : Stood). v.image ≢ w) stacks.now.front.now }
    ensures some { 0 < result.extent.columns }
    ensures some_rows { 0 < result.extent.rows }
    ensures most { result.extent.columns ≤ most.columns }
    ensures most_rows { result.extent.rows ≤ most.rows }
    ensures same { (z : Spot) → IsTrue (holds (spec.block q result.extent.columns result.extent.rows) z) → shown_at below.now area.now stacks.now w z ≡ result.shown }
{
    let within = cut(below, q, most);
    if !below.holds(q) {
        return Part {
            shown: None,
            extent: within,
        };
    }
    let run = run_of(stacks, q, within);
    if !is_after(run.tops, w) {
        return Part {
            shown: None,
            extent: run.extent,
        };
    }
    let shown = Shown {
        done: area.holds(q),
        tops: run.tops,
    };
    Part {
        shown: Some(shown),
        extent: cut(area, q, run.extent),
    }
}

// Whether window w is topmost after.
fn is_after(tops: Option<Tops>, w: u32) -> bool
    ensures { result ≡ shows_in tops w }
{
    match tops {
        None => false,
        Some(tops) => match tops.after {
            None => false,
            Some(v) => v.image == w,
        },
    }
}

// The last part of so many columns of the first row, of which the first part is known: in all of them that is so for its rows as
// in the first one.
fn last_part(
    below: &Rect,
    area: &Rect,
    stacks: &Stacks,
    w: u32,
    at: Point,
    columns: usize,
    first: &Part,
) -> Part
    requires near { IsNear at }
    requires columns { columns ≤ 2 ^ 41 }
    requires some { 0 < first.now.extent.columns }
    requires fits { first.now.extent.columns ≤ columns }
    requires rows { 0 < first.now.extent.rows }
    requires apart { All (λ (v : Stood). v.image ≢ w) stacks.now.front.now }
    requires same { (z : Spot) → IsTrue (holds (spec.block at first.now.extent.columns first.now.extent.rows) z) → shown_at below.now area.now stacks.now w z ≡ first.now.shown }
    ensures some { 0 < result.extent.columns }
    ensures fits { result.extent.columns ≤ columns }
    ensures some_rows { 0 < result.extent.rows }
    ensures most { result.extent.rows ≤ first.now.extent.rows }
    ensures shown { IsPartAlong below.now area.now stacks.now w (along at (columns - result.extent.columns)) result }
    ensures same { (z : Spot) (k : ℕ) → IsTrue (holds (strip at columns) z) → k < result.extent.rows → shown_at below.now area.now stacks.now w (spec.down z k) ≡ shown_at below.now area.now stacks.now w z }
{
    let mut last = *first;
    let mut done = last.extent.columns;
    while done < columns {
        let most = Extent {
            columns: columns - done,
            rows: last.extent.rows,
        };
        last = part_of(below, area, stacks, w, along(at, done), most);
        done += last.extent.columns;
    }
    last
}

// Writes given pixels of a window side by side with it.
fn keep_run<P: Pixels, S: Source, L: Ledger>(
    pixels: &mut P,
    source: &S,
    w: u32,
    x: Point,
    raws: &mut [u32],
    steps: &mut Steps<L>,
)
    requires has { (k : ℕ) → k < length raws.old → P.has pixels.old (own w (along x k)) ≡ true }
    requires below { (z : Spot) → S.given source.now z < 2 ^ bits_in (P.forms pixels.old) w }
    ensures at { (k : ℕ) → k < length raws.old → P.kept pixels.new (own w (along x k)) ≡ S.given source.now (along x k) }
    ensures others { (place : Place) → ((k : ℕ) → k < length raws.old → place ≢ own w (along x k)) → P.kept pixels.new place ≡ P.kept pixels.old place }
    ensures has { P.has pixels.new ≡ P.has pixels.old }
    ensures forms { P.forms pixels.new ≡ P.forms pixels.old }
    ensures moment { P.moment pixels.new ≡ P.moment pixels.old }
    ensures spare { P.spare pixels.new ≡ P.spare pixels.old }
    ensures steps { steps.new ≡ steps.old + length raws.old }
    ensures writes { P.writes pixels.new + steps.old ≡ P.writes pixels.old + steps.new }
{
    source.give(x, raws);
    pixels.write(w, x, raws, steps);
}

// The same of any number of them, so many at a time.
fn keep_strip<P: Pixels, S: Source, L: Ledger>(
    pixels: &mut P,
    source: &S,
    w: u32,
    x: Point,
    n: usize,
    steps: &mut Steps<L>,
)
    requires near { IsNearBy (2 ^ 42) x }
    requires width { n ≤ 2 ^ 41 }
    requires has { (k : ℕ) → k < n → P.has pixels.old (own w (along x k)) ≡ true }
    requires below { (z : Spot) → S.given source.now z < 2 ^ bits_in (P.forms pixels.old) w }
    ensures at { (k : ℕ) → k < n → P.kept pixels.new (own w (along x k)) ≡ S.given source.now (along x k) }
    ensures others { (place : Place) → ((k : ℕ) → k < n → place ≢ own w (along x k)) → P.kept pixels.new place ≡ P.kept pixels.old place }
    ensures has { P.has pixels.new ≡ P.has pixels.old }
    ensures forms { P.forms pixels.new ≡ P.forms pixels.old }
    ensures moment { P.moment pixels.new ≡ P.moment pixels.old }
    ensures spare { P.spare pixels.new ≡ P.spare pixels.old }
    ensures steps { steps.new ≡ steps.old + n }
    ensures writes { P.writes pixels.new + steps.old ≡ P.writes pixels.old + steps.new }
{
    let mut raws = [0; BLOCK];
    let mut done = 0;
    while done < n {
        let len = (n - done).min(BLOCK);
        keep_run(pixels, source, w, along(x, done), &mut raws[..len], steps);
        done += len;
    }
}

// The same of a block of them.
fn keep_block<P: Pixels, S: Source, L: Ledger>(
    pixels: &mut P,
    source: &S,
    w: u32,
    x: Point,
    columns: usize,
    rows: u64,
    steps: &mut Steps<L>,
)
    requires near { IsRectNear (spec.block x columns rows) }
    requires some { 0 < columns }
    requires some_rows { 0 < rows }
    requires columns { columns ≤ 2 ^ 41 }
    requires rows { rows ≤ 2 ^ 41 }
    requires has { (z : Spot) → IsTrue (holds (spec.block x columns rows) z) → P.has pixels.old (own w z) ≡ true }
    requires below { (z : Spot) → S.given source.now z < 2 ^ bits_in (P.forms pixels.old) w }
    ensures at { (z : Spot) → IsTrue (holds (spec.block x columns rows) z) → P.kept pixels.new (own w z) ≡ S.given source.now z }
    ensures others { (place : Place) → ((z : Spot) → IsTrue (holds (spec.block x columns rows) z) → place ≢ own w z) → P.kept pixels.new place ≡ P.kept pixels.old place }
    ensures has { P.has pixels.new ≡ P.has pixels.old }
    ensures forms { P.forms pixels.new ≡ P.forms pixels.old }
    ensures moment { P.moment pixels.new ≡ P.moment pixels.old }
    ensures spare { P.spare pixels.new ≡ P.spare pixels.old }
    ensures steps { steps.new ≡ steps.old + columns * rows }
    ensures writes { P.writes pixels.new + steps.old ≡ P.writes pixels.old + steps.new }
{
    let r = block(x, columns, rows);
    match source.given_in(&r) {
        Supply::Plain(raw) => pixels.fill_block(w, &r, raw, steps),
        Supply::Rows { raws, first, width } => {
            pixels.write_block(w, &r, raws, first, width, steps);
        }
        Supply::Untold => {
            for row in 0..rows {
                keep_strip(pixels, source, w, down(x, row), columns, steps);
            }
        }
    }
}

// Puts the points of a block of window w, from x on, which stand from q on on the image below: where they show, on that, unless
// that is done, and else with the window.
fn place_block<P: Pixels, S: Source, L: Ledger>(
    lists: &Lists,
    pixels: &mut P,
    source: &S,
    p: u32,
    w: u32,
    stacks: &Stacks,
    area: &Rect,
    shown: Option<Shown>,
    x: Point,
    q: Point,
    columns: usize,
    rows: u64,
    steps: &mut Steps<L>,
)
    requires change { IsChange (shape lists.now) p (after_of stacks.now) w }
    requires stacks { IsStacked (shape lists.now) p w stacks.now }
    requires above { parent_of (shape lists.now) w ≡ Some p }
    requires near { IsRectNear (spec.block x columns rows) }
    requires some { 0 < columns }
    requires some_rows { 0 < rows }
    requires columns { columns ≤ 2 ^ 40 }
    requires rows { rows ≤ 2 ^ 41 }
    requires shown { (z : Spot) → IsTrue (holds (spec.block q columns rows) z) → shown_at (image_at (shape lists.now) p).r area.now stacks.now w z ≡ shown }
    requires near_new { All (λ v. IsNear v.place.min) (after_of stacks.now) }
    requires places { HasPlacesBut (shape lists.now) p (after_of stacks.now) w (P.has pixels.old) }
    requires bits { HasBits (shape lists.now) (P.forms pixels.old) }
    requires given { (z : Spot) → S.given source.now z < 2 ^ bits_in (P.forms pixels.old) p }
    requires fill { (z : Spot) → S.fill source.now z < 2 ^ bits_in (P.forms pixels.old) p }
    requires own { shown ≡ None → (z : Spot) → IsTrue (holds (spec.block x columns rows) z) → P.has pixels.old (own w z) ≡ true }
    ensures moved { (before : Place → ℕ) (done : Spot → Bool) → IsComing (spec.block q columns rows) (comes (image_at (shape lists.now) p).r area.now (after_of stacks.now) w) done → IsPlaced (shape lists.now) p (after_of stacks.now) w (S.given source.now) (S.fill source.now) before (P.kept pixels.old) done → IsPlaced (shape lists.now) p (after_of stacks.now) w (S.given source.now) (S.fill source.now) before (P.kept pixels.new) (with_coming (spec.block q columns rows) (comes (image_at (shape lists.now) p).r area.now (after_of stacks.now) w) done) }
    ensures kept { shown ≡ None → (z : Spot) → IsTrue (holds (spec.block x columns rows) z) → P.kept pixels.new (own w z) ≡ S.given source.now z }
    ensures others { (z : Spot) → holds (spec.block x columns rows) z ≡ false → P.kept pixels.new (own w z) ≡ P.kept pixels.old (own w z) }
    ensures has { P.has pixels.new ≡ P.has pixels.old }
    ensures forms { P.forms pixels.new ≡ P.forms pixels.old }
    ensures moment { P.moment pixels.new ≡ P.moment pixels.old }
    ensures spare { P.spare pixels.new ≡ P.spare pixels.old }
    ensures steps { steps.new ≤ steps.old + 2 * (columns * rows) }
    ensures writes { P.writes pixels.new + steps.old ≡ P.writes pixels.old + steps.new }
{
    let Some(shown) = shown else {
        keep_block(pixels, source, w, x, columns, rows, steps);
        return;
    };
    if !shown.done {
        change_block(
            lists, pixels, source, p, w, stacks, shown.tops, q, columns, rows, steps,
        );
    }
}

// Whether window w shows at a point of a row, of which so many columns are left and the last part is known.
fn part_from(
    below: &Rect,
    area: &Rect,
    stacks: &Stacks,
    w: u32,
    q: Point,
    columns: usize,
    rows: u64,
    last: &Part,
) -> Part
    requires columns { 0 < columns }
    requires rows { 0 < rows }
    requires apart { All (λ (v : Stood). v.image ≢ w) stacks.now.front.now }
    requires last { columns ≡ last.now.extent.columns → IsPartAlong below.now area.now stacks.now w q last.now }
    ensures some { 0 < result.extent.columns }
    ensures most { result.extent.columns ≤ columns }
    ensures short { result.extent.columns ≤ 2 ^ 40 }
    ensures shown { IsPartAlong below.now area.now stacks.now w q result }
{
    if columns == last.extent.columns && columns <= LONGEST {
        return *last;
    }
    let most = Extent {
        columns: columns.min(LONGEST),
        rows,
    };
    part_of(below, area, stacks, w, q, most)
}

// The same of rows in each column of which that is known, and the last of whose parts is.
fn place_band<P: Pixels, S: Source, L: Ledger>(
    lists: &Lists,
    pixels: &mut P,
    source: &S,
    p: u32,
    w: u32,
    stacks: &Stacks,
    near: &Stacks,
    area: &Rect,
    x: Point,
    q: Point,
    columns: usize,
    rows: u64,
    last: &Part,
    steps: &mut Steps<L>,
)
    requires change { IsChange (shape lists.now) p (after_of stacks.now) w }
    requires stacks { IsStacked (shape lists.now) p w stacks.now }
    requires above { parent_of (shape lists.now) w ≡ Some p }
    requires near { IsRectNear (spec.block x columns rows) }
    requires q_near { 0 < columns → IsNear q }
    requires columns { columns ≤ 2 ^ 41 }
    requires rows { rows ≤ 2 ^ 41 }
    requires some { 0 < rows }
    requires apart { All (λ (v : Stood). v.image ≢ w) near.now.front.now }
    requires same { (z : Spot) → IsTrue (holds (spec.block q columns rows) z) → tops_at near.now z ≡ tops_at stacks.now z }
    requires shown { (z : Spot) (k : ℕ) → IsTrue (holds (strip q columns) z) → k < rows → shown_at (image_at (shape lists.now) p).r area.now stacks.now w (spec.down z k) ≡ shown_at (image_at (shape lists.now) p).r area.now stacks.now w z }
    requires last { last.now.extent.columns ≤ columns → IsPartAlong (image_at (shape lists.now) p).r area.now near.now w (along q (columns - last.now.extent.columns)) last.now }
    requires near_new { All (λ v. IsNear v.place.min) (after_of stacks.now) }
    requires places { HasPlacesBut (shape lists.now) p (after_of stacks.now) w (P.has pixels.old) }
    requires bits { HasBits (shape lists.now) (P.forms pixels.old) }
    requires given { (z : Spot) → S.given source.now z < 2 ^ bits_in (P.forms pixels.old) p }
    requires fill { (z : Spot) → S.fill source.now z < 2 ^ bits_in (P.forms pixels.old) p }
    requires own { (z : Spot) → IsTrue (holds (spec.block x columns rows) z) → shows (image_at (shape lists.now) p).r (after_of stacks.now) w (carried z x q) ≡ false → P.has pixels.old (own w z) ≡ true }
    ensures moved { (before : Place → ℕ) (done : Spot → Bool) → IsComing (spec.block q columns rows) (comes (image_at (shape lists.now) p).r area.now (after_of stacks.now) w) done → IsPlaced (shape lists.now) p (after_of stacks.now) w (S.given source.now) (S.fill source.now) before (P.kept pixels.old) done → IsPlaced (shape lists.now) p (after_of stacks.now) w (S.given source.now) (S.fill source.now) before (P.kept pixels.new) (with_coming (spec.block q columns rows) (comes (image_at (shape lists.now) p).r area.now (after_of stacks.now) w) done) }
    ensures kept { (z : Spot) → IsTrue (holds (spec.block x columns rows) z) → shows (image_at (shape lists.now) p).r (after_of stacks.now) w (carried z x q) ≡ false → P.kept pixels.new (own w z) ≡ S.given source.now z }
    ensures others { (z : Spot) → holds (spec.block x columns rows) z ≡ false → P.kept pixels.new (own w z) ≡ P.kept pixels.old (own w z) }
    ensures has { P.has pixels.new ≡ P.has pixels.old }
    ensures forms { P.forms pixels.new ≡ P.forms pixels.old }
    ensures moment { P.moment pixels.new ≡ P.moment pixels.old }
    ensures spare { P.spare pixels.new ≡ P.spare pixels.old }
    ensures steps { steps.new ≤ steps.old + 2 * (columns * rows) }
    ensures writes { P.writes pixels.new + steps.old ≡ P.writes pixels.old + steps.new }
{
    let below = lists.get(p).r;
    let mut done = 0;
    while done < columns {
        let from = along(q, done);
        let part = part_from(&below, area, near, w, from, columns - done, rows, last);
        let len = part.extent.columns;
        place_block(
            lists,
            pixels,
            source,
            p,
            w,
            stacks,
            area,
            part.shown,
            along(x, done),
            from,
            len,
            rows,
            steps,
        );
        done += len;
    }
}

// The same of the first of some rows: as many as in each column of which that is known. How many that were.
fn place_rows<P: Pixels, S: Source, L: Ledger>(
    lists: &Lists,
    pixels: &mut P,
    source: &S,
    p: u32,
    w: u32,
    stacks: &Stacks,
    near: &Stacks,
    area: &Rect,
    x: Point,
    q: Point,
    columns: usize,
    n: u64,
    steps: &mut Steps<L>,
) -> u64
    requires change { IsChange (shape lists.now) p (after_of stacks.now) w }
    requires stacks { IsStacked (shape lists.now) p w stacks.now }
    requires above { parent_of (shape lists.now) w ≡ Some p }
    requires near { IsRectNear (spec.block x columns n) }
    requires stands { (z : Spot) → IsTrue (holds (spec.block q columns n) z) → IsNear z }
    requires columns { columns ≤ 2 ^ 41 }
    requires rows { n ≤ 2 ^ 41 }
    requires some_columns { 0 < columns }
    requires some { 0 < n }
    requires apart { All (λ (v : Stood). v.image ≢ w) near.now.front.now }
    requires same { (z : Spot) → IsTrue (holds (spec.block q columns n) z) → tops_at near.now z ≡ tops_at stacks.now z }
    requires near_new { All (λ v. IsNear v.place.min) (after_of stacks.now) }
    requires places { HasPlacesBut (shape lists.now) p (after_of stacks.now) w (P.has pixels.old) }
    requires bits { HasBits (shape lists.now) (P.forms pixels.old) }
    requires given { (z : Spot) → S.given source.now z < 2 ^ bits_in (P.forms pixels.old) p }
    requires fill { (z : Spot) → S.fill source.now z < 2 ^ bits_in (P.forms pixels.old) p }
    requires own { (z : Spot) → IsTrue (holds (spec.block x columns n) z) → shows (image_at (shape lists.now) p).r (after_of stacks.now) w (carried z x q) ≡ false → P.has pixels.old (own w z) ≡ true }
    ensures some { 0 < result }
    ensures most { result ≤ n }
    ensures moved { (before : Place → ℕ) (done : Spot → Bool) → IsComing (spec.block q columns n) (comes (image_at (shape lists.now) p).r area.now (after_of stacks.now) w) done → IsPlaced (shape lists.now) p (after_of stacks.now) w (S.given source.now) (S.fill source.now) before (P.kept pixels.old) done → IsPlaced (shape lists.now) p (after_of stacks.now) w (S.given source.now) (S.fill source.now) before (P.kept pixels.new) (with_coming (spec.block q columns result) (comes (image_at (shape lists.now) p).r area.now (after_of stacks.now) w) done) }
    ensures kept { (z : Spot) → IsTrue (holds (spec.block x columns result) z) → shows (image_at (shape lists.now) p).r (after_of stacks.now) w (carried z x q) ≡ false → P.kept pixels.new (own w z) ≡ S.given source.now z }
    ensures others { (z : Spot) → holds (spec.block x columns result) z ≡ false → P.kept pixels.new (own w z) ≡ P.kept pixels.old (own w z) }
    ensures has { P.has pixels.new ≡ P.has pixels.old }
    ensures forms { P.forms pixels.new ≡ P.forms pixels.old }
    ensures moment { P.moment pixels.new ≡ P.moment pixels.old }
    ensures spare { P.spare pixels.new ≡ P.spare pixels.old }
    ensures steps { steps.new ≤ steps.old + 2 * (columns * result) }
    ensures writes { P.writes pixels.new + steps.old ≡ P.writes pixels.old + steps.new }
{
    let below = lists.get(p).r;
    let most = Extent {
        columns: columns.min(LONGEST),
        rows: n,
    };
    let first = part_of(&below, area, near, w, q, most);
    let shown = first.shown;
    let done = first.extent.columns;
    if done == columns {
        let rows = first.extent.rows;
        place_block(
            lists, pixels, source, p, w, stacks, area, shown, x, q, done, rows, steps,
        );
        return rows;
    }
    let last = last_part(&below, area, near, w, q, columns, &first);
    let rows = last.extent.rows;
    place_block(
        lists, pixels, source, p, w, stacks, area, shown, x, q, done, rows, steps,
    );
    place_band(
        lists,
        pixels,
        source,
        p,
        w,
        stacks,
        near,
        area,
        along(x, done),
        along(q, done),
        columns - done,
        rows,
        &last,
        steps,
    );
    rows
}

// Puts a window with rectangle r whose min stands at a point of the image below. The area is done.
pub(crate) fn place<P: Pixels, S: Source, L: Ledger>(
    lists: &Lists,
    pixels: &mut P,
    source: &S,
    p: u32,
    w: u32,
    stacks: &Stacks,
    area: &Rect,
    r: &Rect,
    corner: Point,
    steps: &mut Steps<L>,
)
    requires change { IsChange (shape lists.now) p (after_of stacks.now) w }
    requires stacks { IsStacked (shape lists.now) p w stacks.now }
    requires above { parent_of (shape lists.now) w ≡ Some p }
    requires near { IsRectNear r.now }
    requires ordered { IsOrdered r.now }
    requires corner { IsNear corner }
    requires stands { (z : Spot) → IsTrue (holds r.now z) → IsNear (carried z r.now.min corner) }
    requires near_new { All (λ v. IsNear v.place.min) (after_of stacks.now) }
    requires places { HasPlacesBut (shape lists.now) p (after_of stacks.now) w (P.has pixels.old) }
    requires bits { HasBits (shape lists.now) (P.forms pixels.old) }
    requires given { (z : Spot) → S.given source.now z < 2 ^ bits_in (P.forms pixels.old) p }
    requires fill { (z : Spot) → S.fill source.now z < 2 ^ bits_in (P.forms pixels.old) p }
    requires own { (z : Spot) → IsTrue (holds r.now z) → shows (image_at (shape lists.now) p).r (after_of stacks.now) w (carried z r.now.min corner) ≡ false → P.has pixels.old (own w z) ≡ true }
    ensures moved { (before : Place → ℕ) → IsPlaced (shape lists.now) p (after_of stacks.now) w (S.given source.now) (S.fill source.now) before (P.kept pixels.old) (holds area.now) → IsPlaced (shape lists.now) p (after_of stacks.now) w (S.given source.now) (S.fill source.now) before (P.kept pixels.new) (λ z. (holds r.now (carried z corner r.now.min) && comes (image_at (shape lists.now) p).r area.now (after_of stacks.now) w z) || holds area.now z) }
    ensures kept { (z : Spot) → IsTrue (holds r.now z) → shows (image_at (shape lists.now) p).r (after_of stacks.now) w (carried z r.now.min corner) ≡ false → P.kept pixels.new (own w z) ≡ S.given source.now z }
    ensures has { P.has pixels.new ≡ P.has pixels.old }
    ensures forms { P.forms pixels.new ≡ P.forms pixels.old }
    ensures moment { P.moment pixels.new ≡ P.moment pixels.old }
    ensures spare { P.spare pixels.new ≡ P.spare pixels.old }
    ensures steps { steps.new ≤ steps.old + 2 * area_of r.now }
    ensures writes { P.writes pixels.new + steps.old ≡ P.writes pixels.old + steps.new }
{
    let columns = r.width() as usize;
    if columns == 0 {
        return;
    }
    let near = stacks_within(stacks, &r.at_min(corner));
    let height = r.height();
    let mut row = 0;
    while row < height {
        let x = r.point_at(0, row);
        let q = x.carried(r.min, corner);
        row += place_rows(
            lists,
            pixels,
            source,
            p,
            w,
            stacks,
            &near,
            area,
            x,
            q,
            columns,
            height - row,
            steps,
        );
    }
}
