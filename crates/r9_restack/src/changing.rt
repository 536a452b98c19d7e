//! Pixels moved when one of the windows of an image comes, goes or moves.

ghost use Rattle.std.specs.Prelude.{◌≡◌, ◌≢◌, ◌+◌, ◌++◌, ◌-◌, ◌*◌, ◌^◌, ◌<◌, ◌≤◌, ℕ, Bool, false, true, length, slice_index, Some, None, IsTrue, All, Option, sum_by, ◌||◌};
ghost use Rattle.r9_geom.specs.declared.Point.{Point as Spot};
ghost use Rattle.r9_geom.specs.Geometry.{area_of, holds, strip, IsNear, IsOrdered, IsRectNear};
ghost use Rattle.r9_plane.specs.Pixels.{along};
ghost use Rattle.model_forest.specs.declared.Window.{Window as Stood};
ghost use Rattle.model_forest.specs.World.{image_at, parent_of, IsLive};
ghost use Rattle.model_forest.specs.View as view;
ghost use Rattle.model_forest.specs.View.{top_window};
ghost use Rattle.model_kept.specs.Keeping.{is_top, keeping, outward, own, Place};
ghost use Rattle.r9_locate.specs.locate.Forms.{bits_in, HasBits};
ghost use Rattle.r9_locate.specs.locate.Table.{shape};
ghost use Rattle.r9_region.specs.Region.{covers};
ghost use Rattle.r9_restack.specs.Areas.{AreApartIn};
ghost use Rattle.model_kept.specs.Restack.{with_list, IsRestacked};
ghost use Rattle.r9_restack.specs.Moving.{more, more_in, IsFresh, IsFreshIn};
ghost use Rattle.r9_shown.specs.Shown as spec;
ghost use Rattle.r9_restack.specs.Stacks.{after_of, tops_at, IsFront, IsRunAlong, IsStacked};
ghost use Rattle.r9_restack.specs.Changing.{HasPlacesBut, IsChange, IsChanged, IsGiven, IsOther, IsShownAnew, StaysAs, StaysTop};

use super::giving::{Kind, Source, show_in};
use super::stacks::{Run, Stacks, Tops, last_run, run_of, stacks_around, stacks_within};
use model_forest::Window;
use r9_geom::{Point, Rect};
use r9_locate::locate::{Lists, Pixels, along, inward};
use r9_marks::steps::Steps;
use r9_shown::{Extent, block, save_area, show_area};
use std::sync::ledger::Ledger;

// How many pixels of a row are moved at a time at most: no image has as many.
pub(crate) const LONGEST: usize = 0x100_0000_0000;

// Keeps what a rectangle showed with the window that showed it, unless that is w or none.
fn save<P: Pixels, L: Ledger>(
    lists: &Lists,
    pixels: &mut P,
    p: u32,
    a: Option<Window>,
    w: u32,
    r: &Rect,
    steps: &mut Steps<L>,
)
    requires below { IsLive (shape lists.now) p }
    requires near { IsRectNear r.now }
    requires ordered { IsOrdered r.now }
    requires inside { (z : Spot) → IsTrue (holds r.now z) → IsTrue (holds (image_at (shape lists.now) p).r z) }
    requires surface { (z : Spot) → IsTrue (holds r.now z) → P.has pixels.old (keeping (shape lists.now) p z) ≡ true }
    requires live { (v : Stood) → a ≡ Some v → IsLive (shape lists.now) v.image }
    requires stands { (v : Stood) → a ≡ Some v → parent_of (shape lists.now) v.image ≡ Some p }
    requires place { (v : Stood) → a ≡ Some v → IsNear v.place.min }
    requires there { (v : Stood) → a ≡ Some v → IsNear (view.inward (shape lists.now) v r.now.min) }
    requires has { (v : Stood) → a ≡ Some v → v.image ≢ w → (z : Spot) → IsTrue (holds r.now z) → P.has pixels.old (own v.image (view.inward (shape lists.now) v z)) ≡ true }
    requires bits { HasBits (shape lists.now) (P.forms pixels.old) }
    ensures saved { (v : Stood) → a ≡ Some v → v.image ≢ w → (z : Spot) → IsTrue (holds r.now z) → P.kept pixels.new (own v.image (view.inward (shape lists.now) v z)) ≡ P.kept pixels.old (keeping (shape lists.now) p z) }
    ensures others { (place : Place) → ((v : Stood) → a ≡ Some v → v.image ≢ w → (z : Spot) → IsTrue (holds r.now z) → place ≢ own v.image (view.inward (shape lists.now) v z)) → P.kept pixels.new place ≡ P.kept pixels.old place }
    ensures has { P.has pixels.new ≡ P.has pixels.old }
    ensures forms { P.forms pixels.new ≡ P.forms pixels.old }
    ensures moment { P.moment pixels.new ≡ P.moment pixels.old }
    ensures spare { P.spare pixels.new ≡ P.spare pixels.old }
    ensures steps { steps.new ≤ steps.old + area_of r.now }
    ensures writes { P.writes pixels.new + steps.old ≡ P.writes pixels.old + steps.new }
{
    if let Some(v) = a {
        if v.image != w {
            let x = inward(lists, &v, r.min);
            save_area(lists, pixels, p, r, v.image, x, steps);
        }
    }
}

// A rectangle shows window b, or the fill.
fn reveal<P: Pixels, S: Source, L: Ledger>(
    lists: &Lists,
    pixels: &mut P,
    source: &S,
    p: u32,
    w: u32,
    b: Option<Window>,
    r: &Rect,
    steps: &mut Steps<L>,
)
    requires below { IsLive (shape lists.now) p }
    requires near { IsRectNear r.now }
    requires ordered { IsOrdered r.now }
    requires inside { (z : Spot) → IsTrue (holds r.now z) → IsTrue (holds (image_at (shape lists.now) p).r z) }
    requires surface { (z : Spot) → IsTrue (holds r.now z) → P.has pixels.old (keeping (shape lists.now) p z) ≡ true }
    requires live { (v : Stood) → b ≡ Some v → IsLive (shape lists.now) v.image }
    requires stands { (v : Stood) → b ≡ Some v → parent_of (shape lists.now) v.image ≡ Some p }
    requires place { (v : Stood) → b ≡ Some v → IsNear v.place.min }
    requires there { (v : Stood) → b ≡ Some v → IsNear (view.inward (shape lists.now) v r.now.min) }
    requires within { (v : Stood) → b ≡ Some v → (z : Spot) → IsTrue (holds r.now z) → IsTrue (holds (image_at (shape lists.now) v.image).r (view.inward (shape lists.now) v z)) }
    requires has { (v : Stood) → b ≡ Some v → v.image ≢ w → (z : Spot) → IsTrue (holds r.now z) → P.has pixels.old (own v.image (view.inward (shape lists.now) v z)) ≡ true }
    requires bits { HasBits (shape lists.now) (P.forms pixels.old) }
    requires given { parent_of (shape lists.now) w ≡ Some p → (x : Spot) → S.given source.now x < 2 ^ bits_in (P.forms pixels.old) p }
    requires fill { (z : Spot) → S.fill source.now z < 2 ^ bits_in (P.forms pixels.old) p }
    ensures none { b ≡ None → (z : Spot) → IsTrue (holds r.now z) → P.kept pixels.new (keeping (shape lists.now) p z) ≡ S.fill source.now z }
    ensures of_w { (v : Stood) → b ≡ Some v → v.image ≡ w → (z : Spot) → IsTrue (holds r.now z) → P.kept pixels.new (keeping (shape lists.now) p z) ≡ S.given source.now (view.inward (shape lists.now) v z) }
    ensures owned { (v : Stood) → b ≡ Some v → v.image ≢ w → (z : Spot) → IsTrue (holds r.now z) → P.kept pixels.new (keeping (shape lists.now) p z) ≡ P.kept pixels.old (own v.image (view.inward (shape lists.now) v z)) }
    ensures others { (place : Place) → ((z : Spot) → IsTrue (holds r.now z) → place ≢ keeping (shape lists.now) p z) → P.kept pixels.new place ≡ P.kept pixels.old place }
    ensures has { P.has pixels.new ≡ P.has pixels.old }
    ensures forms { P.forms pixels.new ≡ P.forms pixels.old }
    ensures moment { P.moment pixels.new ≡ P.moment pixels.old }
    ensures spare { P.spare pixels.new ≡ P.spare pixels.old }
    ensures steps { steps.new ≡ steps.old + area_of r.now }
    ensures writes { P.writes pixels.new + steps.old ≡ P.writes pixels.old + steps.new }
{
    match b {
        None => show_in(lists, pixels, source, Kind::Fill, r.min, p, r, steps),
        Some(v) => {
            let x = inward(lists, &v, r.min);
            if v.image == w {
                show_in(lists, pixels, source, Kind::Given, x, p, r, steps);
            } else {
                show_area(lists, pixels, v.image, x, p, r, steps);
            }
        }
    }
}

// A rectangle over which window a was topmost, or nothing, shows window b then, or the fill.
fn show<P: Pixels, S: Source, L: Ledger>(
    lists: &Lists,
    pixels: &mut P,
    source: &S,
    p: u32,
    w: u32,
    a: Option<Window>,
    b: Option<Window>,
    r: &Rect,
    steps: &mut Steps<L>,
)
    requires live { IsLive (shape lists.now) p }
    requires near { IsRectNear r.now }
    requires ordered { IsOrdered r.now }
    requires inside { (z : Spot) → IsTrue (holds r.now z) → IsTrue (holds (image_at (shape lists.now) p).r z) }
    requires surface { (z : Spot) → IsTrue (holds r.now z) → P.has pixels.old (keeping (shape lists.now) p z) ≡ true }
    requires a_live { (v : Stood) → a ≡ Some v → IsLive (shape lists.now) v.image }
    requires a_stands { (v : Stood) → a ≡ Some v → parent_of (shape lists.now) v.image ≡ Some p }
    requires a_place { (v : Stood) → a ≡ Some v → IsNear v.place.min }
    requires a_there { (v : Stood) → a ≡ Some v → IsNear (view.inward (shape lists.now) v r.now.min) }
    requires a_has { (v : Stood) → a ≡ Some v → v.image ≢ w → (z : Spot) → IsTrue (holds r.now z) → P.has pixels.old (own v.image (view.inward (shape lists.now) v z)) ≡ true }
    requires b_live { (v : Stood) → b ≡ Some v → IsLive (shape lists.now) v.image }
    requires b_stands { (v : Stood) → b ≡ Some v → parent_of (shape lists.now) v.image ≡ Some p }
    requires b_place { (v : Stood) → b ≡ Some v → IsNear v.place.min }
    requires b_there { (v : Stood) → b ≡ Some v → IsNear (view.inward (shape lists.now) v r.now.min) }
    requires b_within { (v : Stood) → b ≡ Some v → (z : Spot) → IsTrue (holds r.now z) → IsTrue (holds (image_at (shape lists.now) v.image).r (view.inward (shape lists.now) v z)) }
    requires b_has { (v : Stood) → b ≡ Some v → v.image ≢ w → (z : Spot) → IsTrue (holds r.now z) → P.has pixels.old (own v.image (view.inward (shape lists.now) v z)) ≡ true }
    requires apart { (u v : Stood) → a ≡ Some u → b ≡ Some v → v.image ≢ w → u.image ≢ v.image }
    requires bits { HasBits (shape lists.now) (P.forms pixels.old) }
    requires given { parent_of (shape lists.now) w ≡ Some p → (x : Spot) → S.given source.now x < 2 ^ bits_in (P.forms pixels.old) p }
    requires fill { (z : Spot) → S.fill source.now z < 2 ^ bits_in (P.forms pixels.old) p }
    ensures shown { IsShownAnew (shape lists.now) p w a b (S.given source.now) (S.fill source.now) r.now (P.kept pixels.old) (P.kept pixels.new) }
    ensures has { P.has pixels.new ≡ P.has pixels.old }
    ensures forms { P.forms pixels.new ≡ P.forms pixels.old }
    ensures moment { P.moment pixels.new ≡ P.moment pixels.old }
    ensures spare { P.spare pixels.new ≡ P.spare pixels.old }
    ensures steps { steps.new ≤ steps.old + 2 * area_of r.now }
    ensures writes { P.writes pixels.new + steps.old ≡ P.writes pixels.old + steps.new }
{
    save(lists, pixels, p, a, w, r, steps);
    reveal(lists, pixels, source, p, w, b, r, steps);
}

// Whether the same image, other than w, or nothing is topmost.
fn stays(a: Option<Window>, b: Option<Window>, w: u32) -> bool
    ensures yes { result ≡ true → StaysAs a b w }
    ensures no { result ≡ false → IsOther a b w }
{
    match b {
        None => a.is_none(),
        Some(v) => match a {
            None => false,
            Some(u) => u.image == v.image && v.image != w,
        },
    }
}

// Moves the pixels of a block of points over which the same windows are topmost.
pub(crate) fn change_block<P: Pixels, S: Source, L: Ledger>(
    lists: &Lists,
    pixels: &mut P,
    source: &S,
    p: u32,
    w: u32,
    stacks: &Stacks,
    tops: Option<Tops>,
    q: Point,
    columns: usize,
    rows: u64,
    steps: &mut Steps<L>,
)
    requires change { IsChange (shape lists.now) p (after_of stacks.now) w }
    requires stacks { IsStacked (shape lists.now) p w stacks.now }
    requires near { IsNear q }
    requires some { 0 < columns }
    requires some_rows { 0 < rows }
    requires columns { columns ≤ 2 ^ 40 }
    requires rows { rows ≤ 2 ^ 41 }
    requires inside { (z : Spot) → IsTrue (holds (spec.block q columns rows) z) → IsTrue (holds (image_at (shape lists.now) p).r z) }
    requires tops { (z : Spot) → IsTrue (holds (spec.block q columns rows) z) → tops_at stacks.now z ≡ tops }
    requires near_new { All (λ v. IsNear v.place.min) (after_of stacks.now) }
    requires places { HasPlacesBut (shape lists.now) p (after_of stacks.now) w (P.has pixels.old) }
    requires bits { HasBits (shape lists.now) (P.forms pixels.old) }
    requires given { parent_of (shape lists.now) w ≡ Some p → (x : Spot) → S.given source.now x < 2 ^ bits_in (P.forms pixels.old) p }
    requires fill { (z : Spot) → S.fill source.now z < 2 ^ bits_in (P.forms pixels.old) p }
    ensures moved { (before : Place → ℕ) (done : Spot → Bool) → IsFreshIn (spec.block q columns rows) done → IsChanged (shape lists.now) p (after_of stacks.now) w (S.given source.now) (S.fill source.now) before (P.kept pixels.old) done → IsChanged (shape lists.now) p (after_of stacks.now) w (S.given source.now) (S.fill source.now) before (P.kept pixels.new) (more_in (spec.block q columns rows) done) }
    ensures has { P.has pixels.new ≡ P.has pixels.old }
    ensures forms { P.forms pixels.new ≡ P.forms pixels.old }
    ensures moment { P.moment pixels.new ≡ P.moment pixels.old }
    ensures spare { P.spare pixels.new ≡ P.spare pixels.old }
    ensures steps { steps.new ≤ steps.old + 2 * (columns * rows) }
    ensures writes { P.writes pixels.new + steps.old ≡ P.writes pixels.old + steps.new }
{
    let Some(tops) = tops else {
        return;
    };
    if stays(tops.before, tops.after, w) {
        return;
    }
    let r = block(q, columns, rows);
    show(
        lists,
        pixels,
        source,
        p,
        w,
        tops.before,
        tops.after,
        &r,
        steps,
    );
}

// What is topmost at a point of a row, of which so many columns are left and the last run is known.
fn run_from(stacks: &Stacks, q: Point, columns: usize, rows: u64, last: &Run) -> Run
    requires columns { 0 < columns }
    requires rows { 0 < rows }
    requires last { columns ≡ last.now.extent.columns → IsRunAlong stacks.now q last.now }
    ensures some { 0 < result.extent.columns }
    ensures most { result.extent.columns ≤ columns }
    ensures short { result.extent.columns ≤ 2 ^ 40 }
    ensures tops { IsRunAlong stacks.now q result }
{
    if columns == last.extent.columns && columns <= LONGEST {
        return *last;
    }
    let most = Extent {
        columns: columns.min(LONGEST),
        rows,
    };
    run_of(stacks, q, most)
}

// The same of rows in each column of which the same windows are topmost, the last of whose runs is known.
fn change_band<P: Pixels, S: Source, L: Ledger>(
    lists: &Lists,
    pixels: &mut P,
    source: &S,
    p: u32,
    w: u32,
    stacks: &Stacks,
    near: &Stacks,
    at: Point,
    columns: usize,
    rows: u64,
    last: &Run,
    steps: &mut Steps<L>,
)
    requires change { IsChange (shape lists.now) p (after_of stacks.now) w }
    requires stacks { IsStacked (shape lists.now) p w stacks.now }
    requires start { IsNear at }
    requires columns { columns ≤ 2 ^ 41 }
    requires rows { rows ≤ 2 ^ 41 }
    requires some { 0 < rows }
    requires inside { (z : Spot) → IsTrue (holds (spec.block at columns rows) z) → IsTrue (holds (image_at (shape lists.now) p).r z) }
    requires same { (z : Spot) → IsTrue (holds (spec.block at columns rows) z) → tops_at near.now z ≡ tops_at stacks.now z }
    requires tops { (z : Spot) (k : ℕ) → IsTrue (holds (strip at columns) z) → k < rows → tops_at stacks.now (spec.down z k) ≡ tops_at stacks.now z }
    requires last { last.now.extent.columns ≤ columns → IsRunAlong near.now (along at (columns - last.now.extent.columns)) last.now }
    requires near_new { All (λ v. IsNear v.place.min) (after_of stacks.now) }
    requires places { HasPlacesBut (shape lists.now) p (after_of stacks.now) w (P.has pixels.old) }
    requires bits { HasBits (shape lists.now) (P.forms pixels.old) }
    requires given { parent_of (shape lists.now) w ≡ Some p → (x : Spot) → S.given source.now x < 2 ^ bits_in (P.forms pixels.old) p }
    requires fill { (z : Spot) → S.fill source.now z < 2 ^ bits_in (P.forms pixels.old) p }
    ensures moved { (before : Place → ℕ) (done : Spot → Bool) → IsFreshIn (spec.block at columns rows) done → IsChanged (shape lists.now) p (after_of stacks.now) w (S.given source.now) (S.fill source.now) before (P.kept pixels.old) done → IsChanged (shape lists.now) p (after_of stacks.now) w (S.given source.now) (S.fill source.now) before (P.kept pixels.new) (more_in (spec.block at columns rows) done) }
    ensures has { P.has pixels.new ≡ P.has pixels.old }
    ensures forms { P.forms pixels.new ≡ P.forms pixels.old }
    ensures moment { P.moment pixels.new ≡ P.moment pixels.old }
    ensures spare { P.spare pixels.new ≡ P.spare pixels.old }
    ensures steps { steps.new ≤ steps.old + 2 * (columns * rows) }
    ensures writes { P.writes pixels.new + steps.old ≡ P.writes pixels.old + steps.new }
{
    let mut done = 0;
    while done < columns {
        let q = along(at, done);
        let run = run_from(near, q, columns - done, rows, last);
        let len = run.extent.columns;
        change_block(
            lists, pixels, source, p, w, stacks, run.tops, q, len, rows, steps,
        );
        done += len;
    }
}

// The same of the first of some rows: as many as in each column of which the same windows are topmost. How many that were.
fn change_rows<P: Pixels, S: Source, L: Ledger>(
    lists: &Lists,
    pixels: &mut P,
    source: &S,
    p: u32,
    w: u32,
    stacks: &Stacks,
    near: &Stacks,
    at: Point,
    columns: usize,
    n: u64,
    steps: &mut Steps<L>,
) -> u64
    requires change { IsChange (shape lists.now) p (after_of stacks.now) w }
    requires stacks { IsStacked (shape lists.now) p w stacks.now }
    requires start { IsNear at }
    requires some_columns { 0 < columns }
    requires columns { columns ≤ 2 ^ 41 }
    requires rows { n ≤ 2 ^ 41 }
    requires some { 0 < n }
    requires inside { (z : Spot) → IsTrue (holds (spec.block at columns n) z) → IsTrue (holds (image_at (shape lists.now) p).r z) }
    requires same { (z : Spot) → IsTrue (holds (spec.block at columns n) z) → tops_at near.now z ≡ tops_at stacks.now z }
    requires near_new { All (λ v. IsNear v.place.min) (after_of stacks.now) }
    requires places { HasPlacesBut (shape lists.now) p (after_of stacks.now) w (P.has pixels.old) }
    requires bits { HasBits (shape lists.now) (P.forms pixels.old) }
    requires given { parent_of (shape lists.now) w ≡ Some p → (x : Spot) → S.given source.now x < 2 ^ bits_in (P.forms pixels.old) p }
    requires fill { (z : Spot) → S.fill source.now z < 2 ^ bits_in (P.forms pixels.old) p }
    ensures some { 0 < result }
    ensures most { result ≤ n }
    ensures moved { (before : Place → ℕ) (done : Spot → Bool) → IsFreshIn (spec.block at columns n) done → IsChanged (shape lists.now) p (after_of stacks.now) w (S.given source.now) (S.fill source.now) before (P.kept pixels.old) done → IsChanged (shape lists.now) p (after_of stacks.now) w (S.given source.now) (S.fill source.now) before (P.kept pixels.new) (more_in (spec.block at columns result) done) }
    ensures has { P.has pixels.new ≡ P.has pixels.old }
    ensures forms { P.forms pixels.new ≡ P.forms pixels.old }
    ensures moment { P.moment pixels.new ≡ P.moment pixels.old }
    ensures spare { P.spare pixels.new ≡ P.spare pixels.old }
    ensures steps { steps.new ≤ steps.old + 2 * (columns * result) }
    ensures writes { P.writes pixels.new + steps.old ≡ P.writes pixels.old + steps.new }
{
    let most = Extent {
        columns: columns.min(LONGEST),
        rows: n,
    };
    let first = run_of(near, at, most);
    let done = first.extent.columns;
    if done == columns {
        let rows = first.extent.rows;
        change_block(
            lists, pixels, source, p, w, stacks, first.tops, at, done, rows, steps,
        );
        return rows;
    }
    let last = last_run(near, at, columns, &first);
    let rows = last.extent.rows;
    change_block(
        lists, pixels, source, p, w, stacks, first.tops, at, done, rows, steps,
    );
    let rest = along(at, done);
    change_band(
        lists,
        pixels,
        source,
        p,
        w,
        stacks,
        near,
        rest,
        columns - done,
        rows,
        &last,
        steps,
    );
    rows
}

// The same of the rows of an area, of which nothing is done yet.
fn change_within<P: Pixels, S: Source, L: Ledger>(
    lists: &Lists,
    pixels: &mut P,
    source: &S,
    p: u32,
    w: u32,
    stacks: &Stacks,
    area: &Rect,
    steps: &mut Steps<L>,
)
    requires change { IsChange (shape lists.now) p (after_of stacks.now) w }
    requires stacks { IsStacked (shape lists.now) p w stacks.now }
    requires near { IsRectNear area.now }
    requires ordered { IsOrdered area.now }
    requires inside { (z : Spot) → IsTrue (holds area.now z) → IsTrue (holds (image_at (shape lists.now) p).r z) }
    requires near_new { All (λ v. IsNear v.place.min) (after_of stacks.now) }
    requires places { HasPlacesBut (shape lists.now) p (after_of stacks.now) w (P.has pixels.old) }
    requires bits { HasBits (shape lists.now) (P.forms pixels.old) }
    requires given { parent_of (shape lists.now) w ≡ Some p → (x : Spot) → S.given source.now x < 2 ^ bits_in (P.forms pixels.old) p }
    requires fill { (z : Spot) → S.fill source.now z < 2 ^ bits_in (P.forms pixels.old) p }
    ensures moved { (before : Place → ℕ) (done : Spot → Bool) → ((z : Spot) → IsTrue (holds area.now z) → done z ≡ false) → IsChanged (shape lists.now) p (after_of stacks.now) w (S.given source.now) (S.fill source.now) before (P.kept pixels.old) done → IsChanged (shape lists.now) p (after_of stacks.now) w (S.given source.now) (S.fill source.now) before (P.kept pixels.new) (λ z. holds area.now z || done z) }
    ensures has { P.has pixels.new ≡ P.has pixels.old }
    ensures forms { P.forms pixels.new ≡ P.forms pixels.old }
    ensures moment { P.moment pixels.new ≡ P.moment pixels.old }
    ensures spare { P.spare pixels.new ≡ P.spare pixels.old }
    ensures steps { steps.new ≤ steps.old + 2 * area_of area.now }
    ensures writes { P.writes pixels.new + steps.old ≡ P.writes pixels.old + steps.new }
{
    let columns = area.width() as usize;
    if columns == 0 {
        return;
    }
    let near = stacks_within(stacks, area);
    let height = area.height();
    let mut row = 0;
    while row < height {
        let at = area.point_at(0, row);
        row += change_rows(
            lists,
            pixels,
            source,
            p,
            w,
            stacks,
            &near,
            at,
            columns,
            height - row,
            steps,
        );
    }
}

// The same, where nothing else is done.
pub(crate) fn change_area<P: Pixels, S: Source, L: Ledger>(
    lists: &Lists,
    pixels: &mut P,
    source: &S,
    p: u32,
    w: u32,
    stacks: &Stacks,
    area: &Rect,
    steps: &mut Steps<L>,
)
    requires change { IsChange (shape lists.now) p (after_of stacks.now) w }
    requires stacks { IsStacked (shape lists.now) p w stacks.now }
    requires near { IsRectNear area.now }
    requires ordered { IsOrdered area.now }
    requires inside { (z : Spot) → IsTrue (holds area.now z) → IsTrue (holds (image_at (shape lists.now) p).r z) }
    requires near_new { All (λ v. IsNear v.place.min) (after_of stacks.now) }
    requires places { HasPlacesBut (shape lists.now) p (after_of stacks.now) w (P.has pixels.old) }
    requires bits { HasBits (shape lists.now) (P.forms pixels.old) }
    requires given { parent_of (shape lists.now) w ≡ Some p → (x : Spot) → S.given source.now x < 2 ^ bits_in (P.forms pixels.old) p }
    requires fill { (z : Spot) → S.fill source.now z < 2 ^ bits_in (P.forms pixels.old) p }
    ensures moved { IsChanged (shape lists.now) p (after_of stacks.now) w (S.given source.now) (S.fill source.now) (P.kept pixels.old) (P.kept pixels.new) (holds area.now) }
    ensures has { P.has pixels.new ≡ P.has pixels.old }
    ensures forms { P.forms pixels.new ≡ P.forms pixels.old }
    ensures moment { P.moment pixels.new ≡ P.moment pixels.old }
    ensures spare { P.spare pixels.new ≡ P.spare pixels.old }
    ensures steps { steps.new ≤ steps.old + 2 * area_of area.now }
    ensures writes { P.writes pixels.new + steps.old ≡ P.writes pixels.old + steps.new }
{
    change_within(lists, pixels, source, p, w, stacks, area, steps);
}

// The same of the rows of areas of which no two have a point in common.
pub(crate) fn change_areas<P: Pixels, S: Source, L: Ledger>(
    lists: &Lists,
    pixels: &mut P,
    source: &S,
    p: u32,
    w: u32,
    stacks: &Stacks,
    areas: &[Rect],
    steps: &mut Steps<L>,
)
    requires change { IsChange (shape lists.now) p (after_of stacks.now) w }
    requires stacks { IsStacked (shape lists.now) p w stacks.now }
    requires areas { AreApartIn (image_at (shape lists.now) p).r areas.now }
    requires near_new { All (λ v. IsNear v.place.min) (after_of stacks.now) }
    requires places { HasPlacesBut (shape lists.now) p (after_of stacks.now) w (P.has pixels.old) }
    requires bits { HasBits (shape lists.now) (P.forms pixels.old) }
    requires given { parent_of (shape lists.now) w ≡ Some p → (x : Spot) → S.given source.now x < 2 ^ bits_in (P.forms pixels.old) p }
    requires fill { (z : Spot) → S.fill source.now z < 2 ^ bits_in (P.forms pixels.old) p }
    ensures moved { IsChanged (shape lists.now) p (after_of stacks.now) w (S.given source.now) (S.fill source.now) (P.kept pixels.old) (P.kept pixels.new) (covers areas.now) }
    ensures has { P.has pixels.new ≡ P.has pixels.old }
    ensures forms { P.forms pixels.new ≡ P.forms pixels.old }
    ensures moment { P.moment pixels.new ≡ P.moment pixels.old }
    ensures spare { P.spare pixels.new ≡ P.spare pixels.old }
    ensures steps { steps.new ≤ steps.old + 2 * sum_by area_of areas.now }
    ensures writes { P.writes pixels.new + steps.old ≡ P.writes pixels.old + steps.new }
{
    for area in areas {
        change_within(lists, pixels, source, p, w, stacks, area, steps);
    }
}

/// Moves the pixels of an image and of its windows to where they are kept when window w comes, goes or moves. The list of
/// then is in two parts, the upper windows first. The topmost window changes within the area alone. What is hidden of w then
/// is not written yet.
pub fn change<P: Pixels, S: Source, L: Ledger>(
    lists: &Lists,
    pixels: &mut P,
    source: &S,
    p: u32,
    w: u32,
    upper: &[Window],
    lower: &[Window],
    area: &Rect,
    steps: &mut Steps<L>,
)
    requires front { IsFront (image_at (shape lists.now) p).windows upper.now w (length upper.now) }
    requires change { IsChange (shape lists.now) p (upper.now ++ lower.now) w }
    requires above { parent_of (shape lists.now) w ≡ Some p }
    requires near { IsRectNear area.now }
    requires ordered { IsOrdered area.now }
    requires inside { (z : Spot) → IsTrue (holds area.now z) → IsTrue (holds (image_at (shape lists.now) p).r z) }
    requires outside { (z : Spot) → IsTrue (holds (image_at (shape lists.now) p).r z) → holds area.now z ≡ false → StaysTop (shape lists.now) p (upper.now ++ lower.now) w z }
    requires near_new { All (λ v. IsNear v.place.min) (upper.now ++ lower.now) }
    requires places { HasPlacesBut (shape lists.now) p (upper.now ++ lower.now) w (P.has pixels.old) }
    requires bits { HasBits (shape lists.now) (P.forms pixels.old) }
    requires given { (x : Spot) → S.given source.now x < 2 ^ bits_in (P.forms pixels.old) p }
    requires fill { (z : Spot) → S.fill source.now z < 2 ^ bits_in (P.forms pixels.old) p }
    ensures moved { (as_before as_after : Place → ℕ) → IsGiven (shape lists.now) p (upper.now ++ lower.now) w (S.given source.now) (P.kept pixels.old) (P.kept pixels.new) as_before as_after → IsRestacked (shape lists.now) (with_list (shape lists.now) p (upper.now ++ lower.now)) p as_before as_after (S.fill source.now) }
    ensures has { P.has pixels.new ≡ P.has pixels.old }
    ensures forms { P.forms pixels.new ≡ P.forms pixels.old }
    ensures moment { P.moment pixels.new ≡ P.moment pixels.old }
    ensures spare { P.spare pixels.new ≡ P.spare pixels.old }
    ensures steps { steps.new ≤ steps.old + 2 * area_of area.now }
    ensures writes { P.writes pixels.new + steps.old ≡ P.writes pixels.old + steps.new }
{
    let stacks = stacks_around(&lists.get(p).windows, upper, lower, w);
    change_area(lists, pixels, source, p, w, &stacks, area, steps);
}
