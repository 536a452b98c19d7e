//! Pixels of a source, shown on an image.

ghost use Rattle.std.specs.Prelude.{◌≡◌, ◌≢◌, ◌+◌, ◌^◌, ◌<◌, ◌≤◌, ℕ, true, length, slice_index, IsTrue};
ghost use Rattle.r9_geom.specs.declared.Point.{Point as Spot};
ghost use Rattle.r9_geom.specs.Geometry.{area_of, carried, holds, strip, IsNear, IsOrdered, IsRectNear};
ghost use Rattle.r9_plane.specs.Pixels.{along};
ghost use Rattle.model_forest.specs.World.{image_at, IsLive};
ghost use Rattle.model_kept.specs.Keeping.{keeping, Place};
ghost use Rattle.r9_locate.specs.locate.Forms.{bits_in, HasBits};
ghost use Rattle.r9_locate.specs.locate.Table.{shape};
ghost use Rattle.r9_restack.specs.Giving.{pixels_of, IsSupply};

use r9_geom::{Point, Rect};
use r9_locate::locate::{Lists, Pixels, along, write_view};
use r9_marks::steps::Steps;
use r9_shown::{down, paint_area, write_area};
use std::sync::ledger::Ledger;

// How many pixels of a row are copied at a time.
const BLOCK: usize = 256;

/// Pixels of a rectangle: one raw pixel everywhere, those among rows of so many, from a number on, or nothing is told.
#[derive(Clone, Copy)]
pub enum Supply<'a> {
    Plain(u32),
    Rows {
        raws: &'a [u32],
        first: usize,
        width: usize,
    },
    Untold,
}

/// The pixels of a window that comes or moves, and those that fill what becomes bare, gathered before.
pub trait Source {
    ghost given: { Self → Spot → ℕ };

    ghost fill: { Self → Spot → ℕ };

    /// Pixels of the window side by side, from a point of it to the right.
    fn give(&self, x: Point, raws: &mut [u32])
        ensures { (k : ℕ) → k < length raws.old → slice_index raws.new k ≡ given self.now (along x k) };

    /// Pixels that fill side by side, from a point of the image below to the right.
    fn fills(&self, q: Point, raws: &mut [u32])
        ensures { (k : ℕ) → k < length raws.old → slice_index raws.new k ≡ fill self.now (along q k) };

    /// The pixels of the window in a rectangle.
    fn given_in(&self, r: &Rect) -> Supply<'_>
        ensures { IsSupply result (given self.now) r.now };

    /// The pixels that fill in a rectangle.
    fn fill_in(&self, r: &Rect) -> Supply<'_>
        ensures { IsSupply result (fill self.now) r.now };
}

/// Which pixels of a source: those of the window, or those that fill.
#[derive(Clone, Copy)]
pub(crate) enum Kind {
    Given,
    Fill,
}

// Pixels of a source side by side.
fn put<S: Source>(source: &S, kind: Kind, at: Point, raws: &mut [u32])
    ensures { (k : ℕ) → k < length raws.old → slice_index raws.new k ≡ pixels_of (S.given source.now) (S.fill source.now) kind (along at k) }
{
    match kind {
        Kind::Given => source.give(at, raws),
        Kind::Fill => source.fills(at, raws),
    }
}

// Shows pixels of a source side by side on an image, which go through a block.
fn show_block<P: Pixels, S: Source, L: Ledger>(
    lists: &Lists,
    pixels: &mut P,
    source: &S,
    kind: Kind,
    at: Point,
    p: u32,
    q: Point,
    raws: &mut [u32],
    steps: &mut Steps<L>,
)
    requires live { IsLive (shape lists.now) p }
    requires near { IsNear q }
    requires width { length raws.old ≤ 2 ^ 40 }
    requires inside { (z : Spot) → IsTrue (holds (strip q (length raws.old)) z) → IsTrue (holds (image_at (shape lists.now) p).r z) }
    requires has { (k : ℕ) → k < length raws.old → P.has pixels.old (keeping (shape lists.now) p (along q k)) ≡ true }
    requires bits { HasBits (shape lists.now) (P.forms pixels.old) }
    requires below { (z : Spot) → pixels_of (S.given source.now) (S.fill source.now) kind z < 2 ^ bits_in (P.forms pixels.old) p }
    ensures at { (k : ℕ) → k < length raws.old → P.kept pixels.new (keeping (shape lists.now) p (along q k)) ≡ pixels_of (S.given source.now) (S.fill source.now) kind (along at k) }
    ensures others { (place : Place) → ((k : ℕ) → k < length raws.old → place ≢ keeping (shape lists.now) p (along q k)) → P.kept pixels.new place ≡ P.kept pixels.old place }
    ensures has { P.has pixels.new ≡ P.has pixels.old }
    ensures forms { P.forms pixels.new ≡ P.forms pixels.old }
    ensures moment { P.moment pixels.new ≡ P.moment pixels.old }
    ensures spare { P.spare pixels.new ≡ P.spare pixels.old }
    ensures steps { steps.new ≡ steps.old + length raws.old }
    ensures writes { P.writes pixels.new + steps.old ≡ P.writes pixels.old + steps.new }
{
    put(source, kind, at, raws);
    write_view(lists, pixels, p, q, raws, steps);
}

// Shows any number of pixels of a source side by side on an image, a block at a time.
fn show_row<P: Pixels, S: Source, L: Ledger>(
    lists: &Lists,
    pixels: &mut P,
    source: &S,
    kind: Kind,
    at: Point,
    p: u32,
    q: Point,
    n: usize,
    steps: &mut Steps<L>,
)
    requires live { IsLive (shape lists.now) p }
    requires at { 0 < n → IsNear at }
    requires near { IsNear q }
    requires width { n ≤ 2 ^ 41 }
    requires inside { (z : Spot) → IsTrue (holds (strip q n) z) → IsTrue (holds (image_at (shape lists.now) p).r z) }
    requires has { (k : ℕ) → k < n → P.has pixels.old (keeping (shape lists.now) p (along q k)) ≡ true }
    requires bits { HasBits (shape lists.now) (P.forms pixels.old) }
    requires below { (z : Spot) → pixels_of (S.given source.now) (S.fill source.now) kind z < 2 ^ bits_in (P.forms pixels.old) p }
    ensures at { (k : ℕ) → k < n → P.kept pixels.new (keeping (shape lists.now) p (along q k)) ≡ pixels_of (S.given source.now) (S.fill source.now) kind (along at k) }
    ensures others { (place : Place) → ((k : ℕ) → k < n → place ≢ keeping (shape lists.now) p (along q k)) → P.kept pixels.new place ≡ P.kept pixels.old place }
    ensures has { P.has pixels.new ≡ P.has pixels.old }
    ensures forms { P.forms pixels.new ≡ P.forms pixels.old }
    ensures moment { P.moment pixels.new ≡ P.moment pixels.old }
    ensures spare { P.spare pixels.new ≡ P.spare pixels.old }
    ensures steps { steps.new ≡ steps.old + n }
    ensures writes { P.writes pixels.new + steps.old ≡ P.writes pixels.old + steps.new }
{
    let mut block = [0; BLOCK];
    let mut done = 0;
    while done < n {
        let len = (n - done).min(BLOCK);
        let from = along(at, done);
        let to = along(q, done);
        show_block(
            lists,
            pixels,
            source,
            kind,
            from,
            p,
            to,
            &mut block[..len],
            steps,
        );
        done += len;
    }
}

// The pixels of a source in a rectangle.
fn pixels_within<'a, S: Source>(source: &'a S, kind: Kind, r: &Rect) -> Supply<'a>
    ensures { IsSupply result (pixels_of (S.given source.now) (S.fill source.now) kind) r.now }
{
    match kind {
        Kind::Given => source.given_in(r),
        Kind::Fill => source.fill_in(r),
    }
}

// Shows pixels of a source in a rectangle of an image row by row.
fn show_rows<P: Pixels, S: Source, L: Ledger>(
    lists: &Lists,
    pixels: &mut P,
    source: &S,
    kind: Kind,
    at: Point,
    p: u32,
    r: &Rect,
    steps: &mut Steps<L>,
)
    requires live { IsLive (shape lists.now) p }
    requires at { IsNear at }
    requires points { (z : Spot) → IsTrue (holds r.now z) → IsNear (carried z r.now.min at) }
    requires near { IsRectNear r.now }
    requires ordered { IsOrdered r.now }
    requires inside { (z : Spot) → IsTrue (holds r.now z) → IsTrue (holds (image_at (shape lists.now) p).r z) }
    requires has { (z : Spot) → IsTrue (holds r.now z) → P.has pixels.old (keeping (shape lists.now) p z) ≡ true }
    requires bits { HasBits (shape lists.now) (P.forms pixels.old) }
    requires below { (z : Spot) → pixels_of (S.given source.now) (S.fill source.now) kind z < 2 ^ bits_in (P.forms pixels.old) p }
    ensures at { (z : Spot) → IsTrue (holds r.now z) → P.kept pixels.new (keeping (shape lists.now) p z) ≡ pixels_of (S.given source.now) (S.fill source.now) kind (carried z r.now.min at) }
    ensures others { (place : Place) → ((z : Spot) → IsTrue (holds r.now z) → place ≢ keeping (shape lists.now) p z) → P.kept pixels.new place ≡ P.kept pixels.old place }
    ensures has { P.has pixels.new ≡ P.has pixels.old }
    ensures forms { P.forms pixels.new ≡ P.forms pixels.old }
    ensures moment { P.moment pixels.new ≡ P.moment pixels.old }
    ensures spare { P.spare pixels.new ≡ P.spare pixels.old }
    ensures steps { steps.new ≡ steps.old + area_of r.now }
    ensures writes { P.writes pixels.new + steps.old ≡ P.writes pixels.old + steps.new }
{
    let columns = r.width() as usize;
    for row in 0..r.height() {
        let to = r.point_at(0, row);
        show_row(
            lists,
            pixels,
            source,
            kind,
            down(at, row),
            p,
            to,
            columns,
            steps,
        );
    }
}

/// Shows pixels of a source, from a point on, in a rectangle of an image.
pub(crate) fn show_in<P: Pixels, S: Source, L: Ledger>(
    lists: &Lists,
    pixels: &mut P,
    source: &S,
    kind: Kind,
    at: Point,
    p: u32,
    r: &Rect,
    steps: &mut Steps<L>,
)
    requires live { IsLive (shape lists.now) p }
    requires at { IsNear at }
    requires points { (z : Spot) → IsTrue (holds r.now z) → IsNear (carried z r.now.min at) }
    requires near { IsRectNear r.now }
    requires ordered { IsOrdered r.now }
    requires inside { (z : Spot) → IsTrue (holds r.now z) → IsTrue (holds (image_at (shape lists.now) p).r z) }
    requires has { (z : Spot) → IsTrue (holds r.now z) → P.has pixels.old (keeping (shape lists.now) p z) ≡ true }
    requires bits { HasBits (shape lists.now) (P.forms pixels.old) }
    requires below { (z : Spot) → pixels_of (S.given source.now) (S.fill source.now) kind z < 2 ^ bits_in (P.forms pixels.old) p }
    ensures at { (z : Spot) → IsTrue (holds r.now z) → P.kept pixels.new (keeping (shape lists.now) p z) ≡ pixels_of (S.given source.now) (S.fill source.now) kind (carried z r.now.min at) }
    ensures others { (place : Place) → ((z : Spot) → IsTrue (holds r.now z) → place ≢ keeping (shape lists.now) p z) → P.kept pixels.new place ≡ P.kept pixels.old place }
    ensures has { P.has pixels.new ≡ P.has pixels.old }
    ensures forms { P.forms pixels.new ≡ P.forms pixels.old }
    ensures moment { P.moment pixels.new ≡ P.moment pixels.old }
    ensures spare { P.spare pixels.new ≡ P.spare pixels.old }
    ensures steps { steps.new ≡ steps.old + area_of r.now }
    ensures writes { P.writes pixels.new + steps.old ≡ P.writes pixels.old + steps.new }
{
    if r.is_empty() {
        return;
    }
    match pixels_within(source, kind, &r.at_min(at)) {
        Supply::Plain(raw) => paint_area(lists, pixels, p, r, raw, steps),
        Supply::Rows { raws, first, width } => {
            write_area(lists, pixels, p, r, raws, first, width, steps);
        }
        Supply::Untold => show_rows(lists, pixels, source, kind, at, p, r, steps),
    }
}
