//! Pixels that are put on an image by rows. They are written where it keeps them, at the points on which nothing stands.

ghost use Rattle.std.specs.Prelude.{◌≡◌, ◌+◌, ◌*◌, ◌^◌, ◌<◌, ◌≤◌, ℕ, length, slice_index, IsTrue};
ghost use Rattle.r9_geom.specs.declared.Point.{Point as Spot};
ghost use Rattle.r9_geom.specs.Geometry.{area_of, distance, height, holds, strip, width, IsNear, IsOrdered, IsRectNear};
ghost use Rattle.r9_plane.specs.Blocks.{number_in, HasRows};
ghost use Rattle.r9_plane.specs.Pixels.{along, number_of};
ghost use Rattle.model_forest.specs.View.{top_window};
ghost use Rattle.model_forest.specs.World.{image_at, IsLive};
ghost use Rattle.r9_locate.specs.locate.Forms.{bits_in};
ghost use Rattle.r9_locate.specs.locate.Table.{shape};
ghost use Rattle.r9_pixels.specs.Kept.{form_at, writes};
ghost use Rattle.r9_put.specs.put.Written.{IsStored, IsWritten};
ghost use Rattle.r9_shown.specs.Shown as spec;
ghost use Rattle.r9_shown.specs.Shown.{down};

use r9_geom::{Point, Rect};
use r9_locate::locate::{Lists, along, steady_top, top, write_view};
use r9_marks::steps::Steps;
use r9_pixels::KeptPixels;
use r9_shown::{block, steady_rows, write_area};
use std::sync::ledger::Ledger;

// Writes pixels of an image side by side, over which the same window stands or none: in that case it writes none.
fn put_run<L: Ledger>(
    lists: &Lists,
    pixels: &mut KeptPixels,
    i: u32,
    at: Point,
    raws: &[u32],
    steps: &mut Steps<L>,
)
    requires live { IsLive (shape lists.now) i }
    requires near { IsNear at }
    requires inside { (p : Spot) → IsTrue (holds (strip at (length raws.now)) p) → IsTrue (holds (image_at (shape lists.now) i).r p) }
    requires steady { (k : ℕ) → k < length raws.now → top_window (image_at (shape lists.now) i).windows (along at k) ≡ top_window (image_at (shape lists.now) i).windows at }
    requires stored { IsStored (shape lists.now) pixels.old }
    requires below { (k : ℕ) → k < length raws.now → slice_index raws.now k < 2 ^ bits_in (form_at pixels.old) i }
    ensures written { IsWritten (shape lists.now) i (holds (strip at (length raws.now))) (λ p. slice_index raws.now (distance at.x p.x)) pixels.old pixels.new }
    ensures steps { steps.new ≤ steps.old + length raws.now }
    ensures writes { writes pixels.new + steps.old ≡ writes pixels.old + steps.new }
{
    if top(&lists.get(i).windows, at).is_none() {
        write_view(lists, pixels, i, at, raws, steps);
    }
}

// The same where windows stand as they may.
pub(crate) fn put_side_by_side<L: Ledger>(
    lists: &Lists,
    pixels: &mut KeptPixels,
    i: u32,
    at: Point,
    raws: &[u32],
    steps: &mut Steps<L>,
)
    requires live { IsLive (shape lists.now) i }
    requires near { IsNear at }
    requires inside { (p : Spot) → IsTrue (holds (strip at (length raws.now)) p) → IsTrue (holds (image_at (shape lists.now) i).r p) }
    requires stored { IsStored (shape lists.now) pixels.old }
    requires below { (k : ℕ) → k < length raws.now → slice_index raws.now k < 2 ^ bits_in (form_at pixels.old) i }
    ensures written { IsWritten (shape lists.now) i (holds (strip at (length raws.now))) (λ p. slice_index raws.now (distance at.x p.x)) pixels.old pixels.new }
    ensures steps { steps.new ≤ steps.old + length raws.now }
    ensures writes { writes pixels.new + steps.old ≡ writes pixels.old + steps.new }
{
    let mut done = 0;
    while done < raws.len() {
        let q = along(at, done);
        let len = steady_top(&lists.get(i).windows, q, raws.len() - done);
        put_run(lists, pixels, i, q, &raws[done..done + len], steps);
        done += len;
    }
}

// Puts pixels of a block over which the same window stands or none, which stand among rows of so many, from number `first` on. In
// the first case it puts none.
fn put_block<L: Ledger>(
    lists: &Lists,
    pixels: &mut KeptPixels,
    i: u32,
    at: Point,
    columns: usize,
    rows: u64,
    raws: &[u32],
    first: usize,
    width: usize,
    steps: &mut Steps<L>,
)
    requires live { IsLive (shape lists.now) i }
    requires near { IsNear at }
    requires some { 0 < columns }
    requires some_rows { 0 < rows }
    requires columns { columns ≤ 2 ^ 41 }
    requires rows { rows ≤ 2 ^ 41 }
    requires among { HasRows (spec.block at columns rows) first width (length raws.now) }
    requires inside { (p : Spot) → IsTrue (holds (spec.block at columns rows) p) → IsTrue (holds (image_at (shape lists.now) i).r p) }
    requires steady { (p : Spot) → IsTrue (holds (spec.block at columns rows) p) → top_window (image_at (shape lists.now) i).windows p ≡ top_window (image_at (shape lists.now) i).windows at }
    requires stored { IsStored (shape lists.now) pixels.old }
    requires below { (k : ℕ) → k < length raws.now → slice_index raws.now k < 2 ^ bits_in (form_at pixels.old) i }
    ensures written { IsWritten (shape lists.now) i (holds (spec.block at columns rows)) (λ p. slice_index raws.now (number_in (spec.block at columns rows) first width p)) pixels.old pixels.new }
    ensures steps { steps.new ≤ steps.old + columns * rows }
    ensures writes { writes pixels.new + steps.old ≡ writes pixels.old + steps.new }
{
    if top(&lists.get(i).windows, at).is_none() {
        write_area(
            lists,
            pixels,
            i,
            &block(at, columns, rows),
            raws,
            first,
            width,
            steps,
        );
    }
}

// Puts pixels of rows over which no window begins or ends, which stand among rows of so many, from number `first` on.
fn put_band<L: Ledger>(
    lists: &Lists,
    pixels: &mut KeptPixels,
    i: u32,
    at: Point,
    width: usize,
    rows: u64,
    raws: &[u32],
    first: usize,
    steps: &mut Steps<L>,
)
    requires live { IsLive (shape lists.now) i }
    requires near { IsNear at }
    requires columns { width ≤ 2 ^ 41 }
    requires some { 0 < rows }
    requires rows { rows ≤ 2 ^ 41 }
    requires fits { first + rows * width ≤ length raws.now }
    requires inside { (p : Spot) → IsTrue (holds (spec.block at width rows) p) → IsTrue (holds (image_at (shape lists.now) i).r p) }
    requires steady { (p : Spot) (k : ℕ) → p.y ≡ at.y → k < rows → top_window (image_at (shape lists.now) i).windows (down p k) ≡ top_window (image_at (shape lists.now) i).windows p }
    requires stored { IsStored (shape lists.now) pixels.old }
    requires below { (k : ℕ) → k < length raws.now → slice_index raws.now k < 2 ^ bits_in (form_at pixels.old) i }
    ensures written { IsWritten (shape lists.now) i (holds (spec.block at width rows)) (λ p. slice_index raws.now (number_in (spec.block at width rows) first width p)) pixels.old pixels.new }
    ensures steps { steps.new ≤ steps.old + width * rows }
    ensures writes { writes pixels.new + steps.old ≡ writes pixels.old + steps.new }
{
    let mut done = 0;
    while done < width {
        let q = along(at, done);
        let len = steady_top(&lists.get(i).windows, q, width - done);
        put_block(
            lists,
            pixels,
            i,
            q,
            len,
            rows,
            raws,
            first + done,
            width,
            steps,
        );
        done += len;
    }
}

/// Puts pixels on the points of a rectangle of an image on which nothing stands, at most one for each.
pub fn put_rows<L: Ledger>(
    lists: &Lists,
    pixels: &mut KeptPixels,
    i: u32,
    r: &Rect,
    raws: &[u32],
    steps: &mut Steps<L>,
)
    requires live { IsLive (shape lists.now) i }
    requires near { IsRectNear r.now }
    requires ordered { IsOrdered r.now }
    requires inside { (p : Spot) → IsTrue (holds r.now p) → IsTrue (holds (image_at (shape lists.now) i).r p) }
    requires stored { IsStored (shape lists.now) pixels.old }
    requires raws { length raws.now ≡ height r.now * width r.now }
    requires below { (k : ℕ) → k < length raws.now → slice_index raws.now k < 2 ^ bits_in (form_at pixels.old) i }
    ensures written { IsWritten (shape lists.now) i (holds r.now) (λ p. slice_index raws.now (number_of r.now p)) pixels.old pixels.new }
    ensures steps { steps.new ≤ steps.old + area_of r.now }
    ensures writes { writes pixels.new + steps.old ≡ writes pixels.old + steps.new }
{
    let width = r.width() as usize;
    let height = r.height();
    let mut row = 0;
    while row < height {
        let at = r.point_at(0, row);
        let rows = steady_rows(&lists.get(i).windows, at, height - row);
        let first = row as usize * width;
        put_band(lists, pixels, i, at, width, rows, raws, first, steps);
        row += rows;
    }
}
