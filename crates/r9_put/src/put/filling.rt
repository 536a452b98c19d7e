//! One raw pixel that is put on an image, by rectangles on which nothing stands.

ghost use Rattle.std.specs.Prelude.{◌≡◌, ◌+◌, ◌*◌, ◌^◌, ◌<◌, ◌≤◌, ℕ, true, IsTrue};
ghost use Rattle.r9_geom.specs.declared.Point.{Point as Spot};
ghost use Rattle.r9_geom.specs.Geometry.{area_of, holds, IsNear, IsOrdered, IsRectNear};
ghost use Rattle.r9_plane.specs.Pixels.{along};
ghost use Rattle.model_forest.specs.View.{is_bare, top_window};
ghost use Rattle.model_forest.specs.World.{image_at, IsLive};
ghost use Rattle.r9_locate.specs.locate.Forms.{bits_in};
ghost use Rattle.r9_locate.specs.locate.Table.{shape};
ghost use Rattle.r9_pixels.specs.Kept.{form_at, writes};
ghost use Rattle.r9_put.specs.put.Written.{IsStored, IsWritten};
ghost use Rattle.r9_shown.specs.Shown as spec;
ghost use Rattle.r9_shown.specs.Shown.{down};

use r9_geom::{Point, Rect};
use r9_locate::locate::{Lists, along, steady_top, top};
use r9_marks::steps::Steps;
use r9_pixels::KeptPixels;
use r9_shown::{block, paint_area, steady_rows};
use std::sync::ledger::Ledger;

// Writes one raw pixel at the points of a rectangle of an image on which nothing stands.
fn fill_bare<L: Ledger>(
    lists: &Lists,
    pixels: &mut KeptPixels,
    i: u32,
    r: Rect,
    raw: u32,
    steps: &mut Steps<L>,
)
    requires live { IsLive (shape lists.now) i }
    requires near { IsRectNear r }
    requires ordered { IsOrdered r }
    requires inside { (p : Spot) → IsTrue (holds r p) → IsTrue (holds (image_at (shape lists.now) i).r p) }
    requires stored { IsStored (shape lists.now) pixels.old }
    requires below { raw < 2 ^ bits_in (form_at pixels.old) i }
    requires bare { (p : Spot) → IsTrue (holds r p) → is_bare (image_at (shape lists.now) i).windows p ≡ true }
    ensures written { IsWritten (shape lists.now) i (holds r) (λ _. raw) pixels.old pixels.new }
    ensures steps { steps.new ≤ steps.old + area_of r }
    ensures writes { writes pixels.new + steps.old ≡ writes pixels.old + steps.new }
{
    paint_area(lists, pixels, i, &r, raw, steps);
}

// The same of a block over which the same window stands or none: in that case it writes none.
fn fill_block<L: Ledger>(
    lists: &Lists,
    pixels: &mut KeptPixels,
    i: u32,
    at: Point,
    columns: usize,
    rows: u64,
    raw: u32,
    steps: &mut Steps<L>,
)
    requires live { IsLive (shape lists.now) i }
    requires near { IsNear at }
    requires some { 0 < columns }
    requires some_rows { 0 < rows }
    requires columns { columns ≤ 2 ^ 41 }
    requires rows { rows ≤ 2 ^ 41 }
    requires inside { (p : Spot) → IsTrue (holds (spec.block at columns rows) p) → IsTrue (holds (image_at (shape lists.now) i).r p) }
    requires steady { (p : Spot) → IsTrue (holds (spec.block at columns rows) p) → top_window (image_at (shape lists.now) i).windows p ≡ top_window (image_at (shape lists.now) i).windows at }
    requires stored { IsStored (shape lists.now) pixels.old }
    requires below { raw < 2 ^ bits_in (form_at pixels.old) i }
    ensures written { IsWritten (shape lists.now) i (holds (spec.block at columns rows)) (λ _. raw) pixels.old pixels.new }
    ensures steps { steps.new ≤ steps.old + columns * rows }
    ensures writes { writes pixels.new + steps.old ≡ writes pixels.old + steps.new }
{
    if top(&lists.get(i).windows, at).is_none() {
        fill_bare(lists, pixels, i, block(at, columns, rows), raw, steps);
    }
}

// The same of rows over which no window begins or ends.
fn fill_band<L: Ledger>(
    lists: &Lists,
    pixels: &mut KeptPixels,
    i: u32,
    at: Point,
    columns: usize,
    rows: u64,
    raw: u32,
    steps: &mut Steps<L>,
)
    requires live { IsLive (shape lists.now) i }
    requires near { IsNear at }
    requires columns { columns ≤ 2 ^ 41 }
    requires rows { rows ≤ 2 ^ 41 }
    requires some { 0 < rows }
    requires inside { (p : Spot) → IsTrue (holds (spec.block at columns rows) p) → IsTrue (holds (image_at (shape lists.now) i).r p) }
    requires steady { (p : Spot) (k : ℕ) → p.y ≡ at.y → k < rows → top_window (image_at (shape lists.now) i).windows (down p k) ≡ top_window (image_at (shape lists.now) i).windows p }
    requires stored { IsStored (shape lists.now) pixels.old }
    requires below { raw < 2 ^ bits_in (form_at pixels.old) i }
    ensures written { IsWritten (shape lists.now) i (holds (spec.block at columns rows)) (λ _. raw) pixels.old pixels.new }
    ensures steps { steps.new ≤ steps.old + columns * rows }
    ensures writes { writes pixels.new + steps.old ≡ writes pixels.old + steps.new }
{
    let mut done = 0;
    while done < columns {
        let q = along(at, done);
        let len = steady_top(&lists.get(i).windows, q, columns - done);
        fill_block(lists, pixels, i, q, len, rows, raw, steps);
        done += len;
    }
}

/// Writes one raw pixel at the points of a rectangle of an image on which nothing stands, at most one for each. It takes no
/// memory.
pub fn fill_area<L: Ledger>(
    lists: &Lists,
    pixels: &mut KeptPixels,
    i: u32,
    r: &Rect,
    raw: u32,
    steps: &mut Steps<L>,
)
    requires live { IsLive (shape lists.now) i }
    requires near { IsRectNear r.now }
    requires ordered { IsOrdered r.now }
    requires inside { (p : Spot) → IsTrue (holds r.now p) → IsTrue (holds (image_at (shape lists.now) i).r p) }
    requires stored { IsStored (shape lists.now) pixels.old }
    requires below { raw < 2 ^ bits_in (form_at pixels.old) i }
    ensures written { IsWritten (shape lists.now) i (holds r.now) (λ _. raw) pixels.old pixels.new }
    ensures steps { steps.new ≤ steps.old + area_of r.now }
    ensures writes { writes pixels.new + steps.old ≡ writes pixels.old + steps.new }
{
    let columns = r.width() as usize;
    let height = r.height();
    let mut row = 0;
    while row < height {
        let at = r.point_at(0, row);
        let rows = steady_rows(&lists.get(i).windows, at, height - row);
        fill_band(lists, pixels, i, at, columns, rows, raw, steps);
        row += rows;
    }
}
