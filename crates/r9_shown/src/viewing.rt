//! What images show in rectangles, block by block.

ghost use Rattle.std.specs.Prelude.{◌≡◌, ◌≢◌, ◌+◌, ◌*◌, ◌^◌, ◌<◌, ◌≤◌, ℕ, true, length, slice_index, IsTrue, Some};
ghost use Rattle.r9_geom.specs.declared.Point.{Point as Spot};
ghost use Rattle.r9_geom.specs.Geometry.{area_of, carried, height, holds, point_at, strip, width, HasPoints, IsNear, IsOrdered, IsRectNear};
ghost use Rattle.r9_plane.specs.Blocks.{number_in, HasRows};
ghost use Rattle.r9_plane.specs.Pixels.{number_of};
ghost use Rattle.model_forest.specs.World.{image_at, parent_of, IsLive};
ghost use Rattle.model_kept.specs.Keeping.{keeping, own, Place};
ghost use Rattle.r9_locate.specs.locate.Forms.{bits_in, HasBits};
ghost use Rattle.r9_locate.specs.locate.Table.{shape};
ghost use Rattle.r9_shown.specs.Shown as spec;
ghost use Rattle.r9_shown.specs.Blocks.{IsBand, IsKeptFrom};
ghost use Rattle.r9_shown.specs.Shown.{IsKeptBelow};

use super::bands::{beyond, block};
use super::blocks::{Block, Extent, block_of, last_block};
use r9_geom::{Point, Rect};
use r9_locate::locate::{Lists, Pixels};
use r9_marks::steps::Steps;
use std::sync::ledger::Ledger;

// The points where a block is kept.
fn kept_in(part: &Block) -> Rect
    requires near { IsNear part.now.at }
    requires columns { part.now.extent.columns ≤ 2 ^ 41 }
    requires rows { part.now.extent.rows ≤ 2 ^ 41 }
    ensures { result ≡ spec.block part.now.at part.now.extent.columns part.now.extent.rows }
{
    block(part.at, part.extent.columns, part.extent.rows)
}

// Whether an image keeps all its points itself: one that stands nowhere does.
fn keeps_all(lists: &Lists, i: u32) -> bool
    requires { IsLive (shape lists.now) i }
    ensures { result ≡ true → (p : Spot) → keeping (shape lists.now) i p ≡ own i p }
{
    lists.get(i).standing.is_none()
}

// Rows of a rectangle in each column of which the points are kept as in the first one, and where the first and the last columns are.
#[derive(Clone, Copy)]
struct Band {
    first: Block,
    last: Block,
    rows: u64,
}

// A block of so many rows.
fn with_rows(block: &Block, rows: u64) -> Block
    ensures { result ≡ record block.now { extent = record { columns = block.now.extent.columns; rows = rows } } }
{
    Block {
        image: block.image,
        at: block.at,
        extent: Extent {
            columns: block.extent.columns,
            rows,
        },
    }
}

// Where the points of a band of a rectangle from a column on are kept.
fn part_at(lists: &Lists, i: u32, r: &Rect, column: usize, row: u64, band: &Band) -> Block
    requires live { IsLive (shape lists.now) i }
    requires near { IsRectNear r.now }
    requires ordered { IsOrdered r.now }
    requires column { column < width r.now }
    requires band { IsBand (shape lists.now) i r.now row band.now }
    requires inside { (p : Spot) → IsTrue (holds r.now p) → IsTrue (holds (image_at (shape lists.now) i).r p) }
    ensures some { 0 < result.extent.columns }
    ensures most { column + result.extent.columns ≤ width r.now }
    ensures rows { result.extent.rows ≡ band.now.rows }
    ensures kept { IsKeptFrom (shape lists.now) i (point_at r.now column row) result }
{
    if column == 0 {
        return band.first;
    }
    let columns = r.width() as usize - column;
    if columns == band.last.extent.columns {
        return band.last;
    }
    let most = Extent {
        columns,
        rows: band.rows,
    };
    let part = block_of(lists, i, r.point_at(column as u64, row), most);
    with_rows(&part, band.rows)
}

// As many rows of a rectangle from one on as are kept as that one.
fn band_at(lists: &Lists, i: u32, r: &Rect, row: u64) -> Band
    requires live { IsLive (shape lists.now) i }
    requires near { IsRectNear r.now }
    requires ordered { IsOrdered r.now }
    requires some { HasPoints r.now }
    requires row { row < height r.now }
    requires inside { (p : Spot) → IsTrue (holds r.now p) → IsTrue (holds (image_at (shape lists.now) i).r p) }
    ensures { IsBand (shape lists.now) i r.now row result }
{
    let columns = r.width() as usize;
    let at = r.point_at(0, row);
    let most = Extent {
        columns,
        rows: r.height() - row,
    };
    let first = block_of(lists, i, at, most);
    let last = last_block(lists, i, at, columns, &first);
    let rows = last.extent.rows;
    Band {
        first: with_rows(&first, rows),
        last,
        rows,
    }
}

// Reads what an image shows in some rows of a rectangle, in each column of which it is known where it is kept.
fn read_band<P: Pixels>(
    lists: &Lists,
    pixels: &P,
    i: u32,
    r: &Rect,
    row: u64,
    band: &Band,
    raws: &mut [u32],
)
    requires live { IsLive (shape lists.now) i }
    requires near { IsRectNear r.now }
    requires ordered { IsOrdered r.now }
    requires row { row < height r.now }
    requires inside { (p : Spot) → IsTrue (holds r.now p) → IsTrue (holds (image_at (shape lists.now) i).r p) }
    requires band { IsBand (shape lists.now) i r.now row band.now }
    requires room { area_of r.now ≤ length raws.old }
    requires has { (p : Spot) → IsTrue (holds r.now p) → P.has pixels.now (keeping (shape lists.now) i p) ≡ true }
    ensures pixels { (p : Spot) → IsTrue (holds (spec.rows_of r.now row band.now.rows) p) → slice_index raws.new (number_of r.now p) ≡ P.kept pixels.now (keeping (shape lists.now) i p) }
    ensures others { (n : ℕ) → ((p : Spot) → IsTrue (holds (spec.rows_of r.now row band.now.rows) p) → n ≢ number_of r.now p) → slice_index raws.new n ≡ slice_index raws.old n }
{
    let columns = r.width() as usize;
    let mut done = 0;
    while done < columns {
        let part = part_at(lists, i, r, done, row, band);
        let first = row as usize * columns + done;
        pixels.read_block(part.image, &kept_in(&part), raws, first, columns);
        done += part.extent.columns;
    }
}

/// Reads what an image shows in a rectangle of it, row by row.
pub fn read_area<P: Pixels>(lists: &Lists, pixels: &P, i: u32, r: &Rect, raws: &mut [u32])
    requires live { IsLive (shape lists.now) i }
    requires near { IsRectNear r.now }
    requires ordered { IsOrdered r.now }
    requires room { area_of r.now ≤ length raws.old }
    requires inside { (p : Spot) → IsTrue (holds r.now p) → IsTrue (holds (image_at (shape lists.now) i).r p) }
    requires has { (p : Spot) → IsTrue (holds r.now p) → P.has pixels.now (keeping (shape lists.now) i p) ≡ true }
    ensures { (p : Spot) → IsTrue (holds r.now p) → slice_index raws.new (number_of r.now p) ≡ P.kept pixels.now (keeping (shape lists.now) i p) }
{
    if r.is_empty() {
        return;
    }
    if keeps_all(lists, i) {
        pixels.read_block(i, r, raws, 0, r.width() as usize);
        return;
    }
    let height = r.height();
    let mut row = 0;
    while row < height {
        let band = band_at(lists, i, r, row);
        read_band(lists, pixels, i, r, row, &band, raws);
        row += band.rows;
    }
}

// Writes pixels to some rows of a rectangle of what an image shows.
fn write_band<P: Pixels, L: Ledger>(
    lists: &Lists,
    pixels: &mut P,
    i: u32,
    r: &Rect,
    row: u64,
    band: &Band,
    raws: &[u32],
    first: usize,
    across: usize,
    steps: &mut Steps<L>,
)
    requires live { IsLive (shape lists.now) i }
    requires near { IsRectNear r.now }
    requires ordered { IsOrdered r.now }
    requires row { row < height r.now }
    requires inside { (p : Spot) → IsTrue (holds r.now p) → IsTrue (holds (image_at (shape lists.now) i).r p) }
    requires band { IsBand (shape lists.now) i r.now row band.now }
    requires has { (p : Spot) → IsTrue (holds r.now p) → P.has pixels.old (keeping (shape lists.now) i p) ≡ true }
    requires bits { HasBits (shape lists.now) (P.forms pixels.old) }
    requires rows { HasRows r.now first across (length raws.now) }
    requires below { (p : Spot) → IsTrue (holds r.now p) → slice_index raws.now (number_in r.now first across p) < 2 ^ bits_in (P.forms pixels.old) i }
    ensures at { (p : Spot) → IsTrue (holds (spec.rows_of r.now row band.now.rows) p) → P.kept pixels.new (keeping (shape lists.now) i p) ≡ slice_index raws.now (number_in r.now first across p) }
    ensures others { (place : Place) → ((p : Spot) → IsTrue (holds (spec.rows_of r.now row band.now.rows) p) → place ≢ keeping (shape lists.now) i p) → P.kept pixels.new place ≡ P.kept pixels.old place }
    ensures has { P.has pixels.new ≡ P.has pixels.old }
    ensures forms { P.forms pixels.new ≡ P.forms pixels.old }
    ensures moment { P.moment pixels.new ≡ P.moment pixels.old }
    ensures spare { P.spare pixels.new ≡ P.spare pixels.old }
    ensures steps { steps.new ≡ steps.old + width r.now * band.now.rows }
    ensures writes { P.writes pixels.new + steps.old ≡ P.writes pixels.old + steps.new }
{
    let columns = r.width() as usize;
    let mut done = 0;
    while done < columns {
        let part = part_at(lists, i, r, done, row, band);
        let from = first + row as usize * across + done;
        pixels.write_block(part.image, &kept_in(&part), raws, from, across, steps);
        done += part.extent.columns;
    }
}

/// Writes what an image shows in a rectangle of it, where it is kept: pixels that stand among rows of so many, from number `first`
/// on. A step for each.
pub fn write_area<P: Pixels, L: Ledger>(
    lists: &Lists,
    pixels: &mut P,
    i: u32,
    r: &Rect,
    raws: &[u32],
    first: usize,
    width: usize,
    steps: &mut Steps<L>,
)
    requires live { IsLive (shape lists.now) i }
    requires near { IsRectNear r.now }
    requires ordered { IsOrdered r.now }
    requires inside { (p : Spot) → IsTrue (holds r.now p) → IsTrue (holds (image_at (shape lists.now) i).r p) }
    requires has { (p : Spot) → IsTrue (holds r.now p) → P.has pixels.old (keeping (shape lists.now) i p) ≡ true }
    requires bits { HasBits (shape lists.now) (P.forms pixels.old) }
    requires rows { HasRows r.now first width (length raws.now) }
    requires below { (p : Spot) → IsTrue (holds r.now p) → slice_index raws.now (number_in r.now first width p) < 2 ^ bits_in (P.forms pixels.old) i }
    ensures at { (p : Spot) → IsTrue (holds r.now p) → P.kept pixels.new (keeping (shape lists.now) i p) ≡ slice_index raws.now (number_in r.now first width p) }
    ensures others { (place : Place) → ((p : Spot) → IsTrue (holds r.now p) → place ≢ keeping (shape lists.now) i p) → P.kept pixels.new place ≡ P.kept pixels.old place }
    ensures has { P.has pixels.new ≡ P.has pixels.old }
    ensures forms { P.forms pixels.new ≡ P.forms pixels.old }
    ensures moment { P.moment pixels.new ≡ P.moment pixels.old }
    ensures spare { P.spare pixels.new ≡ P.spare pixels.old }
    ensures steps { steps.new ≡ steps.old + area_of r.now }
    ensures writes { P.writes pixels.new + steps.old ≡ P.writes pixels.old + steps.new }
{
    if r.is_empty() {
        return;
    }
    if keeps_all(lists, i) {
        pixels.write_block(i, r, raws, first, width, steps);
        return;
    }
    let height = r.height();
    let mut row = 0;
    while row < height {
        let band = band_at(lists, i, r, row);
        write_band(lists, pixels, i, r, row, &band, raws, first, width, steps);
        row += band.rows;
    }
}

// Writes one raw pixel to some rows of a rectangle of what an image shows.
fn paint_band<P: Pixels, L: Ledger>(
    lists: &Lists,
    pixels: &mut P,
    i: u32,
    r: &Rect,
    row: u64,
    band: &Band,
    raw: u32,
    steps: &mut Steps<L>,
)
    requires live { IsLive (shape lists.now) i }
    requires near { IsRectNear r.now }
    requires ordered { IsOrdered r.now }
    requires row { row < height r.now }
    requires inside { (p : Spot) → IsTrue (holds r.now p) → IsTrue (holds (image_at (shape lists.now) i).r p) }
    requires band { IsBand (shape lists.now) i r.now row band.now }
    requires has { (p : Spot) → IsTrue (holds r.now p) → P.has pixels.old (keeping (shape lists.now) i p) ≡ true }
    requires bits { HasBits (shape lists.now) (P.forms pixels.old) }
    requires below { raw < 2 ^ bits_in (P.forms pixels.old) i }
    ensures at { (p : Spot) → IsTrue (holds (spec.rows_of r.now row band.now.rows) p) → P.kept pixels.new (keeping (shape lists.now) i p) ≡ raw }
    ensures others { (place : Place) → ((p : Spot) → IsTrue (holds (spec.rows_of r.now row band.now.rows) p) → place ≢ keeping (shape lists.now) i p) → P.kept pixels.new place ≡ P.kept pixels.old place }
    ensures has { P.has pixels.new ≡ P.has pixels.old }
    ensures forms { P.forms pixels.new ≡ P.forms pixels.old }
    ensures moment { P.moment pixels.new ≡ P.moment pixels.old }
    ensures spare { P.spare pixels.new ≡ P.spare pixels.old }
    ensures steps { steps.new ≡ steps.old + width r.now * band.now.rows }
    ensures writes { P.writes pixels.new + steps.old ≡ P.writes pixels.old + steps.new }
{
    let columns = r.width() as usize;
    let mut done = 0;
    while done < columns {
        let part = part_at(lists, i, r, done, row, band);
        pixels.fill_block(part.image, &kept_in(&part), raw, steps);
        done += part.extent.columns;
    }
}

/// Writes one raw pixel at all points of a rectangle of what an image shows, where it is kept, a step for each.
pub fn paint_area<P: Pixels, L: Ledger>(
    lists: &Lists,
    pixels: &mut P,
    i: u32,
    r: &Rect,
    raw: u32,
    steps: &mut Steps<L>,
)
    requires live { IsLive (shape lists.now) i }
    requires near { IsRectNear r.now }
    requires ordered { IsOrdered r.now }
    requires inside { (p : Spot) → IsTrue (holds r.now p) → IsTrue (holds (image_at (shape lists.now) i).r p) }
    requires has { (p : Spot) → IsTrue (holds r.now p) → P.has pixels.old (keeping (shape lists.now) i p) ≡ true }
    requires bits { HasBits (shape lists.now) (P.forms pixels.old) }
    requires below { raw < 2 ^ bits_in (P.forms pixels.old) i }
    ensures at { (p : Spot) → IsTrue (holds r.now p) → P.kept pixels.new (keeping (shape lists.now) i p) ≡ raw }
    ensures others { (place : Place) → ((p : Spot) → IsTrue (holds r.now p) → place ≢ keeping (shape lists.now) i p) → P.kept pixels.new place ≡ P.kept pixels.old place }
    ensures has { P.has pixels.new ≡ P.has pixels.old }
    ensures forms { P.forms pixels.new ≡ P.forms pixels.old }
    ensures moment { P.moment pixels.new ≡ P.moment pixels.old }
    ensures spare { P.spare pixels.new ≡ P.spare pixels.old }
    ensures steps { steps.new ≡ steps.old + area_of r.now }
    ensures writes { P.writes pixels.new + steps.old ≡ P.writes pixels.old + steps.new }
{
    if r.is_empty() {
        return;
    }
    if keeps_all(lists, i) {
        pixels.fill_block(i, r, raw, steps);
        return;
    }
    let height = r.height();
    let mut row = 0;
    while row < height {
        let band = band_at(lists, i, r, row);
        paint_band(lists, pixels, i, r, row, &band, raw, steps);
        row += band.rows;
    }
}

// Copies what an image shows in some rows of a rectangle to a window on it.
fn save_band<P: Pixels, L: Ledger>(
    lists: &Lists,
    pixels: &mut P,
    i: u32,
    r: &Rect,
    row: u64,
    band: &Band,
    to: u32,
    p: Point,
    steps: &mut Steps<L>,
)
    requires live { IsLive (shape lists.now) i }
    requires near { IsRectNear r.now }
    requires ordered { IsOrdered r.now }
    requires row { row < height r.now }
    requires inside { (p : Spot) → IsTrue (holds r.now p) → IsTrue (holds (image_at (shape lists.now) i).r p) }
    requires band { IsBand (shape lists.now) i r.now row band.now }
    requires stands { parent_of (shape lists.now) to ≡ Some i }
    requires point { IsNear p }
    requires had { (q : Spot) → IsTrue (holds r.now q) → P.has pixels.old (keeping (shape lists.now) i q) ≡ true }
    requires has { (q : Spot) → IsTrue (holds r.now q) → P.has pixels.old (own to (carried q r.now.min p)) ≡ true }
    requires bits { HasBits (shape lists.now) (P.forms pixels.old) }
    ensures at { (q : Spot) → IsTrue (holds (spec.rows_of r.now row band.now.rows) q) → P.kept pixels.new (own to (carried q r.now.min p)) ≡ P.kept pixels.old (keeping (shape lists.now) i q) }
    ensures others { (place : Place) → ((q : Spot) → IsTrue (holds (spec.rows_of r.now row band.now.rows) q) → place ≢ own to (carried q r.now.min p)) → P.kept pixels.new place ≡ P.kept pixels.old place }
    ensures has { P.has pixels.new ≡ P.has pixels.old }
    ensures forms { P.forms pixels.new ≡ P.forms pixels.old }
    ensures moment { P.moment pixels.new ≡ P.moment pixels.old }
    ensures spare { P.spare pixels.new ≡ P.spare pixels.old }
    ensures steps { steps.new ≡ steps.old + width r.now * band.now.rows }
    ensures writes { P.writes pixels.new + steps.old ≡ P.writes pixels.old + steps.new }
{
    let columns = r.width() as usize;
    let mut done = 0;
    while done < columns {
        let part = part_at(lists, i, r, done, row, band);
        let there = beyond(p, done, row);
        pixels.carry_block(part.image, &kept_in(&part), to, there, steps);
        done += part.extent.columns;
    }
}

/// Copies what an image shows in a rectangle of it to where a window on it keeps its own pixels from a point on, a step for each.
pub fn save_area<P: Pixels, L: Ledger>(
    lists: &Lists,
    pixels: &mut P,
    i: u32,
    r: &Rect,
    to: u32,
    p: Point,
    steps: &mut Steps<L>,
)
    requires live { IsLive (shape lists.now) i }
    requires stands { parent_of (shape lists.now) to ≡ Some i }
    requires near { IsRectNear r.now }
    requires ordered { IsOrdered r.now }
    requires point { IsNear p }
    requires inside { (q : Spot) → IsTrue (holds r.now q) → IsTrue (holds (image_at (shape lists.now) i).r q) }
    requires had { (q : Spot) → IsTrue (holds r.now q) → P.has pixels.old (keeping (shape lists.now) i q) ≡ true }
    requires has { (q : Spot) → IsTrue (holds r.now q) → P.has pixels.old (own to (carried q r.now.min p)) ≡ true }
    requires bits { HasBits (shape lists.now) (P.forms pixels.old) }
    ensures at { (q : Spot) → IsTrue (holds r.now q) → P.kept pixels.new (own to (carried q r.now.min p)) ≡ P.kept pixels.old (keeping (shape lists.now) i q) }
    ensures others { (place : Place) → ((q : Spot) → IsTrue (holds r.now q) → place ≢ own to (carried q r.now.min p)) → P.kept pixels.new place ≡ P.kept pixels.old place }
    ensures has { P.has pixels.new ≡ P.has pixels.old }
    ensures forms { P.forms pixels.new ≡ P.forms pixels.old }
    ensures moment { P.moment pixels.new ≡ P.moment pixels.old }
    ensures spare { P.spare pixels.new ≡ P.spare pixels.old }
    ensures steps { steps.new ≡ steps.old + area_of r.now }
    ensures writes { P.writes pixels.new + steps.old ≡ P.writes pixels.old + steps.new }
{
    if r.is_empty() {
        return;
    }
    if keeps_all(lists, i) {
        pixels.carry_block(i, r, to, p, steps);
        return;
    }
    let height = r.height();
    let mut row = 0;
    while row < height {
        let band = band_at(lists, i, r, row);
        save_band(lists, pixels, i, r, row, &band, to, p, steps);
        row += band.rows;
    }
}

// Copies own pixels of a window to some rows of a rectangle of what the image on which it stands shows.
fn show_band<P: Pixels, L: Ledger>(
    lists: &Lists,
    pixels: &mut P,
    from: u32,
    at: Point,
    i: u32,
    r: &Rect,
    row: u64,
    band: &Band,
    steps: &mut Steps<L>,
)
    requires live { IsLive (shape lists.now) i }
    requires near { IsRectNear r.now }
    requires ordered { IsOrdered r.now }
    requires row { row < height r.now }
    requires inside { (p : Spot) → IsTrue (holds r.now p) → IsTrue (holds (image_at (shape lists.now) i).r p) }
    requires band { IsBand (shape lists.now) i r.now row band.now }
    requires stands { parent_of (shape lists.now) from ≡ Some i }
    requires point { IsNear at }
    requires of_window { (q : Spot) → IsTrue (holds r.now q) → IsTrue (holds (image_at (shape lists.now) from).r (carried q r.now.min at)) }
    requires had { (q : Spot) → IsTrue (holds r.now q) → P.has pixels.old (own from (carried q r.now.min at)) ≡ true }
    requires has { (p : Spot) → IsTrue (holds r.now p) → P.has pixels.old (keeping (shape lists.now) i p) ≡ true }
    requires bits { HasBits (shape lists.now) (P.forms pixels.old) }
    ensures at { (q : Spot) → IsTrue (holds (spec.rows_of r.now row band.now.rows) q) → P.kept pixels.new (keeping (shape lists.now) i q) ≡ P.kept pixels.old (own from (carried q r.now.min at)) }
    ensures others { (place : Place) → ((p : Spot) → IsTrue (holds (spec.rows_of r.now row band.now.rows) p) → place ≢ keeping (shape lists.now) i p) → P.kept pixels.new place ≡ P.kept pixels.old place }
    ensures has { P.has pixels.new ≡ P.has pixels.old }
    ensures forms { P.forms pixels.new ≡ P.forms pixels.old }
    ensures moment { P.moment pixels.new ≡ P.moment pixels.old }
    ensures spare { P.spare pixels.new ≡ P.spare pixels.old }
    ensures steps { steps.new ≡ steps.old + width r.now * band.now.rows }
    ensures writes { P.writes pixels.new + steps.old ≡ P.writes pixels.old + steps.new }
{
    let columns = r.width() as usize;
    let mut done = 0;
    while done < columns {
        let part = part_at(lists, i, r, done, row, band);
        let here = beyond(at, done, row);
        let kept = block(here, part.extent.columns, part.extent.rows);
        pixels.carry_block(from, &kept, part.image, part.at, steps);
        done += part.extent.columns;
    }
}

/// Copies own pixels of a window from a point on to where the image on which it stands shows a rectangle, a step for each.
pub fn show_area<P: Pixels, L: Ledger>(
    lists: &Lists,
    pixels: &mut P,
    from: u32,
    at: Point,
    i: u32,
    r: &Rect,
    steps: &mut Steps<L>,
)
    requires live { IsLive (shape lists.now) i }
    requires stands { parent_of (shape lists.now) from ≡ Some i }
    requires near { IsRectNear r.now }
    requires ordered { IsOrdered r.now }
    requires point { IsNear at }
    requires inside { (q : Spot) → IsTrue (holds r.now q) → IsTrue (holds (image_at (shape lists.now) i).r q) }
    requires of_window { (q : Spot) → IsTrue (holds r.now q) → IsTrue (holds (image_at (shape lists.now) from).r (carried q r.now.min at)) }
    requires had { (q : Spot) → IsTrue (holds r.now q) → P.has pixels.old (own from (carried q r.now.min at)) ≡ true }
    requires has { (q : Spot) → IsTrue (holds r.now q) → P.has pixels.old (keeping (shape lists.now) i q) ≡ true }
    requires bits { HasBits (shape lists.now) (P.forms pixels.old) }
    ensures at { (q : Spot) → IsTrue (holds r.now q) → P.kept pixels.new (keeping (shape lists.now) i q) ≡ P.kept pixels.old (own from (carried q r.now.min at)) }
    ensures others { (place : Place) → ((q : Spot) → IsTrue (holds r.now q) → place ≢ keeping (shape lists.now) i q) → P.kept pixels.new place ≡ P.kept pixels.old place }
    ensures has { P.has pixels.new ≡ P.has pixels.old }
    ensures forms { P.forms pixels.new ≡ P.forms pixels.old }
    ensures moment { P.moment pixels.new ≡ P.moment pixels.old }
    ensures spare { P.spare pixels.new ≡ P.spare pixels.old }
    ensures steps { steps.new ≡ steps.old + area_of r.now }
    ensures writes { P.writes pixels.new + steps.old ≡ P.writes pixels.old + steps.new }
{
    if r.is_empty() {
        return;
    }
    if keeps_all(lists, i) {
        pixels.carry_block(from, &r.at_min(at), i, r.min, steps);
        return;
    }
    let height = r.height();
    let mut row = 0;
    while row < height {
        let band = band_at(lists, i, r, row);
        show_band(lists, pixels, from, at, i, r, row, &band, steps);
        row += band.rows;
    }
}
