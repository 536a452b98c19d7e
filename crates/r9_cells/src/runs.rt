//! Hidden pixels side by side, through the cells that they lie in.

ghost use Rattle.std.specs.Prelude.{◌≡◌, ◌≢◌, ◌+◌, ◌^◌, ◌<◌, ◌≤◌, ℕ, Some, true, length, slice_index, IsTrue, if◌then◌else◌};
ghost use Rattle.r9_geom.specs.declared.Point.{Point as Spot};
ghost use Rattle.r9_geom.specs.Geometry.{carried, holds, strip, IsRectNear};
ghost use Rattle.model_pixel.specs.Channels.{depth};
ghost use Rattle.r9_plane.specs.Pixels.{along, chan_of, pixel_at, rect_of};
ghost use Rattle.r9_store.specs.Tiles.{cell, is_held, pixel, spare};
ghost use Rattle.model_kept.specs.Cells.{cell_of, in_cell};
ghost use Rattle.r9_locate.specs.watched.Watched.{count_of, moment_of};
ghost use Rattle.r9_cells.specs.Rows.{cell_at, cell_place, has_tile, CellPlace};

use super::hiding::cells_across;
use super::table::Cells;
use r9_geom::{Point, Rect, distance};
use r9_locate::locate::along;
use r9_locate::watched::Watched;
use r9_marks::steps::Steps;
use r9_plane::Plane;
use r9_store::TileNo;
use std::sync::ledger::Ledger;

/// A point of a tile, counted from its corner.
#[derive(Clone, Copy)]
pub struct TilePoint {
    pub tile: TileNo,
    pub at: Point,
}

// Points side by side in one cell, from a point of it to the right.
#[derive(Clone, Copy)]
struct Run {
    cell: usize,
    at: Point,
    len: usize,
}

// The first of n points to the right, as far as they lie in one cell.
fn run_of(r: &Rect, p: Point, n: usize) -> Run
    requires near { IsRectNear r.now }
    requires inside { IsTrue (holds r.now p) }
    requires small { cell_of r.now p < 2 ^ 63 }
    requires some { 0 < n }
    ensures some { 0 < result.len }
    ensures most { result.len ≤ n }
    ensures cell { (k : ℕ) → k < result.len → cell_of r.now (along p k) ≡ result.cell }
    ensures at { (k : ℕ) → k < result.len → in_cell r.now (along p k) ≡ along result.at k }
    ensures within { (q : Spot) → IsTrue (holds (strip result.at result.len) q) → IsTrue (holds cell q) }
{
    let across = cells_across(r);
    let column = distance(r.min.x, p.x) as usize;
    let row = distance(r.min.y, p.y) as usize;
    Run {
        cell: row / 32 * across + column / 32,
        at: Point {
            x: (column % 32) as i64,
            y: (row % 32) as i64,
        },
        len: n.min(32 - column % 32),
    }
}

impl Cells {
    ghost use Rattle.r9_cells.specs.Cells.{all_rows, place_pixel, tiles_in};

    /// Where the pixel of a hidden point is, of an image with that rectangle: in the tile of its cell, which no other cell has.
    pub fn in_tile(&self, i: usize, r: &Rect, p: Point) -> TilePoint
        requires near { IsRectNear r.now }
        requires has { IsTrue (has_tile (all_rows self.now) i r.now p) }
        ensures tile { cell_at (all_rows self.now) i (cell_of r.now p) ≡ Some result.tile }
        ensures at { result.at ≡ in_cell r.now p }
        ensures held { is_held (tiles_in self.now) result.tile ≡ true }
        ensures pixel { pixel (tiles_in self.now) result.tile result.at ≡ place_pixel self.now (cell_place i r.now p) }
        ensures alone { (j l : ℕ) → cell_at (all_rows self.now) j l ≡ Some result.tile → (j ≡ i) × (l ≡ cell_of r.now p) }
    {
        let run = run_of(r, p, 1);
        TilePoint {
            tile: self.tile(i, run.cell),
            at: run.at,
        }
    }

    /// Reads hidden pixels side by side, of an image with that rectangle, from a point to the right.
    pub fn read(&self, i: usize, r: &Rect, from: Point, raws: &mut [u32])
        requires near { IsRectNear r.now }
        requires has { (k : ℕ) → k < length raws.old → IsTrue (has_tile (all_rows self.now) i r.now (along from k)) }
        ensures { (k : ℕ) → k < length raws.old → slice_index raws.new k ≡ place_pixel self.now (cell_place i r.now (along from k)) }
    {
        let mut done = 0;
        while done < raws.len() {
            let run = run_of(r, along(from, done), raws.len() - done);
            self.get_row(i, run.cell, run.at, &mut raws[done..done + run.len]);
            done += run.len;
        }
    }

    /// Writes hidden pixels side by side, of an image with that rectangle, from a point to the right, a step for each.
    pub fn write<L: Ledger>(
        &mut self,
        i: usize,
        r: &Rect,
        at: Point,
        raws: &[u32],
        steps: &mut Steps<L>,
    )
        requires near { IsRectNear r.now }
        requires has { (k : ℕ) → k < length raws.now → IsTrue (has_tile (all_rows self.old) i r.now (along at k)) }
        ensures at { (k : ℕ) → k < length raws.now → place_pixel self.new (cell_place i r.now (along at k)) ≡ slice_index raws.now k }
        ensures others { (place : CellPlace) → ((k : ℕ) → k < length raws.now → place ≢ cell_place i r.now (along at k)) → place_pixel self.new place ≡ place_pixel self.old place }
        ensures rows { all_rows self.new ≡ all_rows self.old }
        ensures spare { spare (tiles_in self.new) ≡ spare (tiles_in self.old) }
        ensures steps { steps.new ≡ steps.old + length raws.now }
    {
        let mut done = 0;
        while done < raws.len() {
            let run = run_of(r, along(at, done), raws.len() - done);
            self.put_row(i, run.cell, run.at, &raws[done..done + run.len], steps);
            done += run.len;
        }
    }

    /// Takes hidden pixels side by side, of an image with that rectangle, from a plane, from a point of each to the right, a step
    /// for each. They have no more bits than the plane's channels tell.
    pub fn hide<L: Ledger>(
        &mut self,
        i: usize,
        r: &Rect,
        at: Point,
        n: usize,
        plane: &Plane,
        from: Point,
        steps: &mut Steps<L>,
    )
        requires near { IsRectNear r.now }
        requires has { (k : ℕ) → k < n → IsTrue (has_tile (all_rows self.old) i r.now (along at k)) }
        requires inside { (k : ℕ) → k < n → IsTrue (holds (rect_of plane.now) (along from k)) }
        ensures at { (k : ℕ) → k < n → place_pixel self.new (cell_place i r.now (along at k)) ≡ pixel_at plane.now (along from k) }
        ensures below { (k : ℕ) → k < n → pixel_at plane.now (along from k) < 2 ^ depth (chan_of plane.now) }
        ensures others { (place : CellPlace) → ((k : ℕ) → k < n → place ≢ cell_place i r.now (along at k)) → place_pixel self.new place ≡ place_pixel self.old place }
        ensures rows { all_rows self.new ≡ all_rows self.old }
        ensures spare { spare (tiles_in self.new) ≡ spare (tiles_in self.old) }
        ensures steps { steps.new ≡ steps.old + n }
    {
        let mut done = 0;
        while done < n {
            let run = run_of(r, along(at, done), n - done);
            let there = along(from, done);
            self.copy_row(i, run.cell, run.at, run.len, plane, there, steps);
            done += run.len;
        }
    }

    /// Puts hidden pixels side by side, of an image with that rectangle, into a plane, from a point of each to the right, a step for
    /// each.
    pub fn show<L: Ledger>(
        &self,
        i: usize,
        r: &Rect,
        from: Point,
        n: usize,
        watched: &mut Watched,
        at: Point,
        steps: &mut Steps<L>,
    )
        requires near { IsRectNear r.now }
        requires has { (k : ℕ) → k < n → IsTrue (has_tile (all_rows self.now) i r.now (along from k)) }
        requires inside { (k : ℕ) → k < n → IsTrue (holds (rect_of watched.old.plane) (along at k)) }
        requires below { (k : ℕ) → k < n → place_pixel self.now (cell_place i r.now (along from k)) < 2 ^ depth (chan_of watched.old.plane) }
        ensures rect { rect_of watched.new.plane ≡ rect_of watched.old.plane }
        ensures chan { chan_of watched.new.plane ≡ chan_of watched.old.plane }
        ensures pixels { (q : Spot) → pixel_at watched.new.plane q ≡ (if holds (strip at n) q then place_pixel self.now (cell_place i r.now (carried q at from)) else pixel_at watched.old.plane q) }
        ensures moment { moment_of watched.new ≡ moment_of watched.old }
        ensures few { count_of watched.new ≤ count_of watched.old + n }
        ensures steps { steps.new ≡ steps.old + n }
    {
        let mut done = 0;
        while done < n {
            let run = run_of(r, along(from, done), n - done);
            let there = along(at, done);
            watched.put_row(there, self.row(i, run.cell, run.at, run.len), steps);
            done += run.len;
        }
    }
}
