//! Hidden pixels of rectangles, through the cells that they lie in: one row of cells after the other, and in that one cell after
//! the other.

ghost use Rattle.std.specs.Prelude.{◌≡◌, ◌≢◌, ◌+◌, ◌*◌, ◌-◌, ◌%◌, ◌^◌, ◌<◌, ◌≤◌, ◌≤ℤ◌, ◌+ℤ◌, ℕ, length, min, pos, slice_index, IsTrue, if◌then◌else◌};
ghost use Rattle.r9_geom.specs.declared.Point.{Point as Spot};
ghost use Rattle.r9_geom.specs.Geometry.{area_of, carried, distance as distance_of, height, holds, width as width_of, HasPoints, IsNear, IsOrdered, IsRectNear};
ghost use Rattle.model_pixel.specs.Channels.{depth};
ghost use Rattle.r9_plane.specs.Blocks.{number_in, HasRows};
ghost use Rattle.r9_plane.specs.Pixels.{chan_of, pixel_at, rect_of};
ghost use Rattle.r9_store.specs.Tiles.{cell, place_of, spare};
ghost use Rattle.model_kept.specs.Cells.{cell_of, in_cell};
ghost use Rattle.r9_cells.specs.Blocks.{band_from, part_from, IsInCell, IsInRow};
ghost use Rattle.r9_locate.specs.watched.Watched.{count_of, moment_of};
ghost use Rattle.r9_cells.specs.Rows.{cell_place, has_tile, CellPlace};

use super::hiding::cells_across;
use super::table::Cells;
use r9_geom::{Point, Rect, distance};
use r9_locate::watched::Watched;
use r9_marks::steps::Steps;
use r9_plane::{Plane, copy_rows};
use std::sync::ledger::Ledger;

// How many points there are from one on, of n, to the end of its cell.
fn to_edge(from: i64, at: i64, n: u64) -> u64
    requires from { from ≤ℤ at }
    requires some { 0 < n }
    ensures value { result ≡ min n (32 - distance_of from at % 32) }
    ensures some { 0 < result }
{
    n.min(32 - distance(from, at) % 32)
}

// The points of a rectangle from a row on, as far as they lie in one row of cells of rectangle r.
fn band_of(r: &Rect, block: &Rect, row: u64) -> Rect
    requires near { IsRectNear block.now }
    requires some { HasPoints block.now }
    requires row { row < height block.now }
    requires inside { (p : Spot) → IsTrue (holds block.now p) → IsTrue (holds r.now p) }
    ensures { result ≡ band_from r.now block.now row }
{
    let min = block.point_at(0, row);
    let rows = to_edge(r.min.y, min.y, block.height() - row);
    Rect {
        min,
        max: Point {
            x: block.max.x,
            y: min.y + rows as i64,
        },
    }
}

// The points of a rectangle from a column on, as far as they lie in one column of cells of rectangle r.
fn part_of(r: &Rect, band: &Rect, column: u64) -> Rect
    requires near { IsRectNear band.now }
    requires some { HasPoints band.now }
    requires column { column < width_of band.now }
    requires inside { (p : Spot) → IsTrue (holds band.now p) → IsTrue (holds r.now p) }
    ensures { result ≡ part_from r.now band.now column }
{
    let min = band.point_at(column, 0);
    let columns = to_edge(r.min.x, min.x, band.width() - column);
    Rect {
        min,
        max: Point {
            x: min.x + columns as i64,
            y: band.max.y,
        },
    }
}

// A point as it is counted from the corner of its cell.
fn inner(r: &Rect, p: Point) -> Point
    requires { IsTrue (holds r.now p) }
    ensures value { result ≡ in_cell r.now p }
    ensures within { IsTrue (holds cell result) }
{
    Point {
        x: (distance(r.min.x, p.x) % 32) as i64,
        y: (distance(r.min.y, p.y) % 32) as i64,
    }
}

// The cell of a point.
fn cell_at(r: &Rect, p: Point) -> usize
    requires near { IsRectNear r.now }
    requires inside { IsTrue (holds r.now p) }
    requires small { cell_of r.now p < 2 ^ 63 }
    ensures { result ≡ cell_of r.now p }
{
    let column = distance(r.min.x, p.x) as usize;
    let row = distance(r.min.y, p.y) as usize;
    row / 32 * cells_across(r) + column / 32
}

// Where a point stands in the tile of its cell.
fn place_at(r: &Rect, p: Point) -> usize
    requires { IsTrue (holds r.now p) }
    ensures value { result ≡ place_of (in_cell r.now p) }
    ensures below { result < 1024 }
{
    let at = inner(r, p);
    32 * distance(0, at.y) as usize + distance(0, at.x) as usize
}

// The point so many columns to the right.
fn right(at: Point, columns: u64) -> Point
    requires near { IsNear at }
    requires columns { columns ≤ 2 ^ 41 }
    ensures { result ≡ record { x = at.x +ℤ pos columns; y = at.y } }
{
    Point {
        x: at.x + columns as i64,
        y: at.y,
    }
}

// The point so many rows down.
fn down(at: Point, rows: u64) -> Point
    requires near { IsNear at }
    requires rows { rows ≤ 2 ^ 41 }
    ensures { result ≡ record { x = at.x; y = at.y +ℤ pos rows } }
{
    Point {
        x: at.x,
        y: at.y + rows as i64,
    }
}

impl Cells {
    ghost use Rattle.r9_cells.specs.Cells.{all_rows, place_pixel, tiles_in};

    // Reads the hidden pixels of a rectangle of an image with rectangle r in one cell.
    fn read_part(
        &self,
        i: usize,
        r: &Rect,
        part: &Rect,
        raws: &mut [u32],
        first: usize,
        width: usize,
    )
        requires near { IsRectNear r.now }
        requires also { IsRectNear part.now }
        requires ordered { IsOrdered part.now }
        requires some { HasPoints part.now }
        requires part { IsInCell r.now part.now }
        requires has { (p : Spot) → IsTrue (holds part.now p) → IsTrue (has_tile (all_rows self.now) i r.now p) }
        requires rows { HasRows part.now first width (length raws.old) }
        ensures pixels { (p : Spot) → IsTrue (holds part.now p) → slice_index raws.new (number_in part.now first width p) ≡ place_pixel self.now (cell_place i r.now p) }
        ensures others { (n : ℕ) → ((p : Spot) → IsTrue (holds part.now p) → n ≢ number_in part.now first width p) → slice_index raws.new n ≡ slice_index raws.old n }
    {
        let tile = self.tile(i, cell_at(r, part.min));
        let pixels = self.store().tile(tile);
        let place = place_at(r, part.min);
        copy_rows(raws, first, width, part, pixels, place, 32);
    }

    // The same in one row of cells.
    fn read_band(
        &self,
        i: usize,
        r: &Rect,
        band: &Rect,
        raws: &mut [u32],
        first: usize,
        width: usize,
    )
        requires near { IsRectNear r.now }
        requires also { IsRectNear band.now }
        requires ordered { IsOrdered band.now }
        requires some { HasPoints band.now }
        requires band { IsInRow r.now band.now }
        requires has { (p : Spot) → IsTrue (holds band.now p) → IsTrue (has_tile (all_rows self.now) i r.now p) }
        requires rows { HasRows band.now first width (length raws.old) }
        ensures pixels { (p : Spot) → IsTrue (holds band.now p) → slice_index raws.new (number_in band.now first width p) ≡ place_pixel self.now (cell_place i r.now p) }
        ensures others { (n : ℕ) → ((p : Spot) → IsTrue (holds band.now p) → n ≢ number_in band.now first width p) → slice_index raws.new n ≡ slice_index raws.old n }
    {
        let mut column = 0;
        while column < band.width() {
            let part = part_of(r, band, column);
            let start = first + column as usize;
            self.read_part(i, r, &part, raws, start, width);
            column += part.width();
        }
    }

    /// Reads the hidden pixels of a rectangle, of an image with rectangle r, among rows of so many.
    pub fn read_block(
        &self,
        i: usize,
        r: &Rect,
        block: &Rect,
        raws: &mut [u32],
        first: usize,
        width: usize,
    )
        requires near { IsRectNear r.now }
        requires also { IsRectNear block.now }
        requires ordered { IsOrdered block.now }
        requires some { HasPoints block.now }
        requires has { (p : Spot) → IsTrue (holds block.now p) → IsTrue (has_tile (all_rows self.now) i r.now p) }
        requires rows { HasRows block.now first width (length raws.old) }
        ensures pixels { (p : Spot) → IsTrue (holds block.now p) → slice_index raws.new (number_in block.now first width p) ≡ place_pixel self.now (cell_place i r.now p) }
        ensures others { (n : ℕ) → ((p : Spot) → IsTrue (holds block.now p) → n ≢ number_in block.now first width p) → slice_index raws.new n ≡ slice_index raws.old n }
    {
        let mut row = 0;
        while row < block.height() {
            let band = band_of(r, block, row);
            let start = first + row as usize * width;
            self.read_band(i, r, &band, raws, start, width);
            row += band.height();
        }
    }

    // Writes the hidden pixels of a rectangle of an image with rectangle r in one cell.
    fn write_part<L: Ledger>(
        &mut self,
        i: usize,
        r: &Rect,
        part: &Rect,
        raws: &[u32],
        first: usize,
        width: usize,
        steps: &mut Steps<L>,
    )
        requires near { IsRectNear r.now }
        requires also { IsRectNear part.now }
        requires ordered { IsOrdered part.now }
        requires some { HasPoints part.now }
        requires part { IsInCell r.now part.now }
        requires has { (p : Spot) → IsTrue (holds part.now p) → IsTrue (has_tile (all_rows self.old) i r.now p) }
        requires rows { HasRows part.now first width (length raws.now) }
        ensures at { (p : Spot) → IsTrue (holds part.now p) → place_pixel self.new (cell_place i r.now p) ≡ slice_index raws.now (number_in part.now first width p) }
        ensures others { (place : CellPlace) → ((p : Spot) → IsTrue (holds part.now p) → place ≢ cell_place i r.now p) → place_pixel self.new place ≡ place_pixel self.old place }
        ensures rows { all_rows self.new ≡ all_rows self.old }
        ensures spare { spare (tiles_in self.new) ≡ spare (tiles_in self.old) }
        ensures steps { steps.new ≡ steps.old + area_of part.now }
    {
        let at = part.at_min(inner(r, part.min));
        self.put_block(i, cell_at(r, part.min), &at, raws, first, width, steps);
    }

    // The same in one row of cells.
    fn write_band<L: Ledger>(
        &mut self,
        i: usize,
        r: &Rect,
        band: &Rect,
        raws: &[u32],
        first: usize,
        width: usize,
        steps: &mut Steps<L>,
    )
        requires near { IsRectNear r.now }
        requires also { IsRectNear band.now }
        requires ordered { IsOrdered band.now }
        requires some { HasPoints band.now }
        requires band { IsInRow r.now band.now }
        requires has { (p : Spot) → IsTrue (holds band.now p) → IsTrue (has_tile (all_rows self.old) i r.now p) }
        requires rows { HasRows band.now first width (length raws.now) }
        ensures at { (p : Spot) → IsTrue (holds band.now p) → place_pixel self.new (cell_place i r.now p) ≡ slice_index raws.now (number_in band.now first width p) }
        ensures others { (place : CellPlace) → ((p : Spot) → IsTrue (holds band.now p) → place ≢ cell_place i r.now p) → place_pixel self.new place ≡ place_pixel self.old place }
        ensures rows { all_rows self.new ≡ all_rows self.old }
        ensures spare { spare (tiles_in self.new) ≡ spare (tiles_in self.old) }
        ensures steps { steps.new ≡ steps.old + area_of band.now }
    {
        let mut column = 0;
        while column < band.width() {
            let part = part_of(r, band, column);
            let start = first + column as usize;
            self.write_part(i, r, &part, raws, start, width, steps);
            column += part.width();
        }
    }

    /// Writes the hidden pixels of a rectangle, of an image with rectangle r, which stand among rows of so many, a step for each.
    pub fn write_block<L: Ledger>(
        &mut self,
        i: usize,
        r: &Rect,
        block: &Rect,
        raws: &[u32],
        first: usize,
        width: usize,
        steps: &mut Steps<L>,
    )
        requires near { IsRectNear r.now }
        requires also { IsRectNear block.now }
        requires ordered { IsOrdered block.now }
        requires some { HasPoints block.now }
        requires has { (p : Spot) → IsTrue (holds block.now p) → IsTrue (has_tile (all_rows self.old) i r.now p) }
        requires rows { HasRows block.now first width (length raws.now) }
        ensures at { (p : Spot) → IsTrue (holds block.now p) → place_pixel self.new (cell_place i r.now p) ≡ slice_index raws.now (number_in block.now first width p) }
        ensures others { (place : CellPlace) → ((p : Spot) → IsTrue (holds block.now p) → place ≢ cell_place i r.now p) → place_pixel self.new place ≡ place_pixel self.old place }
        ensures rows { all_rows self.new ≡ all_rows self.old }
        ensures spare { spare (tiles_in self.new) ≡ spare (tiles_in self.old) }
        ensures steps { steps.new ≡ steps.old + area_of block.now }
    {
        let mut row = 0;
        while row < block.height() {
            let band = band_of(r, block, row);
            let start = first + row as usize * width;
            self.write_band(i, r, &band, raws, start, width, steps);
            row += band.height();
        }
    }

    // Writes one raw pixel at all hidden points of a rectangle of an image with rectangle r in one cell.
    fn fill_part<L: Ledger>(
        &mut self,
        i: usize,
        r: &Rect,
        part: &Rect,
        raw: u32,
        steps: &mut Steps<L>,
    )
        requires near { IsRectNear r.now }
        requires also { IsRectNear part.now }
        requires ordered { IsOrdered part.now }
        requires some { HasPoints part.now }
        requires part { IsInCell r.now part.now }
        requires has { (p : Spot) → IsTrue (holds part.now p) → IsTrue (has_tile (all_rows self.old) i r.now p) }
        ensures at { (p : Spot) → IsTrue (holds part.now p) → place_pixel self.new (cell_place i r.now p) ≡ raw }
        ensures others { (place : CellPlace) → ((p : Spot) → IsTrue (holds part.now p) → place ≢ cell_place i r.now p) → place_pixel self.new place ≡ place_pixel self.old place }
        ensures rows { all_rows self.new ≡ all_rows self.old }
        ensures spare { spare (tiles_in self.new) ≡ spare (tiles_in self.old) }
        ensures steps { steps.new ≡ steps.old + area_of part.now }
    {
        let at = part.at_min(inner(r, part.min));
        self.fill_in(i, cell_at(r, part.min), &at, raw, steps);
    }

    // The same in one row of cells.
    fn fill_band<L: Ledger>(
        &mut self,
        i: usize,
        r: &Rect,
        band: &Rect,
        raw: u32,
        steps: &mut Steps<L>,
    )
        requires near { IsRectNear r.now }
        requires also { IsRectNear band.now }
        requires ordered { IsOrdered band.now }
        requires some { HasPoints band.now }
        requires band { IsInRow r.now band.now }
        requires has { (p : Spot) → IsTrue (holds band.now p) → IsTrue (has_tile (all_rows self.old) i r.now p) }
        ensures at { (p : Spot) → IsTrue (holds band.now p) → place_pixel self.new (cell_place i r.now p) ≡ raw }
        ensures others { (place : CellPlace) → ((p : Spot) → IsTrue (holds band.now p) → place ≢ cell_place i r.now p) → place_pixel self.new place ≡ place_pixel self.old place }
        ensures rows { all_rows self.new ≡ all_rows self.old }
        ensures spare { spare (tiles_in self.new) ≡ spare (tiles_in self.old) }
        ensures steps { steps.new ≡ steps.old + area_of band.now }
    {
        let mut column = 0;
        while column < band.width() {
            let part = part_of(r, band, column);
            self.fill_part(i, r, &part, raw, steps);
            column += part.width();
        }
    }

    /// Writes one raw pixel at all hidden points of a rectangle, of an image with rectangle r, a step for each.
    pub fn fill_block<L: Ledger>(
        &mut self,
        i: usize,
        r: &Rect,
        block: &Rect,
        raw: u32,
        steps: &mut Steps<L>,
    )
        requires near { IsRectNear r.now }
        requires also { IsRectNear block.now }
        requires ordered { IsOrdered block.now }
        requires some { HasPoints block.now }
        requires has { (p : Spot) → IsTrue (holds block.now p) → IsTrue (has_tile (all_rows self.old) i r.now p) }
        ensures at { (p : Spot) → IsTrue (holds block.now p) → place_pixel self.new (cell_place i r.now p) ≡ raw }
        ensures others { (place : CellPlace) → ((p : Spot) → IsTrue (holds block.now p) → place ≢ cell_place i r.now p) → place_pixel self.new place ≡ place_pixel self.old place }
        ensures rows { all_rows self.new ≡ all_rows self.old }
        ensures spare { spare (tiles_in self.new) ≡ spare (tiles_in self.old) }
        ensures steps { steps.new ≡ steps.old + area_of block.now }
    {
        let mut row = 0;
        while row < block.height() {
            let band = band_of(r, block, row);
            self.fill_band(i, r, &band, raw, steps);
            row += band.height();
        }
    }

    // Takes the hidden pixels of a rectangle of an image with rectangle r from a plane in one cell.
    fn hide_part<L: Ledger>(
        &mut self,
        i: usize,
        r: &Rect,
        part: &Rect,
        plane: &Plane,
        from: Point,
        steps: &mut Steps<L>,
    )
        requires near { IsRectNear r.now }
        requires also { IsRectNear part.now }
        requires ordered { IsOrdered part.now }
        requires some { HasPoints part.now }
        requires part { IsInCell r.now part.now }
        requires has { (p : Spot) → IsTrue (holds part.now p) → IsTrue (has_tile (all_rows self.old) i r.now p) }
        requires from { IsNear from }
        requires inside { (p : Spot) → IsTrue (holds part.now p) → IsTrue (holds (rect_of plane.now) (carried p part.now.min from)) }
        ensures at { (p : Spot) → IsTrue (holds part.now p) → place_pixel self.new (cell_place i r.now p) ≡ pixel_at plane.now (carried p part.now.min from) }
        ensures below { (p : Spot) → IsTrue (holds part.now p) → pixel_at plane.now (carried p part.now.min from) < 2 ^ depth (chan_of plane.now) }
        ensures others { (place : CellPlace) → ((p : Spot) → IsTrue (holds part.now p) → place ≢ cell_place i r.now p) → place_pixel self.new place ≡ place_pixel self.old place }
        ensures rows { all_rows self.new ≡ all_rows self.old }
        ensures spare { spare (tiles_in self.new) ≡ spare (tiles_in self.old) }
        ensures steps { steps.new ≡ steps.old + area_of part.now }
    {
        let at = inner(r, part.min);
        self.copy_block(
            i,
            cell_at(r, part.min),
            at,
            plane,
            &part.at_min(from),
            steps,
        );
    }

    // The same in one row of cells.
    fn hide_band<L: Ledger>(
        &mut self,
        i: usize,
        r: &Rect,
        band: &Rect,
        plane: &Plane,
        from: Point,
        steps: &mut Steps<L>,
    )
        requires near { IsRectNear r.now }
        requires also { IsRectNear band.now }
        requires ordered { IsOrdered band.now }
        requires some { HasPoints band.now }
        requires band { IsInRow r.now band.now }
        requires has { (p : Spot) → IsTrue (holds band.now p) → IsTrue (has_tile (all_rows self.old) i r.now p) }
        requires from { IsNear from }
        requires inside { (p : Spot) → IsTrue (holds band.now p) → IsTrue (holds (rect_of plane.now) (carried p band.now.min from)) }
        ensures at { (p : Spot) → IsTrue (holds band.now p) → place_pixel self.new (cell_place i r.now p) ≡ pixel_at plane.now (carried p band.now.min from) }
        ensures below { (p : Spot) → IsTrue (holds band.now p) → pixel_at plane.now (carried p band.now.min from) < 2 ^ depth (chan_of plane.now) }
        ensures others { (place : CellPlace) → ((p : Spot) → IsTrue (holds band.now p) → place ≢ cell_place i r.now p) → place_pixel self.new place ≡ place_pixel self.old place }
        ensures rows { all_rows self.new ≡ all_rows self.old }
        ensures spare { spare (tiles_in self.new) ≡ spare (tiles_in self.old) }
        ensures steps { steps.new ≡ steps.old + area_of band.now }
    {
        let mut column = 0;
        while column < band.width() {
            let part = part_of(r, band, column);
            let there = right(from, column);
            self.hide_part(i, r, &part, plane, there, steps);
            column += part.width();
        }
    }

    /// Takes the hidden pixels of a rectangle, of an image with rectangle r, from a plane, where it stands from another point on, a
    /// step for each. They have no more bits than the plane's channels tell.
    pub fn hide_block<L: Ledger>(
        &mut self,
        i: usize,
        r: &Rect,
        block: &Rect,
        plane: &Plane,
        from: Point,
        steps: &mut Steps<L>,
    )
        requires near { IsRectNear r.now }
        requires also { IsRectNear block.now }
        requires ordered { IsOrdered block.now }
        requires some { HasPoints block.now }
        requires has { (p : Spot) → IsTrue (holds block.now p) → IsTrue (has_tile (all_rows self.old) i r.now p) }
        requires from { IsNear from }
        requires inside { (p : Spot) → IsTrue (holds block.now p) → IsTrue (holds (rect_of plane.now) (carried p block.now.min from)) }
        ensures at { (p : Spot) → IsTrue (holds block.now p) → place_pixel self.new (cell_place i r.now p) ≡ pixel_at plane.now (carried p block.now.min from) }
        ensures below { (p : Spot) → IsTrue (holds block.now p) → pixel_at plane.now (carried p block.now.min from) < 2 ^ depth (chan_of plane.now) }
        ensures others { (place : CellPlace) → ((p : Spot) → IsTrue (holds block.now p) → place ≢ cell_place i r.now p) → place_pixel self.new place ≡ place_pixel self.old place }
        ensures rows { all_rows self.new ≡ all_rows self.old }
        ensures spare { spare (tiles_in self.new) ≡ spare (tiles_in self.old) }
        ensures steps { steps.new ≡ steps.old + area_of block.now }
    {
        let mut row = 0;
        while row < block.height() {
            let band = band_of(r, block, row);
            let there = down(from, row);
            self.hide_band(i, r, &band, plane, there, steps);
            row += band.height();
        }
    }

    // Puts the hidden pixels of a rectangle of an image with rectangle r into a plane in one cell.
    fn show_part<L: Ledger>(
        &self,
        i: usize,
        r: &Rect,
        part: &Rect,
        watched: &mut Watched,
        to: Point,
        steps: &mut Steps<L>,
    )
        requires near { IsRectNear r.now }
        requires also { IsRectNear part.now }
        requires ordered { IsOrdered part.now }
        requires some { HasPoints part.now }
        requires part { IsInCell r.now part.now }
        requires has { (p : Spot) → IsTrue (holds part.now p) → IsTrue (has_tile (all_rows self.now) i r.now p) }
        requires to { IsNear to }
        requires inside { (p : Spot) → IsTrue (holds part.now p) → IsTrue (holds (rect_of watched.old.plane) (carried p part.now.min to)) }
        requires below { (p : Spot) → IsTrue (holds part.now p) → place_pixel self.now (cell_place i r.now p) < 2 ^ depth (chan_of watched.old.plane) }
        ensures rect { rect_of watched.new.plane ≡ rect_of watched.old.plane }
        ensures chan { chan_of watched.new.plane ≡ chan_of watched.old.plane }
        ensures pixels { (q : Spot) → pixel_at watched.new.plane q ≡ (if holds part.now (carried q to part.now.min) then place_pixel self.now (cell_place i r.now (carried q to part.now.min)) else pixel_at watched.old.plane q) }
        ensures moment { moment_of watched.new ≡ moment_of watched.old }
        ensures few { count_of watched.new ≤ count_of watched.old + area_of part.now }
        ensures steps { steps.new ≡ steps.old + area_of part.now }
    {
        let tile = self.tile(i, cell_at(r, part.min));
        let pixels = self.store().tile(tile);
        watched.put_block(&part.at_min(to), pixels, place_at(r, part.min), 32, steps);
    }

    // The same in one row of cells.
    fn show_band<L: Ledger>(
        &self,
        i: usize,
        r: &Rect,
        band: &Rect,
        watched: &mut Watched,
        to: Point,
        steps: &mut Steps<L>,
    )
        requires near { IsRectNear r.now }
        requires also { IsRectNear band.now }
        requires ordered { IsOrdered band.now }
        requires some { HasPoints band.now }
        requires band { IsInRow r.now band.now }
        requires has { (p : Spot) → IsTrue (holds band.now p) → IsTrue (has_tile (all_rows self.now) i r.now p) }
        requires to { IsNear to }
        requires inside { (p : Spot) → IsTrue (holds band.now p) → IsTrue (holds (rect_of watched.old.plane) (carried p band.now.min to)) }
        requires below { (p : Spot) → IsTrue (holds band.now p) → place_pixel self.now (cell_place i r.now p) < 2 ^ depth (chan_of watched.old.plane) }
        ensures rect { rect_of watched.new.plane ≡ rect_of watched.old.plane }
        ensures chan { chan_of watched.new.plane ≡ chan_of watched.old.plane }
        ensures pixels { (q : Spot) → pixel_at watched.new.plane q ≡ (if holds band.now (carried q to band.now.min) then place_pixel self.now (cell_place i r.now (carried q to band.now.min)) else pixel_at watched.old.plane q) }
        ensures moment { moment_of watched.new ≡ moment_of watched.old }
        ensures few { count_of watched.new ≤ count_of watched.old + area_of band.now }
        ensures steps { steps.new ≡ steps.old + area_of band.now }
    {
        let mut column = 0;
        while column < band.width() {
            let part = part_of(r, band, column);
            let there = right(to, column);
            self.show_part(i, r, &part, watched, there, steps);
            column += part.width();
        }
    }

    /// Puts the hidden pixels of a rectangle, of an image with rectangle r, into a plane, where it stands from another point on, a
    /// step for each.
    pub fn show_block<L: Ledger>(
        &self,
        i: usize,
        r: &Rect,
        block: &Rect,
        watched: &mut Watched,
        to: Point,
        steps: &mut Steps<L>,
    )
        requires near { IsRectNear r.now }
        requires also { IsRectNear block.now }
        requires ordered { IsOrdered block.now }
        requires some { HasPoints block.now }
        requires has { (p : Spot) → IsTrue (holds block.now p) → IsTrue (has_tile (all_rows self.now) i r.now p) }
        requires to { IsNear to }
        requires inside { (p : Spot) → IsTrue (holds block.now p) → IsTrue (holds (rect_of watched.old.plane) (carried p block.now.min to)) }
        requires below { (p : Spot) → IsTrue (holds block.now p) → place_pixel self.now (cell_place i r.now p) < 2 ^ depth (chan_of watched.old.plane) }
        ensures rect { rect_of watched.new.plane ≡ rect_of watched.old.plane }
        ensures chan { chan_of watched.new.plane ≡ chan_of watched.old.plane }
        ensures pixels { (q : Spot) → pixel_at watched.new.plane q ≡ (if holds block.now (carried q to block.now.min) then place_pixel self.now (cell_place i r.now (carried q to block.now.min)) else pixel_at watched.old.plane q) }
        ensures moment { moment_of watched.new ≡ moment_of watched.old }
        ensures few { count_of watched.new ≤ count_of watched.old + area_of block.now }
        ensures steps { steps.new ≡ steps.old + area_of block.now }
    {
        let mut row = 0;
        while row < block.height() {
            let band = band_of(r, block, row);
            let there = down(to, row);
            self.show_band(i, r, &band, watched, there, steps);
            row += band.height();
        }
    }
}
