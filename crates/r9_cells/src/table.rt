//! The tiles of the cells of images.

ghost use Rattle.std.specs.Prelude.{◌≡◌, ◌≢◌, ◌+◌, ◌^◌, ◌<◌, ◌==◌, ◌&&◌, ◌||◌, ℕ, Some, None, false, not, length, is_some, max, replicate, slice_index, slice_index_or, slice_set, [], ◌∷◌, ◌++◌, IsTrue, OnErr, OnOk, if◌then◌else◌};
ghost use Rattle.r9_geom.specs.declared.Point.{Point as Spot};
ghost use Rattle.r9_geom.specs.Geometry.{area_of, carried, holds, strip, HasPoints, IsRectNear};
ghost use Rattle.model_pixel.specs.Channels.{depth};
ghost use Rattle.r9_plane.specs.Blocks.{number_in, HasRows};
ghost use Rattle.r9_plane.specs.Pixels.{along, chan_of, pixel_at, rect_of};
ghost use Rattle.r9_store.specs.Tiles.{cell, held, spare};
ghost use Rattle.r9_cells.specs.Rows.{cell_at, row_at, rows_of, tiles_of, CellPlace, IsKept};

use r9_geom::{Point, Rect};
use r9_marks::steps::Steps;
use r9_memory::Memory;
use r9_plane::Plane;
use r9_store::{Store, TileNo};
use std::alloc::Global;
use std::sync::ledger::Ledger;

/// The tiles of the cells of an image.
#[derive(Drop)]
pub struct Row {
    pub cells: Vec<Option<TileNo>>,
}

/// The tiles of the cells of images, by number.
#[derive(Drop)]
pub struct Cells {
    pub(crate) rows: Vec<Row>,
    store: Store,
    alloc: Global,
    ghost kept: { IsKept (rows_of rows.items) store },
}

impl Cells {
    ghost use Rattle.r9_cells.specs.Cells.{all_rows, cell_pixel, place_pixel, tiles_in};

    /// No image, and no tile.
    pub fn new(alloc: Global) -> Self
        ensures rows { all_rows result ≡ [] }
        ensures spare { spare (tiles_in result) ≡ 0 }
    {
        Cells {
            rows: Vec::new(alloc),
            store: Store::new(alloc),
            alloc,
        }
    }

    /// Adds an image that has no cell.
    pub fn push(&mut self) -> Result<(), Memory>
        ensures rows { OnOk result (all_rows self.new ≡ all_rows self.old ++ ([] ∷ [])) }
        ensures store { tiles_in self.new ≡ tiles_in self.old }
        ensures err { OnErr result (all_rows self.new ≡ all_rows self.old) }
    {
        let cells = Vec::new(self.alloc);
        self.rows.push(Row { cells })?;
        Ok(())
    }

    // Gives an image, which has no tile, other cells without one.
    fn set_row(&mut self, i: usize, row: Row)
        requires image { i < length (all_rows self.old) }
        requires none { (k : ℕ) → cell_at (all_rows self.old) i k ≡ None }
        requires blank { (k : ℕ) → slice_index_or row.cells.items k None ≡ None }
        ensures rows { all_rows self.new ≡ slice_set (all_rows self.old) i row.cells.items }
        ensures store { tiles_in self.new ≡ tiles_in self.old }
    {
        self.rows[i] = row;
    }

    /// Gives an image, which has no tile, so many cells.
    pub fn make(&mut self, i: usize, cells: usize) -> Result<(), Memory>
        requires image { i < length (all_rows self.old) }
        requires none { (k : ℕ) → cell_at (all_rows self.old) i k ≡ None }
        ensures rows { OnOk result (all_rows self.new ≡ slice_set (all_rows self.old) i (replicate cells None)) }
        ensures store { tiles_in self.new ≡ tiles_in self.old }
        ensures err { OnErr result (all_rows self.new ≡ all_rows self.old) }
    {
        let cells = vec![in self.alloc; None; cells]?;
        self.set_row(i, Row { cells });
        Ok(())
    }

    /// Takes all cells of an image away, which has no tile. It takes no memory.
    pub fn clear(&mut self, i: usize)
        requires image { i < length (all_rows self.old) }
        requires none { (k : ℕ) → cell_at (all_rows self.old) i k ≡ None }
        ensures rows { all_rows self.new ≡ slice_set (all_rows self.old) i [] }
        ensures store { tiles_in self.new ≡ tiles_in self.old }
    {
        let cells = Vec::new(self.alloc);
        self.set_row(i, Row { cells });
    }

    /// Makes room, so that at least so many tiles are spare.
    pub fn reserve(&mut self, tiles: usize) -> Result<(), Memory>
        ensures spare { OnOk result (spare (tiles_in self.new) ≡ max (spare (tiles_in self.old)) tiles) }
        ensures rows { all_rows self.new ≡ all_rows self.old }
        ensures pixels { (j l : ℕ) (p : Spot) → cell_pixel self.new j l p ≡ cell_pixel self.old j l p }
        ensures err { OnErr result (tiles_in self.new ≡ tiles_in self.old) }
    {
        self.store.reserve(tiles)
    }

    /// How many tiles are held: as many as cells have one.
    pub fn tiles(&self) -> usize
        ensures count { result ≡ tiles_of (all_rows self.now) }
        ensures held { result ≡ held (tiles_in self.now) }
    {
        self.store.held()
    }

    /// The tiles of all cells, and those that are spare.
    pub fn store(&self) -> &Store
        ensures { result.now ≡ tiles_in self.now }
    {
        &self.store
    }

    /// Takes a spare tile for a cell that has none. It takes no memory, and no pixel changes.
    pub fn take(&mut self, i: usize, k: usize)
        requires image { i < length (all_rows self.old) }
        requires cell { k < length (row_at (all_rows self.old) i) }
        requires none { cell_at (all_rows self.old) i k ≡ None }
        requires spare { 0 < spare (tiles_in self.old) }
        ensures pixels { (j l : ℕ) (p : Spot) → cell_pixel self.new j l p ≡ cell_pixel self.old j l p }
        ensures spare { spare (tiles_in self.new) + 1 ≡ spare (tiles_in self.old) }
        ensures taken { (j l : ℕ) → is_some (cell_at (all_rows self.new) j l) ≡ (((j == i) && (l == k)) || is_some (cell_at (all_rows self.old) j l)) }
        ensures others { (j l : ℕ) → ((j == i) && (l == k)) ≡ false → cell_at (all_rows self.new) j l ≡ cell_at (all_rows self.old) j l }
        ensures rows { length (all_rows self.new) ≡ length (all_rows self.old) }
        ensures lengths { (j : ℕ) → length (row_at (all_rows self.new) j) ≡ length (row_at (all_rows self.old) j) }
    {
        let tile = self.store.take();
        self.rows[i].cells[k] = Some(tile);
    }

    /// Gives the tile of a cell back. It takes no memory.
    pub fn give(&mut self, i: usize, k: usize)
        requires { IsTrue (is_some (cell_at (all_rows self.old) i k)) }
        ensures pixels { (j l : ℕ) (p : Spot) → cell_pixel self.new j l p ≡ (if (j == i) && (l == k) then 0 else cell_pixel self.old j l p) }
        ensures spare { spare (tiles_in self.new) ≡ spare (tiles_in self.old) + 1 }
        ensures given { (j l : ℕ) → is_some (cell_at (all_rows self.new) j l) ≡ (not ((j == i) && (l == k)) && is_some (cell_at (all_rows self.old) j l)) }
        ensures others { (j l : ℕ) → ((j == i) && (l == k)) ≡ false → cell_at (all_rows self.new) j l ≡ cell_at (all_rows self.old) j l }
        ensures rows { length (all_rows self.new) ≡ length (all_rows self.old) }
        ensures lengths { (j : ℕ) → length (row_at (all_rows self.new) j) ≡ length (row_at (all_rows self.old) j) }
    {
        if let Some(tile) = self.rows[i].cells[k] {
            self.store.give(tile);
            self.rows[i].cells[k] = None;
        }
    }

    /// The tile of a cell.
    pub(crate) fn tile(&self, i: usize, k: usize) -> TileNo
        requires { IsTrue (is_some (cell_at (all_rows self.now) i k)) }
        ensures { cell_at (all_rows self.now) i k ≡ Some result }
    {
        match self.rows[i].cells[k] {
            Some(tile) => tile,
            None => unreachable!(),
        }
    }

    /// Pixels side by side in the tile of a cell, from a point of it to the right: so many of them, as they are kept.
    pub fn row(&self, i: usize, k: usize, at: Point, len: usize) -> &[u32]
        requires tile { IsTrue (is_some (cell_at (all_rows self.now) i k)) }
        requires inside { (p : Spot) → IsTrue (holds (strip at len) p) → IsTrue (holds cell p) }
        ensures len { length result.now ≡ len }
        ensures pixels { (n : ℕ) → n < len → slice_index result.now n ≡ cell_pixel self.now i k (along at n) }
    {
        self.store.row(self.tile(i, k), at, len)
    }

    /// Pixels side by side in the tile of a cell, from a point of it to the right: as many as there is room for in `raws`.
    pub fn get_row(&self, i: usize, k: usize, at: Point, raws: &mut [u32])
        requires tile { IsTrue (is_some (cell_at (all_rows self.now) i k)) }
        requires inside { (p : Spot) → IsTrue (holds (strip at (length raws.old)) p) → IsTrue (holds cell p) }
        ensures { (n : ℕ) → n < length raws.old → slice_index raws.new n ≡ cell_pixel self.now i k (along at n) }
    {
        self.store.get_row(self.tile(i, k), at, raws);
    }

    /// Puts pixels side by side into the tile of a cell, from a point of it to the right, a step for each, and changes nothing else.
    pub fn put_row<L: Ledger>(
        &mut self,
        i: usize,
        k: usize,
        at: Point,
        raws: &[u32],
        steps: &mut Steps<L>,
    )
        requires tile { IsTrue (is_some (cell_at (all_rows self.old) i k)) }
        requires inside { (p : Spot) → IsTrue (holds (strip at (length raws.now)) p) → IsTrue (holds cell p) }
        ensures at { (n : ℕ) → n < length raws.now → cell_pixel self.new i k (along at n) ≡ slice_index raws.now n }
        ensures others { (place : CellPlace) → ((n : ℕ) → n < length raws.now → place ≢ record { image = i; cell = k; at = along at n }) → place_pixel self.new place ≡ place_pixel self.old place }
        ensures rows { all_rows self.new ≡ all_rows self.old }
        ensures spare { spare (tiles_in self.new) ≡ spare (tiles_in self.old) }
        ensures steps { steps.new ≡ steps.old + length raws.now }
    {
        let tile = self.tile(i, k);
        self.store.put_row(tile, at, raws, steps);
    }

    /// Puts pixels of a plane side by side into the tile of a cell, from a point of each to the right, a step for each, and changes
    /// nothing else. They have no more bits than the plane's channels tell.
    pub fn copy_row<L: Ledger>(
        &mut self,
        i: usize,
        k: usize,
        at: Point,
        len: usize,
        plane: &Plane,
        from: Point,
        steps: &mut Steps<L>,
    )
        requires tile { IsTrue (is_some (cell_at (all_rows self.old) i k)) }
        requires inside { (p : Spot) → IsTrue (holds (strip at len) p) → IsTrue (holds cell p) }
        requires inside_plane { (n : ℕ) → n < len → IsTrue (holds (rect_of plane.now) (along from n)) }
        ensures at { (n : ℕ) → n < len → cell_pixel self.new i k (along at n) ≡ pixel_at plane.now (along from n) }
        ensures below { (n : ℕ) → n < len → pixel_at plane.now (along from n) < 2 ^ depth (chan_of plane.now) }
        ensures others { (place : CellPlace) → ((n : ℕ) → n < len → place ≢ record { image = i; cell = k; at = along at n }) → place_pixel self.new place ≡ place_pixel self.old place }
        ensures rows { all_rows self.new ≡ all_rows self.old }
        ensures spare { spare (tiles_in self.new) ≡ spare (tiles_in self.old) }
        ensures steps { steps.new ≡ steps.old + len }
    {
        let tile = self.tile(i, k);
        self.store.copy_row(tile, at, len, plane, from, steps);
    }

    /// Puts pixels into a rectangle of the tile of a cell, which stand among rows of so many, a step for each, and changes nothing
    /// else.
    pub fn put_block<L: Ledger>(
        &mut self,
        i: usize,
        k: usize,
        r: &Rect,
        raws: &[u32],
        first: usize,
        width: usize,
        steps: &mut Steps<L>,
    )
        requires tile { IsTrue (is_some (cell_at (all_rows self.old) i k)) }
        requires some { HasPoints r.now }
        requires inside { (p : Spot) → IsTrue (holds r.now p) → IsTrue (holds cell p) }
        requires rows { HasRows r.now first width (length raws.now) }
        ensures at { (p : Spot) → IsTrue (holds r.now p) → cell_pixel self.new i k p ≡ slice_index raws.now (number_in r.now first width p) }
        ensures others { (place : CellPlace) → ((p : Spot) → IsTrue (holds r.now p) → place ≢ record { image = i; cell = k; at = p }) → place_pixel self.new place ≡ place_pixel self.old place }
        ensures rows { all_rows self.new ≡ all_rows self.old }
        ensures spare { spare (tiles_in self.new) ≡ spare (tiles_in self.old) }
        ensures steps { steps.new ≡ steps.old + area_of r.now }
    {
        let tile = self.tile(i, k);
        self.store.put_block(tile, r, raws, first, width, steps);
    }

    /// Puts one pixel at all points of a rectangle of the tile of a cell, a step for each, and changes nothing else.
    pub fn fill_in<L: Ledger>(
        &mut self,
        i: usize,
        k: usize,
        r: &Rect,
        raw: u32,
        steps: &mut Steps<L>,
    )
        requires tile { IsTrue (is_some (cell_at (all_rows self.old) i k)) }
        requires some { HasPoints r.now }
        requires inside { (p : Spot) → IsTrue (holds r.now p) → IsTrue (holds cell p) }
        ensures at { (p : Spot) → IsTrue (holds r.now p) → cell_pixel self.new i k p ≡ raw }
        ensures others { (place : CellPlace) → ((p : Spot) → IsTrue (holds r.now p) → place ≢ record { image = i; cell = k; at = p }) → place_pixel self.new place ≡ place_pixel self.old place }
        ensures rows { all_rows self.new ≡ all_rows self.old }
        ensures spare { spare (tiles_in self.new) ≡ spare (tiles_in self.old) }
        ensures steps { steps.new ≡ steps.old + area_of r.now }
    {
        let tile = self.tile(i, k);
        self.store.fill_block(tile, r, raw, steps);
    }

    /// Puts the pixels of a rectangle of a plane into the tile of a cell, from a point of that on, a step for each, and changes
    /// nothing else. They have no more bits than the plane's channels tell.
    pub fn copy_block<L: Ledger>(
        &mut self,
        i: usize,
        k: usize,
        at: Point,
        plane: &Plane,
        from: &Rect,
        steps: &mut Steps<L>,
    )
        requires tile { IsTrue (is_some (cell_at (all_rows self.old) i k)) }
        requires some { HasPoints from.now }
        requires near { IsRectNear from.now }
        requires inside { (p : Spot) → IsTrue (holds from.now p) → IsTrue (holds cell (carried p from.now.min at)) }
        requires inside_plane { (p : Spot) → IsTrue (holds from.now p) → IsTrue (holds (rect_of plane.now) p) }
        ensures at { (p : Spot) → IsTrue (holds from.now p) → cell_pixel self.new i k (carried p from.now.min at) ≡ pixel_at plane.now p }
        ensures below { (p : Spot) → IsTrue (holds from.now p) → pixel_at plane.now p < 2 ^ depth (chan_of plane.now) }
        ensures others { (place : CellPlace) → ((p : Spot) → IsTrue (holds from.now p) → place ≢ record { image = i; cell = k; at = carried p from.now.min at }) → place_pixel self.new place ≡ place_pixel self.old place }
        ensures rows { all_rows self.new ≡ all_rows self.old }
        ensures spare { spare (tiles_in self.new) ≡ spare (tiles_in self.old) }
        ensures steps { steps.new ≡ steps.old + area_of from.now }
    {
        let tile = self.tile(i, k);
        self.store.copy_block(tile, at, plane, from, steps);
    }
}
