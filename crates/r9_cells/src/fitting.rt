//! Just the cells that have a hidden point get tiles.

ghost use Rattle.std.specs.Prelude.{◌≡◌, ◌≢◌, ◌^◌, ◌+◌, ◌<◌, ◌≤◌, ◌==◌, ◌&&◌, ◌||◌, ℕ, Bool, None, nat_lt, true, false, is_none, is_some, length, not, IsTrue, if◌then◌else◌};
ghost use Rattle.r9_geom.specs.declared.Point.{Point as Spot};
ghost use Rattle.std.specs.List.{list_any};
ghost use Rattle.r9_geom.specs.Geometry.{IsNearBy, IsRectNear};
ghost use Rattle.r9_store.specs.Tiles.{spare};
ghost use Rattle.model_kept.specs.Cells.{cell_count};
ghost use Rattle.r9_cells.specs.Rows.{cell_at, row_at};
ghost use Rattle.r9_cells.specs.Fitting as spec;
ghost use Rattle.r9_cells.specs.Walking.{cell_out};
ghost use Rattle.r9_cells.specs.Fitting.{hides_at, hides_cell, IsCelled, IsGivenOff, IsTakenOff, IsWindowAt};

use super::hiding::{Walk, hides, hides_within, is_buried, meets, standing_part};
use super::table::Cells;
use model_forest::Window;
use r9_geom::Rect;

impl Cells {
    ghost use Rattle.r9_cells.specs.Cells.{all_rows, cell_pixel, tiles_in};

    // Whether a cell has a tile.
    fn has(&self, i: usize, k: usize) -> bool
        requires image { i < length (all_rows self.now) }
        requires cell { k < length (row_at (all_rows self.now) i) }
        ensures { result ≡ is_some (cell_at (all_rows self.now) i k) }
    {
        self.rows[i].cells[k].is_some()
    }

    // Takes a tile for a cell where one is wanted.
    fn take_for(&mut self, i: usize, k: usize, is: bool)
        requires image { i < length (all_rows self.old) }
        requires cell { k < length (row_at (all_rows self.old) i) }
        requires none { is ≡ true → cell_at (all_rows self.old) i k ≡ None }
        requires room { is ≡ true → 0 < spare (tiles_in self.old) }
        ensures pixels { (j l : ℕ) (p : Spot) → cell_pixel self.new j l p ≡ cell_pixel self.old j l p }
        ensures spare { spare (tiles_in self.new) + (if is then 1 else 0) ≡ spare (tiles_in self.old) }
        ensures taken { (j l : ℕ) → is_some (cell_at (all_rows self.new) j l) ≡ ((((j == i) && (l == k)) && is) || is_some (cell_at (all_rows self.old) j l)) }
        ensures rows { length (all_rows self.new) ≡ length (all_rows self.old) }
        ensures lengths { (j : ℕ) → length (row_at (all_rows self.new) j) ≡ length (row_at (all_rows self.old) j) }
    {
        if is {
            self.take(i, k);
        }
    }

    // Gives back the tile of a cell where it is spared.
    fn give_for(&mut self, i: usize, k: usize, is: bool)
        requires { is ≡ true → IsTrue (is_some (cell_at (all_rows self.old) i k)) }
        ensures pixels { (j l : ℕ) (p : Spot) → cell_pixel self.new j l p ≡ (if is_some (cell_at (all_rows self.new) j l) then cell_pixel self.old j l p else 0) }
        ensures spare { spare (tiles_in self.old) ≤ spare (tiles_in self.new) }
        ensures given { (j l : ℕ) → is_some (cell_at (all_rows self.new) j l) ≡ (not (((j == i) && (l == k)) && is) && is_some (cell_at (all_rows self.old) j l)) }
        ensures rows { length (all_rows self.new) ≡ length (all_rows self.old) }
        ensures lengths { (j : ℕ) → length (row_at (all_rows self.new) j) ≡ length (row_at (all_rows self.old) j) }
    {
        if is {
            self.give(i, k);
        }
    }

    // Gives back the tile of a cell that is to have none.
    fn give_unless(&mut self, i: usize, k: usize, is: bool)
        requires image { i < length (all_rows self.old) }
        requires cell { k < length (row_at (all_rows self.old) i) }
        ensures pixels { (j l : ℕ) (p : Spot) → cell_pixel self.new j l p ≡ (if is_some (cell_at (all_rows self.new) j l) then cell_pixel self.old j l p else 0) }
        ensures spare { spare (tiles_in self.old) ≤ spare (tiles_in self.new) }
        ensures given { (j l : ℕ) → is_some (cell_at (all_rows self.new) j l) ≡ (not (((j == i) && (l == k)) && not is) && is_some (cell_at (all_rows self.old) j l)) }
        ensures rows { length (all_rows self.new) ≡ length (all_rows self.old) }
        ensures lengths { (j : ℕ) → length (row_at (all_rows self.new) j) ≡ length (row_at (all_rows self.old) j) }
    {
        if !is && self.has(i, k) {
            self.give(i, k);
        }
    }

    // Whether a cell of an image has no tile.
    pub(crate) fn lacks(&self, i: u32) -> bool
        requires image { i < length (all_rows self.now) }
        ensures { result ≡ list_any is_none (row_at (all_rows self.now) i) }
    {
        self.rows[i as usize]
            .cells
            .iter()
            .any(|cell| cell.is_none())
    }

    // Whether a cell of an image has a tile.
    pub(crate) fn holds_any(&self, i: u32) -> bool
        requires image { i < length (all_rows self.now) }
        ensures { result ≡ list_any is_some (row_at (all_rows self.now) i) }
    {
        self.rows[i as usize]
            .cells
            .iter()
            .any(|cell| cell.is_some())
    }

    // Whether the cell of a walk over a window under these others meets one of the areas, is hidden and has no tile. It may be
    // known that each cell does and is.
    fn wants(
        &self,
        below: &Rect,
        upper: &[Window],
        areas: &[Rect],
        all: bool,
        i: u32,
        walk: &Walk,
        k: usize,
    ) -> bool
        requires image { i < length (all_rows self.now) }
        requires cell { k < length (row_at (all_rows self.now) i) }
        requires at { IsNearBy (2 ^ 42) walk.now.at }
        requires known { all ≡ true → (spec.meets areas.now (cell_out walk.now) ≡ true) × (hides_at below.now upper.now (cell_out walk.now) ≡ true) }
        ensures { result ≡ (spec.meets areas.now (cell_out walk.now) && (hides_at below.now upper.now (cell_out walk.now) && not (is_some (cell_at (all_rows self.now) i k)))) }
    {
        if self.has(i as usize, k) {
            return false;
        }
        if all {
            return true;
        }
        let out = walk.cell();
        meets(areas, &out) && hides(below, upper, &out)
    }

    // How many cells of a window meet one of the areas, are hidden and have no tile.
    pub(crate) fn wanted(
        &self,
        below: &Rect,
        windows: &[Window],
        at: usize,
        w: &Window,
        areas: &[Rect],
        r: &Rect,
    ) -> usize
        requires celled { IsCelled (all_rows self.now) w.now.image r.now }
        requires window { IsWindowAt windows.now at w.now }
        requires place { IsRectNear w.now.place }
        ensures { result ≡ spec.wanted_near (all_rows self.now) below.now windows.now areas.now w.now.image r.now }
    {
        let i = w.image;
        let (upper, to) = (&windows[..at], w.place.min);
        let place = standing_part(r, to, r);
        if !hides(below, upper, &place) {
            return 0;
        }
        let all = hides_within(below, upper, areas, &place);
        let mut count = 0;
        let mut walk = Walk::new(r, to);
        for k in 0..self.rows[i as usize].cells.len() {
            count += usize::from(self.wants(below, upper, areas, all, i, &walk, k));
            walk.step();
        }
        count
    }

    // Takes tiles for the cells of a window that are hidden.
    pub(crate) fn take_window(
        &mut self,
        below: &Rect,
        windows: &[Window],
        at: usize,
        w: &Window,
        areas: &[Rect],
        r: &Rect,
    )
        requires celled { IsCelled (all_rows self.old) w.now.image r.now }
        requires window { IsWindowAt windows.now at w.now }
        requires place { IsRectNear w.now.place }
        requires still { IsTakenOff (all_rows self.old) below.now windows.now areas.now w.now.image r.now }
        requires room { spec.wanted (all_rows self.old) below.now windows.now w.now.image r.now ≤ spare (tiles_in self.old) }
        ensures pixels { (j l : ℕ) (p : Spot) → cell_pixel self.new j l p ≡ cell_pixel self.old j l p }
        ensures spare { spare (tiles_in self.new) + spec.wanted (all_rows self.old) below.now windows.now w.now.image r.now ≡ spare (tiles_in self.old) }
        ensures taken { (j l : ℕ) → is_some (cell_at (all_rows self.new) j l) ≡ (((j == w.now.image) && (nat_lt l (cell_count r.now) && hides_cell below.now windows.now w.now.image r.now l)) || is_some (cell_at (all_rows self.old) j l)) }
        ensures rows { length (all_rows self.new) ≡ length (all_rows self.old) }
        ensures lengths { (j : ℕ) → length (row_at (all_rows self.new) j) ≡ length (row_at (all_rows self.old) j) }
    {
        let i = w.image;
        let (upper, to) = (&windows[..at], w.place.min);
        let place = standing_part(r, to, r);
        if !hides(below, upper, &place) {
            return;
        }
        let all = hides_within(below, upper, areas, &place);
        let mut walk = Walk::new(r, to);
        let cells = self.rows[i as usize].cells.len();
        for k in 0..cells {
            let is = self.wants(below, upper, areas, all, i, &walk, k);
            self.take_for(i as usize, k, is);
            walk.step();
        }
    }

    // Whether a cell of a window under these others is not hidden and has a tile. Where it meets none of the areas, it has none
    // if it is not hidden.
    fn spares(
        &self,
        below: &Rect,
        upper: &[Window],
        areas: &[Rect],
        i: u32,
        out: &Rect,
        k: usize,
    ) -> bool
        requires image { i < length (all_rows self.now) }
        requires cell { k < length (row_at (all_rows self.now) i) }
        requires still { spec.meets areas.now out.now ≡ false → hides_at below.now upper.now out.now ≡ false → is_some (cell_at (all_rows self.now) i k) ≡ false }
        ensures { result ≡ (not (hides_at below.now upper.now out.now) && is_some (cell_at (all_rows self.now) i k)) }
    {
        if !self.has(i as usize, k) {
            return false;
        }
        meets(areas, out) && !hides(below, upper, out)
    }

    // Gives back the tiles of the cells of a window that are not hidden.
    pub(crate) fn give_window(
        &mut self,
        below: &Rect,
        windows: &[Window],
        at: usize,
        w: &Window,
        areas: &[Rect],
        r: &Rect,
    )
        requires celled { IsCelled (all_rows self.old) w.now.image r.now }
        requires window { IsWindowAt windows.now at w.now }
        requires place { IsRectNear w.now.place }
        requires still { IsGivenOff (all_rows self.old) below.now windows.now areas.now w.now.image r.now }
        ensures pixels { (j l : ℕ) (p : Spot) → cell_pixel self.new j l p ≡ (if is_some (cell_at (all_rows self.new) j l) then cell_pixel self.old j l p else 0) }
        ensures spare { spare (tiles_in self.old) ≤ spare (tiles_in self.new) }
        ensures given { (j l : ℕ) → is_some (cell_at (all_rows self.new) j l) ≡ (not ((j == w.now.image) && (nat_lt l (cell_count r.now) && not (hides_cell below.now windows.now w.now.image r.now l))) && is_some (cell_at (all_rows self.old) j l)) }
        ensures rows { length (all_rows self.new) ≡ length (all_rows self.old) }
        ensures lengths { (j : ℕ) → length (row_at (all_rows self.new) j) ≡ length (row_at (all_rows self.old) j) }
    {
        let i = w.image;
        let (upper, to) = (&windows[..at], w.place.min);
        if is_buried(upper, &standing_part(r, to, r)) {
            return;
        }
        let mut walk = Walk::new(r, to);
        let cells = self.rows[i as usize].cells.len();
        for k in 0..cells {
            let is = self.spares(below, upper, areas, i, &walk.cell(), k);
            self.give_for(i as usize, k, is);
            walk.step();
        }
    }

    /// Gives back all tiles of an image. It takes no memory.
    pub fn give_all(&mut self, i: usize)
        requires image { i < length (all_rows self.old) }
        ensures pixels { (j l : ℕ) (p : Spot) → cell_pixel self.new j l p ≡ (if is_some (cell_at (all_rows self.new) j l) then cell_pixel self.old j l p else 0) }
        ensures given { (j l : ℕ) → is_some (cell_at (all_rows self.new) j l) ≡ (not (j == i) && is_some (cell_at (all_rows self.old) j l)) }
        ensures rows { length (all_rows self.new) ≡ length (all_rows self.old) }
        ensures lengths { (j : ℕ) → length (row_at (all_rows self.new) j) ≡ length (row_at (all_rows self.old) j) }
    {
        let cells = self.rows[i].cells.len();
        for k in 0..cells {
            self.give_unless(i, k, false);
        }
    }
}
