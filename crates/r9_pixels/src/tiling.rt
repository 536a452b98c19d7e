//! The tiles that keep the hidden pixels of windows.

ghost use Rattle.std.specs.Prelude.{◌≡◌, ◌≤◌, ℕ, None, Some, true, option_map};
ghost use Rattle.r9_geom.specs.declared.Point.{Point as Spot};
ghost use Rattle.r9_store.specs.Tiles.{held, is_held, pixel};
ghost use Rattle.model_forest.specs.World.{World};
ghost use Rattle.model_kept.specs.Cells.{cell_of, cells_below, in_cell};
ghost use Rattle.model_kept.specs.Keeping.{own};
ghost use Rattle.r9_locate.specs.locate.Forms.{forms_of};
ghost use Rattle.r9_pixels.specs.Places.{HasCells};

use super::keeping::KeptPixels;
use r9_cells::TilePoint;
use r9_geom::Point;
use r9_store::Store;

impl KeptPixels {
    ghost use Rattle.r9_pixels.specs.Kept.{form_at, has_place, kept_at, store_of, tile_at};

    /// The tiles of all windows, and those that are spare.
    pub fn store(&self) -> &Store
        ensures { result.now ≡ store_of self.now }
    {
        self.cells.store()
    }

    /// How many tiles are held. Where the windows have places just in their cells that have a hidden point, there are as many
    /// as such cells.
    pub fn tiles(&self) -> usize
        ensures held { result ≡ held (store_of self.now) }
        ensures cells { (world : World) (n : ℕ) → form_at self.now ≡ forms_of world → HasCells world (has_place self.now) → ((i : ℕ) → n ≤ i → world i ≡ None) → result ≡ cells_below n world }
    {
        self.cells.tiles()
    }

    /// Where the pixel of a place of a window is: in the tile of its cell, which no other cell of any window has.
    pub fn in_tile(&self, i: u32, p: Point) -> TilePoint
        requires window { option_map (λ form. form.is_window) (form_at self.now i) ≡ Some true }
        requires has { has_place self.now (own i p) ≡ true }
        ensures tile { tile_at self.now (own i p) ≡ Some result.tile }
        ensures at { option_map (λ form. in_cell form.r p) (form_at self.now i) ≡ Some result.at }
        ensures held { is_held (store_of self.now) result.tile ≡ true }
        ensures pixel { pixel (store_of self.now) result.tile result.at ≡ kept_at self.now (own i p) }
        ensures alone { (j : ℕ) (q : Spot) → tile_at self.now (own j q) ≡ Some result.tile → (j ≡ i) × (option_map (λ form. cell_of form.r q) (form_at self.now j) ≡ option_map (λ form. cell_of form.r p) (form_at self.now i)) }
    {
        match self.extent(i) {
            Some(extent) => self.cells.in_tile(i as usize, &extent.r, p),
            None => unreachable!(),
        }
    }
}
