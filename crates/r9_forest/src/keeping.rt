//! Where images keep their pixels.

ghost use Rattle.std.specs.Prelude.{◌≡◌, ◌≤◌, ◌↔◌, ℕ, None, Some, true, IsTrue};
ghost use Rattle.r9_geom.specs.declared.Point.{Point as Spot};
ghost use Rattle.r9_geom.specs.Geometry.{holds};
ghost use Rattle.r9_store.specs.Tiles.{held, is_held};
ghost use Rattle.model_forest.specs.World.{image_at, parent_of, IsLive};
ghost use Rattle.model_forest.specs.View.{view};
ghost use Rattle.model_kept.specs.Cells.{cell_of, cells_below, in_cell};
ghost use Rattle.model_kept.specs.Keeping.{is_hidden, is_shown, outward, own};
ghost use Rattle.r9_pixels.specs.Kept.{has_place, kept_at, tile_at};

use super::images::Images;
use r9_geom::Point;
use r9_locate::info::ImageNo;
use r9_store::{Store, TileNo};

/// Where a pixel is kept.
#[derive(Clone, Copy, PartialEq, Eq, Debug)]
pub enum Kept {
    /// On the plane of an image that stands nowhere, at a point of that image.
    Plane { image: ImageNo, at: Point },
    /// In a tile, at a point counted from its corner.
    Tile { tile: TileNo, at: Point },
}

impl Images {
    ghost use Rattle.r9_forest.specs.Images.{numbers, world};
    ghost use Rattle.r9_forest.specs.Keeping.{kept_itself, kept_of, pixel_in, tile_of, tiles_of};

    // Where an image keeps a pixel for which it has a place itself.
    fn kept_itself(&self, i: u32, p: Point) -> Kept
        requires { has_place self.now.pixels (own i p) ≡ true }
        ensures value { result ≡ kept_itself self.now (own i p) }
        ensures pixel { pixel_in self.now result ≡ kept_at self.now.pixels (own i p) }
        ensures held { (tile : ℕ) → tile_of result ≡ Some tile → is_held (tiles_of self.now) tile ≡ true }
        ensures alone { (j tile : ℕ) (q : Spot) → tile_of result ≡ Some tile → tile_at self.now.pixels (own j q) ≡ Some tile → (j ≡ i) × (cell_of (image_at (world self.now) j).r q ≡ cell_of (image_at (world self.now) i).r p) }
    {
        if self.lists.get(i).standing.is_none() {
            return Kept::Plane {
                image: ImageNo(i),
                at: p,
            };
        }
        let point = self.pixels.in_tile(i, p);
        Kept::Tile {
            tile: point.tile,
            at: point.at,
        }
    }

    /// Where the pixel is kept that an image shows at a point of it. An image that stands nowhere keeps it on its plane. Of a
    /// window that its parent shows there, it is kept where the parent keeps the point on which it stands; and where the parent
    /// hides it, in the tile of one cell of that window, of 32 by 32 points counted from the window's min.
    pub fn kept(&self, i: u32, p: Point) -> Kept
        requires live { IsLive (world self.now) i }
        requires inside { IsTrue (holds (image_at (world self.now) i).r p) }
        ensures value { result ≡ kept_of self.now i p }
        ensures nowhere { parent_of (world self.now) i ≡ None → result ≡ Kept.Plane (record { 0 = i }) p }
        ensures shown { (parent : ℕ) → parent_of (world self.now) i ≡ Some parent → is_shown (world self.now) parent i (outward (world self.now) parent i p) ≡ true → result ≡ kept_of self.now parent (outward (world self.now) parent i p) }
        ensures hidden { is_hidden (world self.now) i p ≡ true → (tile : ℕ) × (result ≡ Kept.Tile tile (in_cell (image_at (world self.now) i).r p)) × (is_held (tiles_of self.now) tile ≡ true) }
        ensures alone { (j : ℕ) (q : Spot) → is_hidden (world self.now) i p ≡ true → IsLive (world self.now) j → IsTrue (holds (image_at (world self.now) j).r q) → is_hidden (world self.now) j q ≡ true → tile_of (kept_of self.now j q) ≡ tile_of result ↔ ((j ≡ i) × (cell_of (image_at (world self.now) j).r q ≡ cell_of (image_at (world self.now) i).r p)) }
        ensures view { view (world self.now) i p ≡ pixel_in self.now result }
    {
        let run = self.lists.locate(i, p, 1);
        self.kept_itself(run.image, run.at)
    }

    /// The tiles of all windows, and those that are spare.
    pub fn store(&self) -> &Store
        ensures { result.now ≡ tiles_of self.now }
    {
        self.pixels.store()
    }

    /// How many tiles are held: as many as there are pairs of a window and a cell of it with a hidden point. Cells are of 32 by
    /// 32 points, counted from the window's min. It takes no memory.
    pub fn tiles(&self) -> usize
        ensures held { result ≡ held (tiles_of self.now) }
        ensures cells { (n : ℕ) → ((i : ℕ) → n ≤ i → world self.now i ≡ None) → result ≡ cells_below n (world self.now) }
        ensures made { result ≡ cells_below (numbers self.now).made (world self.now) }
    {
        self.pixels.tiles()
    }
}
