//! The pixels of images, each kept once: an image that stands nowhere has a plane, and a window tiles of its hidden cells.
#![tactic(auto)]

ghost use Rattle.std.specs.Prelude.{◌≡◌, ℕ, Bool, true};
ghost use Rattle.r9_geom.specs.declared.Point.{Point as Spot};
ghost use Rattle.r9_geom.specs.Geometry.{holds};
ghost use Rattle.model_forest.specs.World.{image_at, IsForest, World};
ghost use Rattle.model_kept.specs.Keeping.{is_hidden, own, Place};
ghost use Rattle.r9_pixels.specs.Places.{HasCells};

mod blocks;
mod carrying;
mod counted;
mod keeping;
mod making;
mod marking;
mod own;
mod shifting;
mod sizing;
mod tiling;
mod whole;

pub use keeping::KeptPixels;
pub use own::{Extent, Own};

/// Where the windows have places in their cells that have a hidden point, there is a place for each hidden point.
pub fn hidden_points_have_places()
    ensures { (world : World) (has : Place → Bool) (i : ℕ) (x : Spot) → IsForest world → HasCells world has → holds (image_at world i).r x ≡ true → is_hidden world i x ≡ true → has (own i x) ≡ true }
{}
