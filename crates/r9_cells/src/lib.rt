//! Which tile keeps the hidden pixels of which cell of which window.
#![tactic(auto)]

ghost use Rattle.std.specs.Prelude.{◌≡◌, ℕ, length, List, Option};
ghost use Rattle.model_forest.specs.World.{World};
ghost use Rattle.model_kept.specs.Cells.{cells_below};
ghost use Rattle.r9_cells.specs.Rows.{tiles_of, IsFitting};

mod blocks;
mod fitting;
mod hiding;
mod runs;
mod sizing;
mod table;

pub use hiding::cell_count;
pub use runs::TilePoint;
pub use table::{Cells, Row};

/// Where a tile is kept for just the cells that have a hidden point, there are as many tiles as such cells.
pub fn tiles_are_cells()
    ensures { (rows : List (List (Option ℕ))) (world : World) → IsFitting rows world → tiles_of rows ≡ cells_below (length rows) world }
{}
