//! The cells that are sent.

ghost use Rattle.std.specs.Prelude.{◌≡◌, ◌<◌, ◌^◌, ◌≤ℤ◌, pos, filter, All, IfOk, IfSome, Some, ℕ};
ghost use Rattle.r9_geom.specs.declared.Point.{Point as Spot};
ghost use Rattle.r9_geom.specs.Geometry.{height, width, IsNear};
ghost use Rattle.r9_marks.specs.marks.Cells.{cells_in, cells_over};
ghost use Rattle.r9_hall.specs.hall.WorldView.{display_in};
ghost use Rattle.model_mirror.specs.Sent.{has_moved, meets, sent_after, spans};
ghost use Rattle.r9_serve.specs.sending.Cells.{pairs_of, IsCellOf};

use r9_geom::Point;
use r9_hall::hall::World;
use r9_marks::marks::cells_over;
use r9_memory::Memory;
use std::alloc::Global;

/// What an entry did, as far as it says which cells are sent: whether the display has another size, and where the cursor was and is, None
/// where it is nowhere. Both points are in pixels of the display, and within 2^40 of 0.
#[derive(Clone, Copy, Debug)]
pub struct Sending {
    pub resized: bool,
    pub old: Option<Point>,
    pub new: Option<Point>,
    ghost old_near: { (at : Spot) → old ≡ Some at → IsNear at },
    ghost new_near: { (at : Spot) → new ≡ Some at → IsNear at },
}

/// A cell of the display, by its column and row.
#[derive(Clone, Copy, Debug)]
pub(crate) struct Cell {
    pub(crate) column: u32,
    pub(crate) row: u32,
}

// Whether the 16 places of the cursor from one on meet the 32 of a cell.
fn spans(first: i64, cell: u32) -> bool
    requires near { first ≤ℤ pos (2 ^ 40) }
    ensures { result ≡ spans first cell }
{
    let start = 32 * i64::from(cell);
    first < start + 32 && start < first + 16
}

// Whether the square of the cursor meets a cell.
fn meets(at: Option<Point>, cell: Cell) -> bool
    requires { IfSome at IsNear }
    ensures { result ≡ meets at cell.column cell.row }
{
    match at {
        Some(at) => spans(at.x, cell.column) && spans(at.y, cell.row),
        None => false,
    }
}

fn has_moved(old: Option<Point>, new: Option<Point>) -> bool
    ensures { result ≡ has_moved old new }
{
    match (old, new) {
        (None, None) => false,
        (Some(old), Some(new)) => !(old.x == new.x && old.y == new.y),
        _ => true,
    }
}

impl Sending {
    // Whether a cell is sent.
    fn sends(&self, world: &World, cell: Cell) -> bool
        requires column { cell.column < cells_over (width (display_in world.now).r) }
        requires row { cell.row < cells_over (height (display_in world.now).r) }
        ensures { result ≡ sent_after self.now.resized self.now.old self.now.new (display_in world.now).marked cell.column cell.row }
    {
        if self.resized || world.marked(cell.column, cell.row) {
            return true;
        }
        has_moved(self.old, self.new) && (meets(self.old, cell) || meets(self.new, cell))
    }

    // The cells that are sent, in ascending row and column.
    pub(crate) fn cells(&self, alloc: Global, world: &World) -> Result<Vec<Cell>, Memory>
        ensures cells { IfOk result (λ cells. pairs_of cells.items ≡ filter (λ cell. sent_after self.now.resized self.now.old self.now.new (display_in world.now).marked cell.0 cell.1) (cells_in (cells_over (width (display_in world.now).r)) (cells_over (height (display_in world.now).r)))) }
        ensures within { IfOk result (λ cells. All (IsCellOf (display_in world.now).r) cells.items) }
    {
        let r = world.display();
        let across = cells_over(r.width() as usize) as u32;
        let down = cells_over(r.height() as usize) as u32;
        let mut cells = Vec::new(alloc);
        for row in 0..down {
            for column in 0..across {
                let cell = Cell { column, row };
                if self.sends(world, cell) {
                    cells.push(cell)?;
                }
            }
        }
        Ok(cells)
    }
}
