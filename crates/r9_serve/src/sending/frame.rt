//! The text of a frame.

ghost use Rattle.std.specs.Prelude.{◌≡◌, ◌++◌, ◌∷◌, ◌<◌, ◌+◌, ◌*◌, ◌-◌, ◌^◌, length, min, [], IfOk, IfSome, IsTrue, OnOk, All, if◌then◌else◌};
ghost use Rattle.std.specs.Fmt.{decimal};
ghost use Rattle.std.specs.List.{flat_map};
ghost use Rattle.r9_geom.specs.declared.Point.{Point as Spot};
ghost use Rattle.r9_geom.specs.Geometry.{height, holds, width, IsNear, IsOrdered, IsRectNear, IsRectNearBy};
ghost use Rattle.model_pixel.specs.Channels.{depth};
ghost use Rattle.model_pixel.specs.Rows.{row_bytes, row_pixel};
ghost use Rattle.model_mirror.specs.Frame.{IsEntry, numbers_line, rect_of};
ghost use Rattle.model_mirror.specs.Sent.{sent_after};
ghost use Rattle.model_mirror.specs.Shown.{mirrored, under_cursor};
ghost use Rattle.law_devices.specs.sides.Display.{HasDisplay};
ghost use Rattle.r9_hall.specs.hall.WorldView.{display_in, world_in};
ghost use Rattle.r9_serve.specs.sending.Cells.{pairs_of, place_in, AreAdded, AreRowsAdded, IsCellAdded, IsCellOf, IsPartOf};

use crate::sending::cells::{Cell, Sending};
use r9_chan::Chan;
use r9_cursor::over;
use r9_geom::{Point, Rect};
use r9_hall::hall::World;
use r9_memory::Memory;
use r9_text::{Bytes, push_decimal};
use std::alloc::Global;

/// How many columns and rows a cell has that is not cut.
const CELL_SIDE: u64 = 32;

/// How many bytes a cell of four bytes a pixel has at most, with its line.
const CELL_LEN: usize = 4_160;

// Adds numbers, each behind a blank.
fn push_numbers(text: &mut Bytes, numbers: &[u64]) -> Result<(), Memory>
    ensures { OnOk result (text.new ≡ text.old ++ flat_map (λ n. 32 ∷ decimal n) numbers.now) }
{
    for number in numbers {
        text.push(b' ')?;
        push_decimal(text, *number)?;
    }
    Ok(())
}

// Adds a letter and numbers as a line.
fn push_line(text: &mut Bytes, letter: u8, numbers: &[u64]) -> Result<(), Memory>
    ensures { OnOk result (text.new ≡ text.old ++ numbers_line letter numbers.now) }
{
    text.push(letter)?;
    push_numbers(text, numbers)?;
    text.push(b'\n')
}

// Where a cell of a line begins.
fn cell_start(cell: u32) -> u64
    ensures { result ≡ 32 * cell }
{
    CELL_SIDE * u64::from(cell)
}

// Where a cell of a line of so many places ends, which is cut to the line.
fn cell_end(cell: u32, places: u64) -> u64
    requires { 32 * cell < places }
    ensures { result ≡ 32 * cell + min 32 (places - 32 * cell) }
{
    places.min(cell_start(cell) + CELL_SIDE)
}

// The rectangle of a cell, which is cut to the display.
fn cell_rect(display: Rect, cell: Cell) -> Rect
    requires near { IsRectNearBy (2 ^ 33) display }
    requires ordered { IsOrdered display }
    requires cell { IsCellOf display cell }
    ensures { result ≡ rect_of (place_in display cell) }
{
    Rect {
        min: Point {
            x: cell_start(cell.column) as i64,
            y: cell_start(cell.row) as i64,
        },
        max: Point {
            x: cell_end(cell.column, display.width()) as i64,
            y: cell_end(cell.row, display.height()) as i64,
        },
    }
}

// Puts the cursor, where there is one, over the rows of a rectangle.
fn put_cursor(rows: &mut [u8], r: Rect, chan: Chan, at: Option<Point>)
    requires near { IsRectNear r }
    requires ordered { IsOrdered r }
    requires at { IfSome at IsNear }
    requires rows { length rows.old ≡ row_bytes r (depth chan) * height r }
    ensures long { length rows.new ≡ length rows.old }
    ensures pixels { (p : Spot) → IsTrue (holds r p) → row_pixel r (depth chan) rows.new p ≡ under_cursor chan at (row_pixel r (depth chan) rows.old) p }
{
    if let Some(at) = at {
        over(rows, r, chan, at);
    }
}

// Bytes with the rows of a part of the display behind them, with the cursor over these.
fn with_rows(front: Vec<u8>, world: &World, chan: Chan, r: Rect) -> Result<Vec<u8>, Memory>
    requires display { HasDisplay chan (world_in world.now).desktop.device }
    requires part { IsPartOf (display_in world.now).r r }
    ensures { IfOk result (λ all. AreRowsAdded chan (mirrored (world_in world.now)) r front.items all.items) }
{
    world.sound();
    let begun = front.len();
    let mut all = world.with_rows(r, front)?;
    put_cursor(&mut all[begun..], r, chan, world.pointer());
    Ok(all)
}

// A text with the line of a cell behind it, and its rows.
fn with_cell(mut text: Bytes, world: &World, chan: Chan, cell: Cell) -> Result<Bytes, Memory>
    requires display { HasDisplay chan (world_in world.now).desktop.device }
    requires cell { IsCellOf (display_in world.now).r cell }
    ensures { IfOk result (λ all. IsCellAdded chan (mirrored (world_in world.now)) (cell.column, cell.row) text all) }
{
    world.sound();
    let r = cell_rect(world.display(), cell);
    push_line(
        &mut text,
        b'C',
        &[
            cell_start(cell.column),
            cell_start(cell.row),
            r.width(),
            r.height(),
        ],
    )?;
    let all = with_rows(text.into_vec(), world, chan, r)?;
    Ok(Bytes::from(all))
}

// A text with the text of cells behind it.
fn with_cells(mut text: Bytes, world: &World, chan: Chan, cells: &[Cell]) -> Result<Bytes, Memory>
    requires display { HasDisplay chan (world_in world.now).desktop.device }
    requires cells { All (IsCellOf (display_in world.now).r) cells.now }
    ensures { IfOk result (λ all. AreAdded chan (mirrored (world_in world.now)) (pairs_of cells.now) text all) }
{
    for cell in cells {
        text = with_cell(text, world, chan, *cell)?;
    }
    Ok(text)
}

// Adds the line of a frame of so many cells, and where the size is told its line.
fn push_head(
    text: &mut Bytes,
    number: u64,
    cells: u64,
    sized: bool,
    display: Rect,
) -> Result<(), Memory>
    requires ordered { IsOrdered display }
    ensures { OnOk result (text.new ≡ text.old ++ numbers_line 70 (number ∷ cells ∷ []) ++ (if sized then numbers_line 90 (width display ∷ height display ∷ []) else [])) }
{
    push_line(text, b'F', &[number, cells])?;
    if sized {
        push_line(text, b'Z', &[display.width(), display.height()])?;
    }
    Ok(())
}

/// The text that a mirror puts out after the entry of this number: a frame (docs/FORMATS.md), or nothing where no cell is sent. The cells have
/// the display's pixels, with the cursor over them where the mouse was last. A frame takes at most 4,160 bytes for each cell besides its
/// head; for want of memory there is none.
pub fn entry_text(
    alloc: Global,
    world: &World,
    chan: Chan,
    number: u64,
    sending: &Sending,
) -> Result<Bytes, Memory>
    requires display { HasDisplay chan (world_in world.now).desktop.device }
    ensures { IfOk result (λ text. IsEntry chan number sending.now.resized (mirrored (world_in world.now)) (sent_after sending.now.resized sending.now.old sending.now.new (display_in world.now).marked) text) }
{
    world.sound();
    let cells = sending.cells(alloc, world)?;
    let mut text = Bytes::new(alloc);
    if cells.is_empty() {
        return Ok(text);
    }
    text.reserve(cells.len().saturating_mul(CELL_LEN))?;
    let r = world.display();
    push_head(&mut text, number, cells.len() as u64, sending.resized, r)?;
    with_cells(text, world, chan, &cells)
}
