//! Pixels that are put on an image from rows of bytes.

ghost use Rattle.std.specs.Prelude.{◌≡◌, ◌+◌, ◌*◌, ◌<◌, ◌≤◌, length, IsTrue};
ghost use Rattle.r9_geom.specs.declared.Point.{Point as Spot};
ghost use Rattle.r9_geom.specs.Geometry.{area_of, height, holds, point_at, strip, width, IsNear, IsOrdered, IsRectNear};
ghost use Rattle.model_pixel.specs.Channels as channels;
ghost use Rattle.model_pixel.specs.Rows.{row_bytes, row_pixel};
ghost use Rattle.r9_plane.specs.Pixels.{along};
ghost use Rattle.model_forest.specs.World.{image_at, IsLive};
ghost use Rattle.r9_locate.specs.locate.Forms.{bits_in, forms_of};
ghost use Rattle.r9_locate.specs.locate.Table.{shape};
ghost use Rattle.r9_pixels.specs.Kept.{form_at, writes};
ghost use Rattle.r9_put.specs.put.Written.{IsStored, IsWritten};

use super::rows::put_side_by_side;
use super::whole::is_whole;
use r9_geom::{Point, Rect};
use r9_locate::locate::{Lists, along};
use r9_marks::steps::Steps;
use r9_pixels::KeptPixels;
use r9_plane::read_rows;
use std::sync::ledger::Ledger;

// How many pixels are read from the rows at a time.
const BLOCK: usize = 256;

// Puts pixels from the rows of a rectangle on an image side by side: as many as there is room for in `raws`.
fn load_run<L: Ledger>(
    lists: &Lists,
    pixels: &mut KeptPixels,
    i: u32,
    r: &Rect,
    rows: &[u8],
    at: Point,
    raws: &mut [u32],
    steps: &mut Steps<L>,
)
    requires live { IsLive (shape lists.now) i }
    requires point { IsNear at }
    requires near { IsRectNear r.now }
    requires ordered { IsOrdered r.now }
    requires of_image { (p : Spot) → IsTrue (holds r.now p) → IsTrue (holds (image_at (shape lists.now) i).r p) }
    requires inside { (p : Spot) → IsTrue (holds (strip at (length raws.old)) p) → IsTrue (holds r.now p) }
    requires rows { length rows.now ≡ row_bytes r.now (channels.depth (image_at (shape lists.now) i).chan) * height r.now }
    requires stored { IsStored (shape lists.now) pixels.old }
    requires bits { bits_in (form_at pixels.old) i ≡ channels.depth (image_at (shape lists.now) i).chan }
    ensures written { IsWritten (shape lists.now) i (holds (strip at (length raws.old))) (row_pixel r.now (channels.depth (image_at (shape lists.now) i).chan) rows.now) pixels.old pixels.new }
    ensures steps { steps.new ≤ steps.old + length raws.old }
    ensures writes { writes pixels.new + steps.old ≡ writes pixels.old + steps.new }
{
    read_rows(r, lists.get(i).chan.depth(), rows, at, raws);
    put_side_by_side(lists, pixels, i, at, raws, steps);
}

// The same of one row of the rectangle, a block at a time.
fn load_row<L: Ledger>(
    lists: &Lists,
    pixels: &mut KeptPixels,
    i: u32,
    r: &Rect,
    rows: &[u8],
    row: u64,
    steps: &mut Steps<L>,
)
    requires live { IsLive (shape lists.now) i }
    requires near { IsRectNear r.now }
    requires ordered { IsOrdered r.now }
    requires of_image { (p : Spot) → IsTrue (holds r.now p) → IsTrue (holds (image_at (shape lists.now) i).r p) }
    requires row { row < height r.now }
    requires rows { length rows.now ≡ row_bytes r.now (channels.depth (image_at (shape lists.now) i).chan) * height r.now }
    requires stored { IsStored (shape lists.now) pixels.old }
    requires bits { bits_in (form_at pixels.old) i ≡ channels.depth (image_at (shape lists.now) i).chan }
    ensures written { IsWritten (shape lists.now) i (holds (strip (point_at r.now 0 row) (width r.now))) (row_pixel r.now (channels.depth (image_at (shape lists.now) i).chan) rows.now) pixels.old pixels.new }
    ensures steps { steps.new ≤ steps.old + width r.now }
    ensures writes { writes pixels.new + steps.old ≡ writes pixels.old + steps.new }
{
    let at = r.point_at(0, row);
    let width = r.width() as usize;
    let mut block = [0; BLOCK];
    let mut done = 0;
    while done < width {
        let size = (width - done).min(BLOCK);
        load_run(
            lists,
            pixels,
            i,
            r,
            rows,
            along(at, done),
            &mut block[..size],
            steps,
        );
        done += size;
    }
}

// The same of all its rows.
fn load_rows<L: Ledger>(
    lists: &Lists,
    pixels: &mut KeptPixels,
    i: u32,
    r: &Rect,
    rows: &[u8],
    steps: &mut Steps<L>,
)
    requires live { IsLive (shape lists.now) i }
    requires near { IsRectNear r.now }
    requires ordered { IsOrdered r.now }
    requires of_image { (p : Spot) → IsTrue (holds r.now p) → IsTrue (holds (image_at (shape lists.now) i).r p) }
    requires rows { length rows.now ≡ row_bytes r.now (channels.depth (image_at (shape lists.now) i).chan) * height r.now }
    requires stored { IsStored (shape lists.now) pixels.old }
    requires bits { bits_in (form_at pixels.old) i ≡ channels.depth (image_at (shape lists.now) i).chan }
    ensures written { IsWritten (shape lists.now) i (holds r.now) (row_pixel r.now (channels.depth (image_at (shape lists.now) i).chan) rows.now) pixels.old pixels.new }
    ensures steps { steps.new ≤ steps.old + area_of r.now }
    ensures writes { writes pixels.new + steps.old ≡ writes pixels.old + steps.new }
{
    for row in 0..r.height() {
        load_row(lists, pixels, i, r, rows, row, steps);
    }
}

/// Puts the pixels of the rows of a rectangle on an image, at most one for each point: in its plane where nothing stands on that.
pub fn load_area<L: Ledger>(
    lists: &Lists,
    pixels: &mut KeptPixels,
    i: u32,
    r: Rect,
    rows: &[u8],
    steps: &mut Steps<L>,
)
    requires live { IsLive (shape lists.now) i }
    requires near { IsRectNear r }
    requires ordered { IsOrdered r }
    requires of_image { (p : Spot) → IsTrue (holds r p) → IsTrue (holds (image_at (shape lists.now) i).r p) }
    requires rows { length rows.now ≡ row_bytes r (channels.depth (image_at (shape lists.now) i).chan) * height r }
    requires stored { IsStored (shape lists.now) pixels.old }
    requires forms { form_at pixels.old ≡ forms_of (shape lists.now) }
    requires bits { bits_in (form_at pixels.old) i ≡ channels.depth (image_at (shape lists.now) i).chan }
    ensures written { IsWritten (shape lists.now) i (holds r) (row_pixel r (channels.depth (image_at (shape lists.now) i).chan) rows.now) pixels.old pixels.new }
    ensures steps { steps.new ≤ steps.old + area_of r }
    ensures writes { writes pixels.new + steps.old ≡ writes pixels.old + steps.new }
{
    if is_whole(lists, i) {
        pixels.load_whole(i, r, rows, steps);
    } else {
        load_rows(lists, pixels, i, &r, rows, steps);
    }
}
