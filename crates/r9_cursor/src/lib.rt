//! The cursor that a mirror of the display shows, put over rows of packed pixels (image(6)). No call takes memory.
#![tactic(auto)]

ghost use Rattle.std.specs.Prelude.{◌≡◌, ◌*◌, length, IsTrue};
ghost use Rattle.std.specs.Option.{unwrap_or};
ghost use Rattle.r9_geom.specs.declared.Point.{Point};
ghost use Rattle.r9_geom.specs.Geometry.{height, holds, IsNear, IsOrdered, IsRectNear};
ghost use Rattle.model_pixel.specs.Channels.{depth};
ghost use Rattle.model_pixel.specs.Rows.{row_bytes, row_pixel};
ghost use Rattle.model_client.specs.cursor.Cursor.{cursor_at};
ghost use Rattle.model_client.specs.cursor.Rows.{over_rows};

mod cursor;

use cursor::Cursor;
use r9_chan::Chan;
use r9_geom::{Point, Rect};
use r9_plane::row_bytes;

/// Puts the cursor at a point over the rows of a rectangle, in pixels of these channels (image(6)). Pixels that it does not
/// cover, and bits beside the rectangle, stay as they are. Only the rows and columns of its own 16 by 16 pixels are gone
/// over, however large the rectangle is.
pub fn over(rows: &mut [u8], r: Rect, chan: Chan, at: Point)
    requires near { IsRectNear r }
    requires ordered { IsOrdered r }
    requires at { IsNear at }
    requires rows { length rows.old ≡ row_bytes r (depth chan) * height r }
    ensures rows { rows.new ≡ over_rows r chan at rows.old }
    ensures pixels { (p : Point) → IsTrue (holds r p) → row_pixel r (depth chan) rows.new p ≡ unwrap_or (cursor_at chan at p) (row_pixel r (depth chan) rows.old p) }
{
    let line_len = row_bytes(r, chan.depth()) as usize;
    let cursor = Cursor::new(r, chan, at);
    let (first, end) = cursor.rows();
    for row in first..end {
        let start = row as usize * line_len;
        cursor.over_row(row, &mut rows[start..start + line_len]);
    }
}
