// The rows of a rectangle, behind other bytes.

ghost use Rattle.std.specs.Prelude.{◌≡◌, ◌+◌, ◌*◌, ◌++◌, ◌^◌, ◌<◌, ◌≤◌, ℕ, false, length, slice_index, IfOk, IsTrue};
ghost use Rattle.r9_geom.specs.Geometry.{is_empty, IsOrdered, IsRectNear};
ghost use Rattle.model_pixel.specs.Channels as channels;
ghost use Rattle.model_pixel.specs.Rows.{rows_of};
ghost use Rattle.r9_plane.specs.Lines.{lines_of};

use super::Plane;
use crate::rows::row_bytes;
use r9_geom::Rect;
use r9_memory::Memory;

// Bytes with so many lines of others behind them, each of which begins `across` bytes behind the one before.
fn append_lines(
    front: Vec<u8>,
    bytes: &[u8],
    first: usize,
    across: usize,
    line: usize,
    count: usize,
) -> Result<Vec<u8>, Memory>
    requires { (n : ℕ) → n < count → first + n * across + line ≤ length bytes.now }
    ensures items { IfOk result (λ all. all.items ≡ front.items ++ lines_of bytes.now first across line count) }
    ensures range { IfOk result (λ all. (i : ℕ) → slice_index bytes.now i < 2 ^ 8) }
{
    let mut all = front;
    for n in 0..count {
        let start = first + n * across;
        all.extend_from_slice(&bytes[start..start + line])?;
    }
    Ok(all)
}

impl Plane {
    ghost use Rattle.r9_geom.specs.declared.Point.{Point};
    ghost use Rattle.r9_geom.specs.Geometry.{holds};
    ghost use Rattle.r9_plane.specs.Pixels.{chan_of, pixel_at, rect_of};

    // The rows of whole pixels are their bytes as they stand here.
    fn with_whole(&self, r: &Rect, front: Vec<u8>) -> Result<Vec<u8>, Memory>
        requires near { IsRectNear r.now }
        requires ordered { IsOrdered r.now }
        requires some { is_empty r.now ≡ false }
        requires inside { (p : Point) → IsTrue (holds r.now p) → IsTrue (holds (rect_of self.now) p) }
        requires whole { 8 ≤ self.now.depth }
        ensures { IfOk result (λ all. all.items ≡ front.items ++ rows_of r.now (channels.depth (chan_of self.now)) (pixel_at self.now)) }
    {
        let size = self.depth as usize / 8;
        let first = self.number(r.min) * size;
        let line = r.width() as usize * size;
        let all = append_lines(
            front,
            &self.bytes,
            first,
            self.columns * size,
            line,
            r.height() as usize,
        )?;
        Ok(all)
    }

    /// Bytes with the rows of the pixels of a rectangle behind them (image(6)). Bits beside it are 0. For want of memory there are
    /// none.
    pub fn with_rows(&self, r: Rect, front: Vec<u8>) -> Result<Vec<u8>, Memory>
        requires near { IsRectNear r }
        requires ordered { IsOrdered r }
        requires inside { (p : Point) → IsTrue (holds r p) → IsTrue (holds (rect_of self.now) p) }
        ensures { IfOk result (λ all. all.items ≡ front.items ++ rows_of r (channels.depth (chan_of self.now)) (pixel_at self.now)) }
    {
        let size = match row_bytes(r, self.depth).checked_mul(r.height()) {
            Some(size) => size as usize,
            None => return Err(Memory),
        };
        let mut all = front;
        all.reserve(size)?;
        if self.depth >= 8 && !r.is_empty() {
            return self.with_whole(&r, all);
        }
        let len = all.len();
        all.resize(len + size, 0)?;
        self.unload(r, &mut all[len..]);
        Ok(all)
    }
}
