//! Images as files (image(6)): a header of five fields, 11 wide and a blank each, and then the rows of the pixels.
#![tactic(auto)]

ghost use Rattle.std.specs.Prelude.{◌≡◌, ◌+◌, ◌*◌, ◌%◌, ◌<◌, ◌≤◌, ◌^◌, ◌++◌, ℕ, List, IfOk, OnOk, OnErr, IsTrue, drop, length, take};
ghost use Rattle.r9_geom.specs.declared.Point.{Point as Spot};
ghost use Rattle.r9_geom.specs.Geometry.{height, holds, IsOrdered, IsRectNearBy};
ghost use Rattle.model_pixel.specs.Channels.{depth};
ghost use Rattle.model_pixel.specs.Rows.{rows_of};
ghost use Rattle.model_pixel.specs.Rows as rows;
ghost use Rattle.model_draw.specs.imgfile.ImageFile.{file_header, file_part, image_file, rect_fields, rows_len};
ghost use Rattle.r9_imgfile.specs.Touched as touches;
ghost use Rattle.r9_imgfile.specs.Touched.{touched};

use r9_geom::Rect;
use r9_locate::info::Info;
use r9_memory::Memory;
use r9_plane::row_bytes;
use r9_text::{Bytes, push_number, push_word};
use std::alloc::Global;

/// How many bytes the header of a file has.
const HEADER_LEN: u64 = 60;

/// What the file of an image begins with: its channels, and the four numbers of its rectangle.
pub fn header(alloc: Global, info: &Info) -> Result<Bytes, Memory>
    requires { IsRectNearBy (2 ^ 33) info.now.r }
    ensures { IfOk result (λ bytes. bytes ≡ file_header info.now.chan info.now.r) }
{
    let mut out = Bytes::new(alloc);
    let name = info.chan.text();
    push_word(&mut out, &name.bytes[..usize::from(name.len)])?;
    push_rect(&mut out, info.r)?;
    Ok(out)
}

/// Adds the numbers of a rectangle one by one. For want of memory some may be there.
fn push_sides(out: &mut Bytes, r: Rect) -> Result<(), Memory>
    requires { IsRectNearBy (2 ^ 33) r }
    ensures ok { OnOk result (out.new ≡ out.old ++ rect_fields r) }
    ensures front { take (length out.old) out.new ≡ out.old }
{
    push_number(out, r.min.x)?;
    push_number(out, r.min.y)?;
    push_number(out, r.max.x)?;
    push_number(out, r.max.y)?;
    Ok(())
}

/// Adds the four numbers of a rectangle, each 11 wide and a blank: the left and the upper edge, and the right and the lower one.
/// For want of memory nothing is added.
pub fn push_rect(out: &mut Bytes, r: Rect) -> Result<(), Memory>
    requires { IsRectNearBy (2 ^ 33) r }
    ensures ok { OnOk result (out.new ≡ out.old ++ rect_fields r) }
    ensures err { OnErr result (out.new ≡ out.old) }
{
    let before = out.len();
    let pushed = push_sides(out, r);
    if pushed.is_err() {
        out.truncate(before);
    }
    pushed
}

/// How many bytes the file of an image has.
pub fn len(info: &Info) -> u64
    requires near { IsRectNearBy (2 ^ 33) info.now.r }
    requires ordered { IsOrdered info.now.r }
    requires rows { rows_len info.now.chan info.now.r < 2 ^ 63 }
    ensures value { result ≡ 60 + rows_len info.now.chan info.now.r }
    ensures whole { (rows : List ℕ) → length rows ≡ rows_len info.now.chan info.now.r → result ≡ length (image_file info.now.chan info.now.r rows) }
{
    60 + info.r.height() * row_bytes(info.r, info.chan.depth())
}

// Rows of a rectangle, from one on and before another, counted from the upper one.
fn rows_between(r: Rect, first: u64, end: u64) -> Rect
    requires near { IsRectNearBy (2 ^ 33) r }
    requires ordered { IsOrdered r }
    requires first { first ≤ end }
    requires end { end ≤ height r }
    ensures value { result ≡ touches.rows_between r first end }
    ensures near { IsRectNearBy (2 ^ 33) result }
    ensures ordered { IsOrdered result }
    ensures inside { (p : Spot) → IsTrue (holds result p) → IsTrue (holds r p) }
{
    Rect {
        min: r.point_at(0, first),
        max: r.point_at(r.width(), end),
    }
}

// How many bytes of the rows stand before a part of the file.
fn before_part(offset: u64) -> u64
    ensures { result ≡ touches.before_part offset }
{
    offset.saturating_sub(HEADER_LEN)
}

/// The rows of an image that hold some byte of its file from an offset on, within the first `count`: no row where there is none.
#[tactic(auto, unfolding(crate::specs::Touched::touched))]
pub fn touched_rows(info: &Info, offset: u64, count: u32) -> Rect
    requires near { IsRectNearBy (2 ^ 33) info.now.r }
    requires ordered { IsOrdered info.now.r }
    ensures value { result ≡ touched info.now.chan info.now.r offset count }
    ensures near { IsRectNearBy (2 ^ 33) result }
    ensures ordered { IsOrdered result }
    ensures inside { (p : Spot) → IsTrue (holds result p) → IsTrue (holds info.now.r p) }
{
    let line = row_bytes(info.r, info.chan.depth());
    let len = u64::from(count).saturating_sub(HEADER_LEN.saturating_sub(offset));
    if line == 0 || len == 0 {
        return rows_between(info.r, 0, 0);
    }
    let height = info.r.height();
    let before = before_part(offset);
    let first = (before / line).min(height);
    let more = (before % line + len - 1) / line;
    rows_between(info.r, first, (first + more + 1).min(height))
}

// How many bytes of the first row that a part of the file touches stand before it.
fn before_in_row(info: &Info, offset: u64) -> u64
    requires near { IsRectNearBy (2 ^ 33) info.now.r }
    requires ordered { IsOrdered info.now.r }
    ensures { result ≡ touches.before_part offset % rows.row_bytes info.now.r (depth info.now.chan) }
{
    let before = before_part(offset);
    let line = row_bytes(info.r, info.chan.depth());
    if line == 0 { before } else { before % line }
}

/// The bytes of the file of an image from an offset on, at most `count`. `rows` has the pixels of those rows alone that the part
/// touches. Of the file no more is made than what is asked for.
pub fn part(
    alloc: Global,
    info: &Info,
    rows: &[u8],
    offset: u64,
    count: u32,
) -> Result<Bytes, Memory>
    requires near { IsRectNearBy (2 ^ 33) info.now.r }
    requires ordered { IsOrdered info.now.r }
    ensures { IfOk result (λ bytes. (pixel : Spot → ℕ) → rows.now ≡ rows_of (touched info.now.chan info.now.r offset count) (depth info.now.chan) pixel
        → bytes ≡ file_part (image_file info.now.chan info.now.r (rows_of info.now.r (depth info.now.chan) pixel)) offset count) }
{
    let head = header(alloc, info)?;
    let count = count as usize;
    let mut out = Bytes::from_slice(alloc, slice_of(head.as_slice(), offset as usize, count))?;
    let before = before_in_row(info, offset) as usize;
    out.push_all(slice_of(rows, before, count - out.len()))?;
    Ok(out)
}

// The bytes from an offset on, at most so many.
fn slice_of(bytes: &[u8], offset: usize, count: usize) -> &[u8]
    ensures { result.now ≡ take count (drop offset bytes.now) }
{
    let rest = &bytes[offset.min(bytes.len())..];
    &rest[..count.min(rest.len())]
}
