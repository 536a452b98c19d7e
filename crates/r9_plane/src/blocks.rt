// Pixels of a rectangle among rows of others.

ghost use Rattle.std.specs.Prelude.{◌≡◌, ◌≢◌, ◌+◌, ◌*◌, ◌^◌, ◌<◌, ◌≤◌, ℕ, length, slice_index, IsTrue};
ghost use Rattle.r9_geom.specs.declared.Point.{Point};
ghost use Rattle.r9_geom.specs.Geometry.{holds, IsOrdered};
ghost use Rattle.model_pixel.specs.Channels.{is_depth};
ghost use Rattle.model_pixel.specs.Rows.{raw_at};
ghost use Rattle.r9_plane.specs.Blocks.{number_in, HasPacked, HasRows};

use super::runs::{fill_run, read_run_of, repeat_run, write_run_of};
use r9_geom::Rect;

// Rows of so many pixels of whole bytes are filled faster by a copy of the first one than each by itself.
const COPIED: usize = 64;

/// Copies the pixels of a rectangle from among rows of so many to among other ones. Its first pixel has number `first` here and
/// `from_first` there.
pub fn copy_rows(
    raws: &mut [u32],
    first: usize,
    width: usize,
    r: &Rect,
    from: &[u32],
    from_first: usize,
    from_width: usize,
)
    requires ordered { IsOrdered r.now }
    requires rows { HasRows r.now first width (length raws.old) }
    requires from_rows { HasRows r.now from_first from_width (length from.now) }
    ensures pixels { (p : Point) → IsTrue (holds r.now p) → slice_index raws.new (number_in r.now first width p) ≡ slice_index from.now (number_in r.now from_first from_width p) }
    ensures others { (n : ℕ) → ((p : Point) → IsTrue (holds r.now p) → n ≢ number_in r.now first width p) → slice_index raws.new n ≡ slice_index raws.old n }
{
    let columns = r.width() as usize;
    for row in 0..r.height() {
        let start = first + row as usize * width;
        let from_start = from_first + row as usize * from_width;
        raws[start..start + columns].copy_from_slice(&from[from_start..from_start + columns]);
    }
}

// Writes one pixel in so many whole rows.
fn fill_whole_rows(raws: &mut [u32], first: usize, rows: usize, width: usize, raw: u32)
    requires fits { first + rows * width ≤ length raws.old }
    ensures written { (i : ℕ) → i < rows * width → slice_index raws.new (first + i) ≡ raw }
    ensures others { (n : ℕ) → ((i : ℕ) → i < rows * width → n ≢ first + i) → slice_index raws.new n ≡ slice_index raws.old n }
{
    raws[first..first + rows * width].fill(raw);
}

/// Writes one pixel at all points of a rectangle among rows of so many, whose first pixel has number `first`.
pub fn fill_rows(raws: &mut [u32], first: usize, width: usize, r: &Rect, raw: u32)
    requires ordered { IsOrdered r.now }
    requires rows { HasRows r.now first width (length raws.old) }
    ensures pixels { (p : Point) → IsTrue (holds r.now p) → slice_index raws.new (number_in r.now first width p) ≡ raw }
    ensures others { (n : ℕ) → ((p : Point) → IsTrue (holds r.now p) → n ≢ number_in r.now first width p) → slice_index raws.new n ≡ slice_index raws.old n }
{
    if width == r.width() as usize && !r.is_empty() {
        // Nothing stands between its rows.
        fill_whole_rows(raws, first, r.height() as usize, width, raw);
        return;
    }
    let columns = r.width() as usize;
    for row in 0..r.height() {
        let start = first + row as usize * width;
        raws[start..start + columns].fill(raw);
    }
}

fn read_packed_of<const DEPTH: u32>(
    bytes: &[u8],
    from_first: usize,
    from_width: usize,
    r: &Rect,
    raws: &mut [u32],
    first: usize,
    width: usize,
)
    requires depth { IsTrue (is_depth DEPTH) }
    requires ordered { IsOrdered r.now }
    requires from_rows { HasPacked r.now from_first from_width DEPTH (length bytes.now) }
    requires rows { HasRows r.now first width (length raws.old) }
    ensures pixels { (p : Point) → IsTrue (holds r.now p) → slice_index raws.new (number_in r.now first width p) ≡ raw_at DEPTH bytes.now (number_in r.now from_first from_width p) }
    ensures range { (p : Point) → IsTrue (holds r.now p) → raw_at DEPTH bytes.now (number_in r.now from_first from_width p) < 2 ^ DEPTH }
    ensures others { (n : ℕ) → ((p : Point) → IsTrue (holds r.now p) → n ≢ number_in r.now first width p) → slice_index raws.new n ≡ slice_index raws.old n }
{
    let columns = r.width() as usize;
    for row in 0..r.height() {
        let start = first + row as usize * width;
        let from_start = from_first + row as usize * from_width;
        read_run_of::<DEPTH>(bytes, from_start, &mut raws[start..start + columns]);
    }
}

/// Reads packed pixels of a rectangle from among rows of so many to among rows of raw ones. Its first pixel has number `from_first`
/// there and `first` here.
pub fn read_packed(
    bytes: &[u8],
    depth: u32,
    from_first: usize,
    from_width: usize,
    r: &Rect,
    raws: &mut [u32],
    first: usize,
    width: usize,
)
    requires depth { IsTrue (is_depth depth) }
    requires ordered { IsOrdered r.now }
    requires from_rows { HasPacked r.now from_first from_width depth (length bytes.now) }
    requires rows { HasRows r.now first width (length raws.old) }
    ensures pixels { (p : Point) → IsTrue (holds r.now p) → slice_index raws.new (number_in r.now first width p) ≡ raw_at depth bytes.now (number_in r.now from_first from_width p) }
    ensures range { (p : Point) → IsTrue (holds r.now p) → raw_at depth bytes.now (number_in r.now from_first from_width p) < 2 ^ depth }
    ensures others { (n : ℕ) → ((p : Point) → IsTrue (holds r.now p) → n ≢ number_in r.now first width p) → slice_index raws.new n ≡ slice_index raws.old n }
{
    match depth {
        1 => read_packed_of::<1>(bytes, from_first, from_width, r, raws, first, width),
        2 => read_packed_of::<2>(bytes, from_first, from_width, r, raws, first, width),
        4 => read_packed_of::<4>(bytes, from_first, from_width, r, raws, first, width),
        8 => read_packed_of::<8>(bytes, from_first, from_width, r, raws, first, width),
        16 => read_packed_of::<16>(bytes, from_first, from_width, r, raws, first, width),
        24 => read_packed_of::<24>(bytes, from_first, from_width, r, raws, first, width),
        _ => read_packed_of::<32>(bytes, from_first, from_width, r, raws, first, width),
    }
}

fn write_packed_of<const DEPTH: u32>(
    bytes: &mut [u8],
    first: usize,
    width: usize,
    r: &Rect,
    raws: &[u32],
    from_first: usize,
    from_width: usize,
)
    requires depth { IsTrue (is_depth DEPTH) }
    requires ordered { IsOrdered r.now }
    requires rows { HasPacked r.now first width DEPTH (length bytes.old) }
    requires from_rows { HasRows r.now from_first from_width (length raws.now) }
    requires raws { (p : Point) → IsTrue (holds r.now p) → slice_index raws.now (number_in r.now from_first from_width p) < 2 ^ DEPTH }
    ensures pixels { (p : Point) → IsTrue (holds r.now p) → raw_at DEPTH bytes.new (number_in r.now first width p) ≡ slice_index raws.now (number_in r.now from_first from_width p) }
    ensures others { (n : ℕ) → ((p : Point) → IsTrue (holds r.now p) → n ≢ number_in r.now first width p) → raw_at DEPTH bytes.new n ≡ raw_at DEPTH bytes.old n }
{
    let columns = r.width() as usize;
    for row in 0..r.height() {
        let start = first + row as usize * width;
        let from_start = from_first + row as usize * from_width;
        write_run_of::<DEPTH>(bytes, start, &raws[from_start..from_start + columns]);
    }
}

/// Writes packed pixels of a rectangle among rows of so many from among rows of raw ones, and no others. Its first pixel has number
/// `first` here and `from_first` there.
pub fn write_packed(
    bytes: &mut [u8],
    depth: u32,
    first: usize,
    width: usize,
    r: &Rect,
    raws: &[u32],
    from_first: usize,
    from_width: usize,
)
    requires depth { IsTrue (is_depth depth) }
    requires ordered { IsOrdered r.now }
    requires rows { HasPacked r.now first width depth (length bytes.old) }
    requires from_rows { HasRows r.now from_first from_width (length raws.now) }
    requires raws { (p : Point) → IsTrue (holds r.now p) → slice_index raws.now (number_in r.now from_first from_width p) < 2 ^ depth }
    ensures pixels { (p : Point) → IsTrue (holds r.now p) → raw_at depth bytes.new (number_in r.now first width p) ≡ slice_index raws.now (number_in r.now from_first from_width p) }
    ensures others { (n : ℕ) → ((p : Point) → IsTrue (holds r.now p) → n ≢ number_in r.now first width p) → raw_at depth bytes.new n ≡ raw_at depth bytes.old n }
{
    match depth {
        1 => write_packed_of::<1>(bytes, first, width, r, raws, from_first, from_width),
        2 => write_packed_of::<2>(bytes, first, width, r, raws, from_first, from_width),
        4 => write_packed_of::<4>(bytes, first, width, r, raws, from_first, from_width),
        8 => write_packed_of::<8>(bytes, first, width, r, raws, from_first, from_width),
        16 => write_packed_of::<16>(bytes, first, width, r, raws, from_first, from_width),
        24 => write_packed_of::<24>(bytes, first, width, r, raws, from_first, from_width),
        _ => write_packed_of::<32>(bytes, first, width, r, raws, from_first, from_width),
    }
}

fn fill_packed_of<const DEPTH: u32>(
    bytes: &mut [u8],
    first: usize,
    width: usize,
    r: &Rect,
    raw: u32,
)
    requires depth { IsTrue (is_depth DEPTH) }
    requires ordered { IsOrdered r.now }
    requires rows { HasPacked r.now first width DEPTH (length bytes.old) }
    requires raw { raw < 2 ^ DEPTH }
    ensures pixels { (p : Point) → IsTrue (holds r.now p) → raw_at DEPTH bytes.new (number_in r.now first width p) ≡ raw }
    ensures others { (n : ℕ) → ((p : Point) → IsTrue (holds r.now p) → n ≢ number_in r.now first width p) → raw_at DEPTH bytes.new n ≡ raw_at DEPTH bytes.old n }
{
    let columns = r.width() as usize;
    for row in 0..r.height() {
        let start = first + row as usize * width;
        if row > 0 && DEPTH >= 8 && columns >= COPIED {
            repeat_run(bytes, DEPTH, start, columns, first);
            continue;
        }
        fill_run(bytes, DEPTH, start, columns, raw);
    }
}

/// Writes one pixel at all points of a rectangle among rows of so many packed ones, and no others. Its first pixel has number
/// `first`.
pub fn fill_packed(bytes: &mut [u8], depth: u32, first: usize, width: usize, r: &Rect, raw: u32)
    requires depth { IsTrue (is_depth depth) }
    requires ordered { IsOrdered r.now }
    requires rows { HasPacked r.now first width depth (length bytes.old) }
    requires raw { raw < 2 ^ depth }
    ensures pixels { (p : Point) → IsTrue (holds r.now p) → raw_at depth bytes.new (number_in r.now first width p) ≡ raw }
    ensures others { (n : ℕ) → ((p : Point) → IsTrue (holds r.now p) → n ≢ number_in r.now first width p) → raw_at depth bytes.new n ≡ raw_at depth bytes.old n }
{
    if depth >= 8 && width == r.width() as usize && !r.is_empty() {
        // Nothing stands between its rows. Small pixels take longer where their depth is no constant.
        fill_run(bytes, depth, first, r.height() as usize * width, raw);
        return;
    }
    match depth {
        1 => fill_packed_of::<1>(bytes, first, width, r, raw),
        2 => fill_packed_of::<2>(bytes, first, width, r, raw),
        4 => fill_packed_of::<4>(bytes, first, width, r, raw),
        8 => fill_packed_of::<8>(bytes, first, width, r, raw),
        16 => fill_packed_of::<16>(bytes, first, width, r, raw),
        24 => fill_packed_of::<24>(bytes, first, width, r, raw),
        _ => fill_packed_of::<32>(bytes, first, width, r, raw),
    }
}
