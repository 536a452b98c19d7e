// A cursor over the rows of a rectangle.

ghost use Rattle.std.specs.Prelude.{◌≡◌, ℕ, ◌+◌, ◌*◌, ◌/◌, ◌^◌, ◌<◌, ◌≤◌, ◌≤ℤ◌, ◌+ℤ◌, ◌-ℤ◌, min, neg_ℤ, pos, length, slice_index, IsTrue, IfSome, None};
ghost use Rattle.std.specs.Option.{unwrap_or};
ghost use Rattle.r9_geom.specs.Geometry.{distance, height, width, IsNear, IsNearBy, IsOrdered, IsRectNear};
ghost use Rattle.model_pixel.specs.Channels as channels;
ghost use Rattle.model_pixel.specs.Rows as spec;
ghost use Rattle.model_client.specs.cursor.Cursor as model;
ghost use Rattle.model_client.specs.cursor.Cursor.{shape_at, cursor_at};
ghost use Rattle.model_client.specs.cursor.Rows.{put_in};
ghost use Rattle.r9_cursor.specs.Bytes.{old_bits, byte_under};

use r9_chan::{Chan, Colour};
use r9_geom::{Point, Rect, distance};

/// The colours of the cursor.
const BLACK: u32 = 0x0000_00FF;

const WHITE: u32 = 0xFFFF_FFFF;

/// How many columns and rows it has.
const SIZE: i64 = 16;

/// A cursor at a point, and the rectangle whose rows it is put over.
#[derive(Drop)]
pub struct Cursor {
    r: Rect,
    chan: Chan,
    at: Point,
    depth: u32,
    skip: u64,
    columns: u64,
    black: u32,
    white: u32,
    ghost near: { IsRectNear r },
    ghost ordered: { IsOrdered r },
    ghost at_near: { IsNear at },
    ghost depth_is: { depth ≡ channels.depth chan },
    ghost lawful: { IsTrue (channels.is_depth depth) },
    ghost skip_is: { skip ≡ spec.skip r depth },
    ghost skip_small: { skip < 8 },
    ghost columns_are: { columns ≡ width r },
    ghost black_is: { black ≡ channels.pack chan (channels.colour_of model.black) },
    ghost white_is: { white ≡ channels.pack chan (channels.colour_of model.white) },
    ghost black_fits: { black < 2 ^ depth },
    ghost white_fits: { white < 2 ^ depth },
}

// How many pixels the first byte of a row has before the row's first pixel.
fn skip(r: Rect, depth: u32) -> u64
    requires near { IsRectNear r }
    requires depth { IsTrue (channels.is_depth depth) }
    ensures value { result ≡ spec.skip r depth }
    ensures range { result < 8 }
{
    r.min.x.rem_euclid(i64::from((8 / depth).max(1))) as u64
}

impl Cursor {
    pub fn new(r: Rect, chan: Chan, at: Point) -> Cursor
        requires near { IsRectNear r }
        requires ordered { IsOrdered r }
        requires at { IsNear at }
        ensures rect { result.r ≡ r }
        ensures chan { result.chan ≡ chan }
        ensures at { result.at ≡ at }
    {
        let depth = chan.depth();
        Cursor {
            r,
            chan,
            at,
            depth,
            skip: skip(r, depth),
            columns: r.width(),
            black: chan.pack(Colour::of_word(BLACK)),
            white: chan.pack(Colour::of_word(WHITE)),
        }
    }

    // The raw pixel that is put over the point so many columns and rows from the cursor's.
    fn shape_at(&self, dx: i64, dy: i64) -> Option<u32>
        ensures value { result ≡ shape_at self.now.chan dx dy }
        ensures range { IfSome result (λ raw. raw < 2 ^ self.now.depth) }
    {
        if 0 <= dx && dx <= dy && dy <= 15 {
            Some(if dx == 0 || dx == dy || dy == 15 {
                self.black
            } else {
                self.white
            })
        } else {
            None
        }
    }

    // The raw pixel that is put over a point.
    fn cursor_at(&self, p: Point) -> Option<u32>
        requires { IsNearBy (2 ^ 42) p }
        ensures value { result ≡ cursor_at self.now.chan self.now.at p }
        ensures range { IfSome result (λ raw. raw < 2 ^ self.now.depth) }
    {
        self.shape_at(difference(self.at.x, p.x), difference(self.at.y, p.y))
    }

    // The raw pixel that is put over pixel number n of a row.
    fn put_in(&self, row: u64, n: u64) -> Option<u32>
        requires { row < height self.now.r }
        ensures value { result ≡ put_in self.now.r self.now.chan self.now.at row n }
        ensures range { IfSome result (λ raw. raw < 2 ^ self.now.depth) }
    {
        if self.skip <= n && n < self.skip + self.columns {
            self.cursor_at(self.r.point_at(n - self.skip, row))
        } else {
            None
        }
    }

    // Byte k of a row of pixels of whole bytes.
    fn whole_byte(&self, row: u64, k: u64, old: u8) -> u8
        requires row { row < height self.now.r }
        requires whole { 8 ≤ self.now.depth }
        ensures { result ≡ byte_under self.now.depth (put_in self.now.r self.now.chan self.now.at row) k old }
    {
        let size = u64::from(self.depth / 8);
        match self.put_in(row, k / size) {
            None => old,
            Some(raw) => ((raw >> (8 * (k % size))) % 256) as u8,
        }
    }

    // Pixel number n of a row, in a byte with these old bits.
    fn small_pixel(&self, row: u64, n: u64, old: u8) -> u32
        requires row { row < height self.now.r }
        requires small { self.now.depth < 8 }
        ensures value { result ≡ unwrap_or (put_in self.now.r self.now.chan self.now.at row n) (old_bits self.now.depth old n) }
        ensures range { result < 2 ^ self.now.depth }
    {
        match self.put_in(row, n) {
            None => old_bits(self.depth, old, n),
            Some(raw) => raw,
        }
    }

    // Byte k of a row of pixels below 8 bits.
    fn small_byte(&self, row: u64, k: u64, old: u8) -> u8
        requires row { row < height self.now.r }
        requires place { k < 2 ^ 50 }
        requires small { self.now.depth < 8 }
        ensures { result ≡ byte_under self.now.depth (put_in self.now.r self.now.chan self.now.at row) k old }
    {
        let count = 8 / self.depth;
        let first = k * u64::from(count);
        let mut byte = 0;
        for i in 0..count {
            let raw = self.small_pixel(row, first + u64::from(i), old);
            byte = with_pixel(byte, self.depth, i, raw);
        }
        byte as u8
    }

    // Byte k of a row, with the cursor over it.
    fn row_byte(&self, row: u64, k: u64, old: u8) -> u8
        requires row { row < height self.now.r }
        requires place { k < 2 ^ 50 }
        ensures { result ≡ byte_under self.now.depth (put_in self.now.r self.now.chan self.now.at row) k old }
    {
        if self.depth < 8 {
            self.small_byte(row, k, old)
        } else {
            self.whole_byte(row, k, old)
        }
    }

    /// The rows of the rectangle that it may have a point in: from the first to below the second.
    pub fn rows(&self) -> (u64, u64)
        ensures above { (row n : ℕ) → row < result.0 → put_in self.now.r self.now.chan self.now.at row n ≡ None }
        ensures below { (row n : ℕ) → result.1 ≤ row → row < height self.now.r → put_in self.now.r self.now.chan self.now.at row n ≡ None }
        ensures end { result.1 ≤ height self.now.r }
    {
        own_places(self.r.min.y, self.r.height(), self.at.y)
    }

    // The bytes of a row that it may have a point in: from the first to below the second.
    fn bytes(&self) -> (u64, u64)
        ensures left { (row k old : ℕ) → old < 256 → k < result.0 → byte_under self.now.depth (put_in self.now.r self.now.chan self.now.at row) k old ≡ old }
        ensures right { (row k old : ℕ) → old < 256 → result.1 ≤ k → byte_under self.now.depth (put_in self.now.r self.now.chan self.now.at row) k old ≡ old }
        ensures end { result.1 ≤ spec.row_bytes self.now.r self.now.depth }
        ensures range { result.1 < 2 ^ 45 }
    {
        let (first, end) = own_places(self.r.min.x, self.columns, self.at.x);
        let depth = u64::from(self.depth);
        (
            (self.skip + first) * depth / 8,
            ((self.skip + end) * depth + 7) / 8,
        )
    }

    /// Puts it over a row.
    pub fn over_row(&self, row: u64, line: &mut [u8])
        requires row { row < height self.now.r }
        requires line { length line.old ≡ spec.row_bytes self.now.r self.now.depth }
        ensures { (k : ℕ) → k < length line.old → slice_index line.new k ≡ byte_under self.now.depth (put_in self.now.r self.now.chan self.now.at row) k (slice_index line.old k) }
    {
        let (first, end) = self.bytes();
        for k in first as usize..end as usize {
            line[k] = self.row_byte(row, k as u64, line[k]);
        }
    }
}

// Which of so many columns or rows, the first at `low`, are among the cursor's 16 from `at` on: from the first number to below
// the second.
fn own_places(low: i64, count: u64, at: i64) -> (u64, u64)
    requires low { neg_ℤ (pos (2 ^ 40)) ≤ℤ low }
    requires at { at ≤ℤ pos (2 ^ 40) }
    ensures first { result.0 ≡ min (distance low at) count }
    ensures end { result.1 ≡ min (distance low (at +ℤ pos 16)) count }
{
    let first = distance(low, at.max(low)).min(count);
    let end = distance(low, (at + SIZE).max(low)).min(count);
    (first, end)
}

// A number of the bits of i pixels, with one more pixel below them.
fn with_pixel(byte: u32, depth: u32, i: u32, raw: u32) -> u32
    requires depth { IsTrue (channels.is_depth depth) }
    requires small { depth < 8 }
    requires i { i < 8 / depth }
    requires byte { byte < 2 ^ (depth * i) }
    requires raw { raw < 2 ^ depth }
    ensures value { result ≡ byte * 2 ^ depth + raw }
    ensures range { result < 2 ^ (depth * (i + 1)) }
{
    byte * (1 << depth) + raw
}

fn difference(from: i64, to: i64) -> i64
    requires from_low { neg_ℤ (pos (2 ^ 42)) ≤ℤ from }
    requires from_high { from ≤ℤ pos (2 ^ 42) }
    requires to_low { neg_ℤ (pos (2 ^ 42)) ≤ℤ to }
    requires to_high { to ≤ℤ pos (2 ^ 42) }
    ensures { result ≡ to -ℤ from }
{
    to - from
}

// The bits of pixel number n, which is below 8 bits, in its byte.
fn old_bits(depth: u32, old: u8, n: u64) -> u32
    requires depth { IsTrue (channels.is_depth depth) }
    requires small { depth < 8 }
    ensures value { result ≡ old_bits depth old n }
    ensures range { result < 2 ^ depth }
{
    let count = 8 / depth;
    let shift = depth * (count - 1 - (n % u64::from(count)) as u32);
    (u32::from(old) >> shift) % (1 << depth)
}
