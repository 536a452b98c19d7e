// Pixels side by side that are moved within packed bytes, with some of their bits.

ghost use Rattle.std.specs.Prelude.{◌≡◌, ◌≢◌, ℕ, ◌+◌, ◌*◌, ◌<◌, ◌≤◌, ◌^◌, IsTrue, length};
ghost use Rattle.std.specs.Int.Bits.{bit_and};
ghost use Rattle.model_pixel.specs.Channels.{is_depth};
ghost use Rattle.model_pixel.specs.Rows.{raw_at};

use super::keeping::copy_kept;
use super::runs::copy_run;

// How many pixels are moved at a time.
const MOVED: usize = 1016;

/// The bytes of a room for so many pixels of any depth, and 8 beside them.
pub const ROOM_BYTES: usize = 4096;

// A block of pixels within packed ones, by way of a room for them.
fn move_block(
    bytes: &mut [u8],
    depth: u32,
    first: usize,
    count: usize,
    from_first: usize,
    bits: u32,
    room: &mut [u8],
)
    requires depth { IsTrue (is_depth depth) }
    requires count { count ≤ MOVED }
    requires numbers { first + count < 2 ^ 63 }
    requires from_numbers { from_first + count < 2 ^ 63 }
    requires within { (first + count) * depth ≤ 8 * length bytes.old }
    requires from { (from_first + count) * depth ≤ 8 * length bytes.old }
    requires room { (MOVED + 8) * depth ≤ 8 * length room.old }
    ensures written { (i : ℕ) → i < count → raw_at depth bytes.new (first + i) ≡ bit_and (raw_at depth bytes.old (from_first + i)) bits }
    ensures others { (n : ℕ) → ((i : ℕ) → i < count → n ≢ first + i) → raw_at depth bytes.new n ≡ raw_at depth bytes.old n }
{
    // They come to the same place of a byte there.
    let skip = from_first % 8;
    copy_run(room, depth, skip, count, bytes, from_first);
    copy_kept(bytes, depth, first, count, room, skip, bits);
}

// Moves pixels to a lower number, the first ones first.
fn move_down(
    bytes: &mut [u8],
    depth: u32,
    first: usize,
    count: usize,
    from_first: usize,
    bits: u32,
    room: &mut [u8],
)
    requires depth { IsTrue (is_depth depth) }
    requires order { first ≤ from_first }
    requires from_numbers { from_first + count < 2 ^ 63 }
    requires from { (from_first + count) * depth ≤ 8 * length bytes.old }
    requires room { (MOVED + 8) * depth ≤ 8 * length room.old }
    ensures written { (i : ℕ) → i < count → raw_at depth bytes.new (first + i) ≡ bit_and (raw_at depth bytes.old (from_first + i)) bits }
    ensures others { (n : ℕ) → ((i : ℕ) → i < count → n ≢ first + i) → raw_at depth bytes.new n ≡ raw_at depth bytes.old n }
{
    let mut done = 0;
    while done < count {
        let size = (count - done).min(MOVED);
        move_block(
            bytes,
            depth,
            first + done,
            size,
            from_first + done,
            bits,
            room,
        );
        done += size;
    }
}

// Moves pixels to a higher number, the last ones first.
fn move_up(
    bytes: &mut [u8],
    depth: u32,
    first: usize,
    count: usize,
    from_first: usize,
    bits: u32,
    room: &mut [u8],
)
    requires depth { IsTrue (is_depth depth) }
    requires order { from_first ≤ first }
    requires numbers { first + count < 2 ^ 63 }
    requires within { (first + count) * depth ≤ 8 * length bytes.old }
    requires room { (MOVED + 8) * depth ≤ 8 * length room.old }
    ensures written { (i : ℕ) → i < count → raw_at depth bytes.new (first + i) ≡ bit_and (raw_at depth bytes.old (from_first + i)) bits }
    ensures others { (n : ℕ) → ((i : ℕ) → i < count → n ≢ first + i) → raw_at depth bytes.new n ≡ raw_at depth bytes.old n }
{
    let mut left = count;
    while left > 0 {
        let size = left.min(MOVED);
        left -= size;
        move_block(
            bytes,
            depth,
            first + left,
            size,
            from_first + left,
            bits,
            room,
        );
    }
}

// Pixels that may be among those to which they come, by way of a room.
fn move_through(
    bytes: &mut [u8],
    depth: u32,
    first: usize,
    count: usize,
    from_first: usize,
    bits: u32,
    room: &mut [u8],
)
    requires depth { IsTrue (is_depth depth) }
    requires numbers { first + count < 2 ^ 63 }
    requires from_numbers { from_first + count < 2 ^ 63 }
    requires within { (first + count) * depth ≤ 8 * length bytes.old }
    requires from { (from_first + count) * depth ≤ 8 * length bytes.old }
    requires room { length room.old ≡ ROOM_BYTES }
    ensures written { (i : ℕ) → i < count → raw_at depth bytes.new (first + i) ≡ bit_and (raw_at depth bytes.old (from_first + i)) bits }
    ensures others { (n : ℕ) → ((i : ℕ) → i < count → n ≢ first + i) → raw_at depth bytes.new n ≡ raw_at depth bytes.old n }
{
    if first <= from_first {
        move_down(bytes, depth, first, count, from_first, bits, room);
    } else {
        move_up(bytes, depth, first, count, from_first, bits, room);
    }
}

// Pixels of whole bytes that stand behind all to which they come, at once.
fn move_before(
    bytes: &mut [u8],
    depth: u32,
    first: usize,
    count: usize,
    from_first: usize,
    bits: u32,
)
    requires depth { IsTrue (is_depth depth) }
    requires whole { 8 ≤ depth }
    requires apart { first + count ≤ from_first }
    requires from_numbers { from_first + count < 2 ^ 63 }
    requires from { (from_first + count) * depth ≤ 8 * length bytes.old }
    ensures written { (i : ℕ) → i < count → raw_at depth bytes.new (first + i) ≡ bit_and (raw_at depth bytes.old (from_first + i)) bits }
    ensures others { (n : ℕ) → ((i : ℕ) → i < count → n ≢ first + i) → raw_at depth bytes.new n ≡ raw_at depth bytes.old n }
{
    let size = depth as usize / 8;
    let (above, below) = bytes.split_at_mut(from_first * size);
    copy_kept(above, depth, first, count, below, 0, bits);
}

// And such that stand before them all.
fn move_behind(
    bytes: &mut [u8],
    depth: u32,
    first: usize,
    count: usize,
    from_first: usize,
    bits: u32,
)
    requires depth { IsTrue (is_depth depth) }
    requires whole { 8 ≤ depth }
    requires apart { from_first + count ≤ first }
    requires numbers { first + count < 2 ^ 63 }
    requires within { (first + count) * depth ≤ 8 * length bytes.old }
    ensures written { (i : ℕ) → i < count → raw_at depth bytes.new (first + i) ≡ bit_and (raw_at depth bytes.old (from_first + i)) bits }
    ensures others { (n : ℕ) → ((i : ℕ) → i < count → n ≢ first + i) → raw_at depth bytes.new n ≡ raw_at depth bytes.old n }
{
    let size = depth as usize / 8;
    let (above, below) = bytes.split_at_mut(first * size);
    copy_kept(below, depth, 0, count, above, from_first, bits);
}

/// Moves these bits of `count` pixels within packed ones from number `from_first` on to number `first` on. It wants a room of
/// `ROOM_BYTES` for them.
pub fn move_run(
    bytes: &mut [u8],
    depth: u32,
    first: usize,
    count: usize,
    from_first: usize,
    bits: u32,
    room: &mut [u8],
)
    requires depth { IsTrue (is_depth depth) }
    requires numbers { first + count < 2 ^ 63 }
    requires from_numbers { from_first + count < 2 ^ 63 }
    requires within { (first + count) * depth ≤ 8 * length bytes.old }
    requires from { (from_first + count) * depth ≤ 8 * length bytes.old }
    requires room { length room.old ≡ ROOM_BYTES }
    ensures written { (i : ℕ) → i < count → raw_at depth bytes.new (first + i) ≡ bit_and (raw_at depth bytes.old (from_first + i)) bits }
    ensures others { (n : ℕ) → ((i : ℕ) → i < count → n ≢ first + i) → raw_at depth bytes.new n ≡ raw_at depth bytes.old n }
{
    if depth < 8 {
        move_through(bytes, depth, first, count, from_first, bits, room);
    } else if first + count <= from_first {
        move_before(bytes, depth, first, count, from_first, bits);
    } else if from_first + count <= first {
        move_behind(bytes, depth, first, count, from_first, bits);
    } else {
        move_through(bytes, depth, first, count, from_first, bits, room);
    }
}
