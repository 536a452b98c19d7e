// Pixels side by side in packed bytes, of 1, 2, 4, 8, 16, 24 or 32 bits.

ghost use Rattle.std.specs.Prelude.{◌≡◌, ◌≢◌, ℕ, ◌+◌, ◌*◌, ◌/◌, ◌%◌, ◌<◌, ◌≤◌, ◌^◌, IsTrue, IfOk, length, slice_index, vec_len};
ghost use Rattle.model_pixel.specs.Channels.{is_depth, repeated};
ghost use Rattle.model_pixel.specs.Rows.{raw_at};

use super::packed::{read, write, write_among};
use r9_memory::Memory;
use std::alloc::Global;

// No memory holds so many pixels.
pub const MOST_PIXELS: usize = 1 << 58;

// How many small pixels of one raw value are written at a time.
const BLOCK: usize = 256;

// The bytes of a block of such pixels.
const BLOCK_BYTES: usize = 128;

// How many pixels of whole bytes are written one by one, before they are copied to those behind them.
const WRITTEN: usize = 64;

// The most bytes that are copied at a time: one copy of many is faster than some of few, while they stay in the nearest cache.
const COPIED: usize = 12288;

/// Raw pixels of so many bits from number `first` on.
#[inline(always)]
pub fn read_run_of<const DEPTH: u32>(bytes: &[u8], first: usize, raws: &mut [u32])
    requires depth { IsTrue (is_depth DEPTH) }
    requires numbers { first + length raws.old < 2 ^ 63 }
    requires within { (first + length raws.old) * DEPTH ≤ 8 * length bytes.now }
    ensures value { (i : ℕ) → i < length raws.old → slice_index raws.new i ≡ raw_at DEPTH bytes.now (first + i) }
    ensures range { (i : ℕ) → i < length raws.old → slice_index raws.new i < 2 ^ DEPTH }
{
    for (i, raw) in raws.iter_mut().enumerate() {
        *raw = read(bytes, DEPTH, first + i);
    }
}

/// Raw pixels from number `first` on.
pub fn read_run(bytes: &[u8], depth: u32, first: usize, raws: &mut [u32])
    requires depth { IsTrue (is_depth depth) }
    requires numbers { first + length raws.old < 2 ^ 63 }
    requires within { (first + length raws.old) * depth ≤ 8 * length bytes.now }
    ensures value { (i : ℕ) → i < length raws.old → slice_index raws.new i ≡ raw_at depth bytes.now (first + i) }
    ensures range { (i : ℕ) → i < length raws.old → slice_index raws.new i < 2 ^ depth }
{
    match depth {
        1 => read_run_of::<1>(bytes, first, raws),
        2 => read_run_of::<2>(bytes, first, raws),
        4 => read_run_of::<4>(bytes, first, raws),
        8 => read_run_of::<8>(bytes, first, raws),
        16 => read_run_of::<16>(bytes, first, raws),
        24 => read_run_of::<24>(bytes, first, raws),
        _ => read_run_of::<32>(bytes, first, raws),
    }
}

/// Writes raw pixels of so many bits from number `first` on, and no other.
#[inline(always)]
pub fn write_run_of<const DEPTH: u32>(bytes: &mut [u8], first: usize, raws: &[u32])
    requires depth { IsTrue (is_depth DEPTH) }
    requires numbers { first + length raws.now < 2 ^ 63 }
    requires within { (first + length raws.now) * DEPTH ≤ 8 * length bytes.old }
    requires raws { (i : ℕ) → i < length raws.now → slice_index raws.now i < 2 ^ DEPTH }
    ensures written { (i : ℕ) → i < length raws.now → raw_at DEPTH bytes.new (first + i) ≡ slice_index raws.now i }
    ensures others { (n : ℕ) → ((i : ℕ) → i < length raws.now → n ≢ first + i) → raw_at DEPTH bytes.new n ≡ raw_at DEPTH bytes.old n }
{
    for (i, raw) in raws.iter().enumerate() {
        write_among(bytes, DEPTH, first + i, *raw);
    }
}

/// Writes raw pixels from number `first` on, and no other.
pub fn write_run(bytes: &mut [u8], depth: u32, first: usize, raws: &[u32])
    requires depth { IsTrue (is_depth depth) }
    requires numbers { first + length raws.now < 2 ^ 63 }
    requires within { (first + length raws.now) * depth ≤ 8 * length bytes.old }
    requires raws { (i : ℕ) → i < length raws.now → slice_index raws.now i < 2 ^ depth }
    ensures written { (i : ℕ) → i < length raws.now → raw_at depth bytes.new (first + i) ≡ slice_index raws.now i }
    ensures others { (n : ℕ) → ((i : ℕ) → i < length raws.now → n ≢ first + i) → raw_at depth bytes.new n ≡ raw_at depth bytes.old n }
{
    match depth {
        1 => write_run_of::<1>(bytes, first, raws),
        2 => write_run_of::<2>(bytes, first, raws),
        4 => write_run_of::<4>(bytes, first, raws),
        8 => write_run_of::<8>(bytes, first, raws),
        16 => write_run_of::<16>(bytes, first, raws),
        24 => write_run_of::<24>(bytes, first, raws),
        _ => write_run_of::<32>(bytes, first, raws),
    }
}

fn copy_pixels(
    bytes: &mut [u8],
    depth: u32,
    first: usize,
    count: usize,
    from: &[u8],
    from_first: usize,
)
    requires depth { IsTrue (is_depth depth) }
    requires numbers { first + count < 2 ^ 63 }
    requires from_numbers { from_first + count < 2 ^ 63 }
    requires within { (first + count) * depth ≤ 8 * length bytes.old }
    requires from { (from_first + count) * depth ≤ 8 * length from.now }
    ensures written { (i : ℕ) → i < count → raw_at depth bytes.new (first + i) ≡ raw_at depth from.now (from_first + i) }
    ensures others { (n : ℕ) → ((i : ℕ) → i < count → n ≢ first + i) → raw_at depth bytes.new n ≡ raw_at depth bytes.old n }
{
    for i in 0..count {
        write(bytes, depth, first + i, read(from, depth, from_first + i));
    }
}

// Whole bytes of small pixels, where both runs begin at one.
fn copy_bytes(
    bytes: &mut [u8],
    depth: u32,
    first: usize,
    count: usize,
    from: &[u8],
    from_first: usize,
)
    requires depth { IsTrue (is_depth depth) }
    requires small { depth < 8 }
    requires numbers { first + count < 2 ^ 63 }
    requires from_numbers { from_first + count < 2 ^ 63 }
    requires within { (first + count) * depth ≤ 8 * length bytes.old }
    requires from { (from_first + count) * depth ≤ 8 * length from.now }
    requires begins { first % (8 / depth) ≡ 0 }
    requires from_begins { from_first % (8 / depth) ≡ 0 }
    requires whole { count % (8 / depth) ≡ 0 }
    ensures written { (i : ℕ) → i < count → raw_at depth bytes.new (first + i) ≡ raw_at depth from.now (from_first + i) }
    ensures others { (n : ℕ) → ((i : ℕ) → i < count → n ≢ first + i) → raw_at depth bytes.new n ≡ raw_at depth bytes.old n }
{
    let per_byte = 8 / depth as usize;
    let start = first / per_byte;
    let from_start = from_first / per_byte;
    let len = count / per_byte;
    bytes[start..start + len].copy_from_slice(&from[from_start..from_start + len]);
}

// Where both runs begin at one place of a byte, its whole bytes are copied as they are.
fn copy_small(
    bytes: &mut [u8],
    depth: u32,
    first: usize,
    count: usize,
    from: &[u8],
    from_first: usize,
)
    requires depth { IsTrue (is_depth depth) }
    requires small { depth < 8 }
    requires numbers { first + count < 2 ^ 63 }
    requires from_numbers { from_first + count < 2 ^ 63 }
    requires within { (first + count) * depth ≤ 8 * length bytes.old }
    requires from { (from_first + count) * depth ≤ 8 * length from.now }
    ensures written { (i : ℕ) → i < count → raw_at depth bytes.new (first + i) ≡ raw_at depth from.now (from_first + i) }
    ensures others { (n : ℕ) → ((i : ℕ) → i < count → n ≢ first + i) → raw_at depth bytes.new n ≡ raw_at depth bytes.old n }
{
    let per_byte = 8 / depth as usize;
    let head = (per_byte - first % per_byte) % per_byte;
    if first % per_byte != from_first % per_byte || count < head {
        copy_pixels(bytes, depth, first, count, from, from_first);
        return;
    }
    let rest = (count - head) % per_byte;
    let whole = count - head - rest;
    copy_pixels(bytes, depth, first, head, from, from_first);
    copy_bytes(bytes, depth, first + head, whole, from, from_first + head);
    let done = head + whole;
    copy_pixels(bytes, depth, first + done, rest, from, from_first + done);
}

fn copy_whole(
    bytes: &mut [u8],
    depth: u32,
    first: usize,
    count: usize,
    from: &[u8],
    from_first: usize,
)
    requires depth { IsTrue (is_depth depth) }
    requires whole { 8 ≤ depth }
    requires numbers { first + count < 2 ^ 63 }
    requires from_numbers { from_first + count < 2 ^ 63 }
    requires within { (first + count) * depth ≤ 8 * length bytes.old }
    requires from { (from_first + count) * depth ≤ 8 * length from.now }
    ensures written { (i : ℕ) → i < count → raw_at depth bytes.new (first + i) ≡ raw_at depth from.now (from_first + i) }
    ensures others { (n : ℕ) → ((i : ℕ) → i < count → n ≢ first + i) → raw_at depth bytes.new n ≡ raw_at depth bytes.old n }
{
    let size = depth as usize / 8;
    let start = first * size;
    let from_start = from_first * size;
    let len = count * size;
    bytes[start..start + len].copy_from_slice(&from[from_start..from_start + len]);
}

/// Copies `count` pixels of whole bytes from number `from_first` on to number `first` on, which stands behind them all.
#[inline(always)]
pub fn repeat_run(bytes: &mut [u8], depth: u32, first: usize, count: usize, from_first: usize)
    requires depth { IsTrue (is_depth depth) }
    requires whole { 8 ≤ depth }
    requires within { (first + count) * depth ≤ 8 * length bytes.old }
    requires before { from_first + count ≤ first }
    ensures written { (i : ℕ) → i < count → raw_at depth bytes.new (first + i) ≡ raw_at depth bytes.old (from_first + i) }
    ensures others { (n : ℕ) → ((i : ℕ) → i < count → n ≢ first + i) → raw_at depth bytes.new n ≡ raw_at depth bytes.old n }
{
    let size = depth as usize / 8;
    let from = from_first * size;
    let len = count * size;
    let (above, below) = bytes.split_at_mut(first * size);
    below[..len].copy_from_slice(&above[from..from + len]);
}

/// Copies `count` pixels from other packed ones of the same depth, there from number `from_first` on, here from
/// number `first` on.
pub fn copy_run(
    bytes: &mut [u8],
    depth: u32,
    first: usize,
    count: usize,
    from: &[u8],
    from_first: usize,
)
    requires depth { IsTrue (is_depth depth) }
    requires numbers { first + count < 2 ^ 63 }
    requires from_numbers { from_first + count < 2 ^ 63 }
    requires within { (first + count) * depth ≤ 8 * length bytes.old }
    requires from { (from_first + count) * depth ≤ 8 * length from.now }
    ensures written { (i : ℕ) → i < count → raw_at depth bytes.new (first + i) ≡ raw_at depth from.now (from_first + i) }
    ensures others { (n : ℕ) → ((i : ℕ) → i < count → n ≢ first + i) → raw_at depth bytes.new n ≡ raw_at depth bytes.old n }
{
    if depth < 8 {
        copy_small(bytes, depth, first, count, from, from_first);
    } else {
        copy_whole(bytes, depth, first, count, from, from_first);
    }
}

fn fill_whole<const DEPTH: u32>(bytes: &mut [u8], first: usize, count: usize, raw: u32)
    requires depth { IsTrue (is_depth DEPTH) }
    requires numbers { first + count < 2 ^ 63 }
    requires within { (first + count) * DEPTH ≤ 8 * length bytes.old }
    requires raw { raw < 2 ^ DEPTH }
    ensures written { (i : ℕ) → i < count → raw_at DEPTH bytes.new (first + i) ≡ raw }
    ensures others { (n : ℕ) → ((i : ℕ) → i < count → n ≢ first + i) → raw_at DEPTH bytes.new n ≡ raw_at DEPTH bytes.old n }
{
    for i in 0..count {
        write(bytes, DEPTH, first + i, raw);
    }
}

// A byte of small pixels, all of one raw value.
fn byte_of(depth: u32, raw: u32) -> u8
    requires depth { IsTrue (is_depth depth) }
    requires small { depth < 8 }
    requires raw { raw < 2 ^ depth }
    ensures { result ≡ repeated (8 / depth) depth raw }
{
    let repeated = match depth {
        1 => raw * 0b1111_1111,
        2 => raw * 0b0101_0101,
        _ => raw * 0b0001_0001,
    };
    repeated as u8
}

// Small pixels become as those of a block of them, which are all equal.
fn fill_small(bytes: &mut [u8], depth: u32, first: usize, count: usize, raw: u32)
    requires depth { IsTrue (is_depth depth) }
    requires small { depth < 8 }
    requires numbers { first + count < 2 ^ 63 }
    requires within { (first + count) * depth ≤ 8 * length bytes.old }
    requires raw { raw < 2 ^ depth }
    ensures written { (i : ℕ) → i < count → raw_at depth bytes.new (first + i) ≡ raw }
    ensures others { (n : ℕ) → ((i : ℕ) → i < count → n ≢ first + i) → raw_at depth bytes.new n ≡ raw_at depth bytes.old n }
{
    let block = [byte_of(depth, raw); BLOCK_BYTES];
    // Both then begin at one place of a byte.
    let skip = first % 8;
    let mut done = 0;
    while done < count {
        let size = (count - done).min(BLOCK - 8);
        copy_run(bytes, depth, first + done, size, &block, skip);
        done += size;
    }
}

// The first pixels are written, and copied to those behind them, ever more at a time: no word holds pixels of 24 bits alone, and
// a copy of many bytes stores them faster than words do.
fn fill_copied<const DEPTH: u32>(bytes: &mut [u8], first: usize, count: usize, raw: u32)
    requires depth { IsTrue (is_depth DEPTH) }
    requires whole { 8 ≤ DEPTH }
    requires numbers { first + count < 2 ^ 63 }
    requires within { (first + count) * DEPTH ≤ 8 * length bytes.old }
    requires raw { raw < 2 ^ DEPTH }
    ensures written { (i : ℕ) → i < count → raw_at DEPTH bytes.new (first + i) ≡ raw }
    ensures others { (n : ℕ) → ((i : ℕ) → i < count → n ≢ first + i) → raw_at DEPTH bytes.new n ≡ raw_at DEPTH bytes.old n }
{
    let most = COPIED / (DEPTH as usize / 8);
    let mut done = count.min(WRITTEN);
    fill_whole::<DEPTH>(bytes, first, done, raw);
    while done < count {
        let size = done.min(most).min(count - done);
        repeat_run(bytes, DEPTH, first + done, size, first);
        done += size;
    }
}

/// Writes `count` pixels of one raw value from number `first` on, and no other.
#[inline(always)]
pub fn fill_run(bytes: &mut [u8], depth: u32, first: usize, count: usize, raw: u32)
    requires depth { IsTrue (is_depth depth) }
    requires numbers { first + count < 2 ^ 63 }
    requires within { (first + count) * depth ≤ 8 * length bytes.old }
    requires raw { raw < 2 ^ depth }
    ensures written { (i : ℕ) → i < count → raw_at depth bytes.new (first + i) ≡ raw }
    ensures others { (n : ℕ) → ((i : ℕ) → i < count → n ≢ first + i) → raw_at depth bytes.new n ≡ raw_at depth bytes.old n }
{
    match depth {
        8 => fill_whole::<8>(bytes, first, count, raw),
        16 => fill_copied::<16>(bytes, first, count, raw),
        24 => fill_copied::<24>(bytes, first, count, raw),
        32 => fill_copied::<32>(bytes, first, count, raw),
        _ => fill_small(bytes, depth, first, count, raw),
    }
}

/// So many packed pixels, all of one raw value.
pub fn filled(alloc: Global, depth: u32, count: usize, raw: u32) -> Result<Vec<u8>, Memory>
    requires depth { IsTrue (is_depth depth) }
    requires count { count < MOST_PIXELS }
    requires raw { raw < 2 ^ depth }
    ensures size { IfOk result (λ bytes. count * depth ≤ 8 * vec_len bytes) }
    ensures pixels { IfOk result (λ bytes. (n : ℕ) → n < count → raw_at depth bytes.items n ≡ raw) }
{
    if depth < 8 {
        let size = (count * depth as usize).div_ceil(8);
        return Ok(vec![in alloc; byte_of(depth, raw); size]?);
    }
    let mut bytes = vec![in alloc; 0; count * (depth as usize / 8)]?;
    fill_run(&mut bytes, depth, 0, count, raw);
    Ok(bytes)
}
