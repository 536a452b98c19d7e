// Raw pixels that are packed in 32 bits, the lowest byte first, composed where they stand.
ghost use Rattle.std.specs.Prelude.{◌≡◌, ◌≢◌, ℕ, ◌+◌, ◌*◌, ◌/◌, ◌<◌, ◌≤◌, length, slice_index};
ghost use Rattle.model_pixel.specs.Rows.{raw_at};
ghost use Rattle.r9_kern.specs.Layouts.{chan_of};
ghost use Rattle.r9_kern.specs.Over.{over_of, over_raw};

use super::block::{PIXELS, components};
use super::layout::{Layout, Over};
use super::raw::{over_raw_block, over_raw_pixel};
use std::simd::prelude::*;

// The bytes of a pixel, and of a block of them.
const SIZE: usize = 4;

const BLOCK: usize = PIXELS * SIZE;

#[inline(always)]
fn words(bytes: u8x16) -> u32x4
    ensures { (i : ℕ) → i < 4 → slice_index result i ≡ raw_at 32 bytes i }
{
    u32x4::from_le_bytes(bytes)
}

// Composes as many whole blocks as there are.
#[inline(always)]
fn over_blocks(dst: Layout, src: Layout, d: &mut [u8], s: &[u8])
    requires { length s.now ≡ length d.old }
    ensures blocks { (n : ℕ) → n < length d.old / 16 * 4 → raw_at 32 d.new n ≡ over_raw (chan_of dst) (chan_of src) (raw_at 32 s.now n) (raw_at 32 d.old n) }
    ensures rest { (k : ℕ) → length d.old / 16 * 16 ≤ k → slice_index d.new k ≡ slice_index d.old k }
{
    let end = d.len() / BLOCK * BLOCK;
    let mut at = 0;
    while at < end {
        let target = words(u8x16::from_slice(&d[at..]));
        let source = words(u8x16::from_slice(&s[at..]));
        let block = over_raw_block(dst, src, target, source);
        components(block).copy_to_slice(&mut d[at..]);
        at += BLOCK;
    }
}

// The layouts that displays use most are told before the loop, so that no block asks for them.
fn over_blocks_by(dst: Layout, src: Layout, d: &mut [u8], s: &[u8])
    requires { length s.now ≡ length d.old }
    ensures blocks { (n : ℕ) → n < length d.old / 16 * 4 → raw_at 32 d.new n ≡ over_raw (chan_of dst) (chan_of src) (raw_at 32 s.now n) (raw_at 32 d.old n) }
    ensures rest { (k : ℕ) → length d.old / 16 * 16 ≤ k → slice_index d.new k ≡ slice_index d.old k }
{
    match (dst, src) {
        (Layout::Xrgb, Layout::Argb) => over_blocks(Layout::Xrgb, Layout::Argb, d, s),
        (Layout::Argb, Layout::Argb) => over_blocks(Layout::Argb, Layout::Argb, d, s),
        (Layout::Rgba, Layout::Rgba) => over_blocks(Layout::Rgba, Layout::Rgba, d, s),
        _ => over_blocks(dst, src, d, s),
    }
}

fn word_at(bytes: &[u8], n: usize) -> u32
    requires { 4 * n + 4 ≤ length bytes.now }
    ensures { result ≡ raw_at 32 bytes.now n }
{
    let at = SIZE * n;
    u32::from_le_bytes([bytes[at], bytes[at + 1], bytes[at + 2], bytes[at + 3]])
}

// Composes pixel number n alone.
fn over_pixel(dst: Layout, src: Layout, d: &mut [u8], s: &[u8], n: usize)
    requires room { 4 * n + 4 ≤ length d.old }
    requires sources { length s.now ≡ length d.old }
    ensures pixel { raw_at 32 d.new n ≡ over_raw (chan_of dst) (chan_of src) (raw_at 32 s.now n) (raw_at 32 d.old n) }
    ensures others { (m : ℕ) → m ≢ n → raw_at 32 d.new m ≡ raw_at 32 d.old m }
    ensures rest { (k : ℕ) → 4 * n + 4 ≤ k → slice_index d.new k ≡ slice_index d.old k }
{
    let target = word_at(d, n);
    let source = word_at(s, n);
    let raw = over_raw_pixel(dst, src, target, source);
    u8x4::from_array(raw.to_le_bytes()).copy_to_slice(&mut d[SIZE * n..]);
}

/// Composes each pixel of `s` onto that of `d` by SoverD through a full mask, where pixels are packed in 32 bits, the lowest byte
/// first (image(6)). Only `d` is written. Bytes of no whole pixel stay as they are.
pub fn over_bytes(over: Over, d: &mut [u8], s: &[u8])
    requires { length s.now ≡ length d.old }
    ensures pixels { (n : ℕ) → 4 * n + 4 ≤ length d.old → raw_at 32 d.new n ≡ over_of over (raw_at 32 s.now n) (raw_at 32 d.old n) }
    ensures rest { (k : ℕ) → length d.old / 4 * 4 ≤ k → slice_index d.new k ≡ slice_index d.old k }
{
    let Over { dst, src } = over;
    over_blocks_by(dst, src, d, s);
    for n in d.len() / BLOCK * PIXELS..d.len() / SIZE {
        over_pixel(dst, src, d, s, n);
    }
}
