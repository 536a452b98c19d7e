ghost use Rattle.std.specs.Prelude.{◌≡◌, ℕ, ◌*◌, ◌/◌, ◌<◌, ◌≤◌, length, slice_index, EachIndex};
ghost use Rattle.model_pixel.specs.Composition.{composed_raw};
ghost use Rattle.r9_chan.specs.Op.{number};
ghost use Rattle.r9_kern.specs.Layouts.{chan_of, mask_chan_of};
ghost use Rattle.r9_kern.specs.Over.{over_raw};

use super::block::{PIXELS, comp_block, over_argb_block, over_block};
use super::layout::{
    Layout, MaskLayout, read, read_lanes, read_mask, read_mask_lanes, without_highest, write,
    write_lanes,
};
use super::row::comp_word;
use r9_chan::Op;
use std::simd::prelude::*;

#[inline(always)]
fn comp_raw_block(
    dst: Layout,
    src: Layout,
    mask: MaskLayout,
    op: u8,
    d: u32x4,
    s: u32x4,
    m: u32x4,
) -> u32x4
    ensures { (i : ℕ) → i < 4 → slice_index result i ≡ composed_raw (chan_of dst) (chan_of src) (mask_chan_of mask) op (slice_index s i) (slice_index m i) (slice_index d i) }
{
    let words = comp_block(
        op,
        read_lanes(dst, d),
        read_lanes(src, s),
        read_mask_lanes(mask, m),
    );
    write_lanes(dst, words)
}

// Composes as many whole blocks as there are, by the operator of a number.
fn comp_raw_blocks<const OP: u8>(
    dst: Layout,
    src: Layout,
    mask: MaskLayout,
    d: &mut [u32],
    s: &[u32],
    m: &[u32],
)
    requires sources { length s.now ≡ length d.old }
    requires masks { length m.now ≡ length d.old }
    ensures blocks { (i : ℕ) → i < length d.old / 4 * 4 → slice_index d.new i ≡ composed_raw (chan_of dst) (chan_of src) (mask_chan_of mask) OP (slice_index s.now i) (slice_index m.now i) (slice_index d.old i) }
    ensures rest { (i : ℕ) → length d.old / 4 * 4 ≤ i → slice_index d.new i ≡ slice_index d.old i }
{
    let mut at = 0;
    while d.len() - at >= PIXELS {
        let block = comp_raw_block(
            dst,
            src,
            mask,
            OP,
            u32x4::from_slice(&d[at..]),
            u32x4::from_slice(&s[at..]),
            u32x4::from_slice(&m[at..]),
        );
        block.copy_to_slice(&mut d[at..]);
        at += PIXELS;
    }
}

// The operator is told before the loop, so that no block asks for it.
fn comp_raw_blocks_by(
    dst: Layout,
    src: Layout,
    mask: MaskLayout,
    op: Op,
    d: &mut [u32],
    s: &[u32],
    m: &[u32],
)
    requires sources { length s.now ≡ length d.old }
    requires masks { length m.now ≡ length d.old }
    ensures blocks { (i : ℕ) → i < length d.old / 4 * 4 → slice_index d.new i ≡ composed_raw (chan_of dst) (chan_of src) (mask_chan_of mask) (number op) (slice_index s.now i) (slice_index m.now i) (slice_index d.old i) }
    ensures rest { (i : ℕ) → length d.old / 4 * 4 ≤ i → slice_index d.new i ≡ slice_index d.old i }
{
    match op {
        Op::Clear => comp_raw_blocks::<0>(dst, src, mask, d, s, m),
        Op::DoutS => comp_raw_blocks::<1>(dst, src, mask, d, s, m),
        Op::SoutD => comp_raw_blocks::<2>(dst, src, mask, d, s, m),
        Op::DxorS => comp_raw_blocks::<3>(dst, src, mask, d, s, m),
        Op::DinS => comp_raw_blocks::<4>(dst, src, mask, d, s, m),
        Op::D => comp_raw_blocks::<5>(dst, src, mask, d, s, m),
        Op::DatopS => comp_raw_blocks::<6>(dst, src, mask, d, s, m),
        Op::DoverS => comp_raw_blocks::<7>(dst, src, mask, d, s, m),
        Op::SinD => comp_raw_blocks::<8>(dst, src, mask, d, s, m),
        Op::SatopD => comp_raw_blocks::<9>(dst, src, mask, d, s, m),
        Op::S => comp_raw_blocks::<10>(dst, src, mask, d, s, m),
        Op::SoverD => comp_raw_blocks::<11>(dst, src, mask, d, s, m),
    }
}

#[tactic(auto, unfolding(model_pixel::specs::Composition::composed_raw))]
fn comp_raw(dst: Layout, src: Layout, mask: MaskLayout, op: Op, d: u32, s: u32, m: u32) -> u32
    ensures { result ≡ composed_raw (chan_of dst) (chan_of src) (mask_chan_of mask) (number op) s m d }
{
    let word = comp_word(op, read(dst, d), read(src, s), read_mask(mask, m));
    write(dst, word)
}

/// Composes each raw pixel of `s`, seen through that of `m`, onto that of `d`, under the layouts of target, source and
/// mask. Only `d` is written.
pub fn comp_raw_row(
    dst: Layout,
    src: Layout,
    mask: MaskLayout,
    op: Op,
    d: &mut [u32],
    s: &[u32],
    m: &[u32],
)
    requires sources { length s.now ≡ length d.old }
    requires masks { length m.now ≡ length d.old }
    ensures { EachIndex d.new (λ i. slice_index d.new i ≡ composed_raw (chan_of dst) (chan_of src) (mask_chan_of mask) (number op) (slice_index s.now i) (slice_index m.now i) (slice_index d.old i)) }
{
    comp_raw_blocks_by(dst, src, mask, op, d, s, m);
    for i in d.len() / PIXELS * PIXELS..d.len() {
        d[i] = comp_raw(dst, src, mask, op, d[i], s[i], m[i]);
    }
}

#[inline(always)]
pub(crate) fn over_raw_block(dst: Layout, src: Layout, d: u32x4, s: u32x4) -> u32x4
    ensures { (i : ℕ) → i < 4 → slice_index result i ≡ over_raw (chan_of dst) (chan_of src) (slice_index s i) (slice_index d i) }
{
    match (dst, src) {
        (Layout::Argb, Layout::Argb) => over_argb_block(d, s),
        (Layout::Xrgb, Layout::Argb) => without_highest(over_argb_block(d, s)),
        _ => write_lanes(dst, over_block(read_lanes(dst, d), read_lanes(src, s))),
    }
}

// Composes as many whole blocks as there are.
#[inline(always)]
fn over_raw_blocks(dst: Layout, src: Layout, d: &mut [u32], s: &[u32])
    requires { length s.now ≡ length d.old }
    ensures blocks { (i : ℕ) → i < length d.old / 4 * 4 → slice_index d.new i ≡ over_raw (chan_of dst) (chan_of src) (slice_index s.now i) (slice_index d.old i) }
    ensures rest { (i : ℕ) → length d.old / 4 * 4 ≤ i → slice_index d.new i ≡ slice_index d.old i }
{
    let end = d.len() / PIXELS * PIXELS;
    let mut at = 0;
    while at < end {
        let block = over_raw_block(
            dst,
            src,
            u32x4::from_slice(&d[at..]),
            u32x4::from_slice(&s[at..]),
        );
        block.copy_to_slice(&mut d[at..]);
        at += PIXELS;
    }
}

// The layouts that displays use most are told before the loop, so that no block asks for them.
fn over_raw_blocks_by(dst: Layout, src: Layout, d: &mut [u32], s: &[u32])
    requires { length s.now ≡ length d.old }
    ensures blocks { (i : ℕ) → i < length d.old / 4 * 4 → slice_index d.new i ≡ over_raw (chan_of dst) (chan_of src) (slice_index s.now i) (slice_index d.old i) }
    ensures rest { (i : ℕ) → length d.old / 4 * 4 ≤ i → slice_index d.new i ≡ slice_index d.old i }
{
    match (dst, src) {
        (Layout::Xrgb, Layout::Argb) => over_raw_blocks(Layout::Xrgb, Layout::Argb, d, s),
        (Layout::Argb, Layout::Argb) => over_raw_blocks(Layout::Argb, Layout::Argb, d, s),
        (Layout::Rgba, Layout::Rgba) => over_raw_blocks(Layout::Rgba, Layout::Rgba, d, s),
        _ => over_raw_blocks(dst, src, d, s),
    }
}

pub(crate) fn over_raw_pixel(dst: Layout, src: Layout, d: u32, s: u32) -> u32
    ensures { result ≡ over_raw (chan_of dst) (chan_of src) s d }
{
    let word = comp_word(Op::SoverD, read(dst, d), read(src, s), 255);
    write(dst, word)
}

/// Composes each raw pixel of `s` onto that of `d` by SoverD through a full mask, under the layouts of target and source.
/// Only `d` is written.
pub fn over_raw_row(dst: Layout, src: Layout, d: &mut [u32], s: &[u32])
    requires { length s.now ≡ length d.old }
    ensures { EachIndex d.new (λ i. slice_index d.new i ≡ over_raw (chan_of dst) (chan_of src) (slice_index s.now i) (slice_index d.old i)) }
{
    over_raw_blocks_by(dst, src, d, s);
    for i in d.len() / PIXELS * PIXELS..d.len() {
        d[i] = over_raw_pixel(dst, src, d[i], s[i]);
    }
}
