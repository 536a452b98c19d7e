// Raw pixels as packed colours, and back, one at a time and a block at a time.
ghost use Rattle.std.specs.Prelude.{◌≡◌, ℕ, ◌<◌, ◌*◌, ◌%◌, ◌^◌, slice_index};
ghost use Rattle.model_pixel.specs.Channels.{colour_of, expand, mask, pack};
ghost use Rattle.r9_kern.specs.Layouts.{chan_of, mask_chan_of};

use super::block::components;
use std::simd::prelude::*;

/// A layout of pixels of 32 bits, 8 for each channel: `r8g8b8a8`, `a8r8g8b8` or `x8r8g8b8` (image(6)).
#[derive(Clone, Copy)]
pub enum Layout {
    /// `r8g8b8a8`
    Rgba,
    /// `a8r8g8b8`
    Argb,
    /// `x8r8g8b8`: opaque, and its ignored bits become 0
    Xrgb,
}

/// A layout of mask pixels that have grey alone, which is the mask value.
#[derive(Clone, Copy)]
pub enum MaskLayout {
    /// `k8`
    Grey8,
    /// `k1`, whose bit stands for 0 or 255
    Grey1,
}

/// SoverD through a full mask: the layouts of the target and the source.
#[derive(Clone, Copy)]
pub struct Over {
    pub dst: Layout,
    pub src: Layout,
}

/// The packed colour of a raw pixel.
pub fn read(layout: Layout, raw: u32) -> u32
    ensures { colour_of result ≡ expand (chan_of layout) raw }
{
    match layout {
        Layout::Rgba => raw,
        Layout::Argb => (raw << 8) + (raw >> 24),
        Layout::Xrgb => (raw << 8) + 255,
    }
}

/// The raw pixel of a packed colour.
pub fn write(layout: Layout, word: u32) -> u32
    ensures { result ≡ pack (chan_of layout) (colour_of word) }
{
    match layout {
        Layout::Rgba => word,
        Layout::Argb => (word >> 8) + (word << 24),
        Layout::Xrgb => word >> 8,
    }
}

// The mask value of a raw pixel.
pub(crate) fn read_mask(layout: MaskLayout, raw: u32) -> u8
    ensures { result ≡ mask (mask_chan_of layout) raw }
{
    match layout {
        MaskLayout::Grey8 => (raw % 256) as u8,
        MaskLayout::Grey1 => (raw % 2 * 255) as u8,
    }
}

#[inline(always)]
pub(crate) fn read_lanes(layout: Layout, raws: u32x4) -> u32x4
    ensures { (i : ℕ) → i < 4 → colour_of (slice_index result i) ≡ expand (chan_of layout) (slice_index raws i) }
{
    match layout {
        Layout::Rgba => raws,
        Layout::Argb => (raws << 8) + (raws >> 24),
        Layout::Xrgb => (raws << 8) + u32x4::splat(255),
    }
}

#[inline(always)]
pub(crate) fn write_lanes(layout: Layout, words: u32x4) -> u32x4
    ensures { (i : ℕ) → i < 4 → slice_index result i ≡ pack (chan_of layout) (colour_of (slice_index words i)) }
{
    match layout {
        Layout::Rgba => words,
        Layout::Argb => (words >> 8) + (words << 24),
        Layout::Xrgb => words >> 8,
    }
}

// All but the highest bytes.
#[inline(always)]
pub(crate) fn without_highest(words: u32x4) -> u32x4
    ensures { (i : ℕ) → i < 4 → slice_index result i ≡ slice_index words i % 2 ^ 24 }
{
    (words << 8) >> 8
}

#[inline(always)]
fn first_bytes(components: u8x16) -> u8x4
    ensures { (i : ℕ) → i < 4 → slice_index result i ≡ slice_index components (4 * i) }
{
    components.swizzle([0, 4, 8, 12])
}

#[inline(always)]
fn low_bytes(values: u32x4) -> u8x4
    ensures { (i : ℕ) → i < 4 → slice_index result i ≡ slice_index values i % 256 }
{
    first_bytes(components(values))
}

// The lowest bit alone, as 255 or 0.
#[inline(always)]
fn low_bits(raws: u32x4) -> u32x4
    ensures { (i : ℕ) → i < 4 → slice_index result i ≡ slice_index raws i % 2 * 255 }
{
    ((raws << 31) >> 31) * u32x4::splat(255)
}

#[inline(always)]
pub(crate) fn read_mask_lanes(layout: MaskLayout, raws: u32x4) -> u8x4
    ensures { (i : ℕ) → i < 4 → slice_index result i ≡ mask (mask_chan_of layout) (slice_index raws i) }
{
    match layout {
        MaskLayout::Grey8 => low_bytes(raws),
        MaskLayout::Grey1 => low_bytes(low_bits(raws)),
    }
}
