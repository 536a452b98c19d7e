// One block of pixels. Its components stand in two vectors of 16-bit lanes, since a product needs 16 bits: the even
// bytes of the pixels, which are the alpha and the green of each, and the odd ones, the blue and the red.
ghost use Rattle.std.specs.Prelude.{◌≡◌, ℕ, ◌+◌, ◌-◌, ◌*◌, ◌<◌, ◌/◌, ◌%◌, ◌^◌, min, slice_index};
ghost use Rattle.std.specs.Simd.Lanes.{Each1, zip2};
ghost use Rattle.model_pixel.specs.Channels.{colour_of};
ghost use Rattle.model_pixel.specs.Composition.{mul, share, composed, comp};
ghost use Rattle.r9_kern.specs.Over.{over_raw};

use std::simd::prelude::*;

/// The pixels of a block.
pub(crate) const PIXELS: usize = 4;

// Fractions of 255 are multiplied and rounded to the nearest, with no division: 257 / 65536 is a little less than
// 1 / 255, and the half that is added makes up for it. One instruction gives the high half of the product by 257.
#[inline(always)]
fn mul_lanes(a: u16x8, b: u16x8) -> u16x8
    requires left { Each1 (λ x. x < 256) a }
    requires right { Each1 (λ x. x < 256) b }
    ensures value { result ≡ zip2 mul a b }
    ensures range { Each1 (λ x. x < 256) result }
{
    let rounded = (a * b + u16x8::splat(128)).cast::<u32>();
    ((rounded * u32x8::splat(257)) >> 16).cast::<u16>()
}

// What is kept of each component, where alpha is that of the other colour.
#[inline(always)]
fn share_lanes(inside: bool, outside: bool, value: u16x8, alpha: u16x8) -> u16x8
    requires values { Each1 (λ x. x < 256) value }
    requires alphas { Each1 (λ x. x < 256) alpha }
    ensures value { result ≡ zip2 (share inside outside) value alpha }
    ensures range { Each1 (λ x. x < 256) result }
{
    match (inside, outside) {
        (true, true) => value,
        (true, false) => mul_lanes(value, alpha),
        (false, true) => mul_lanes(value, u16x8::splat(255) - alpha),
        (false, false) => u16x8::splat(0),
    }
}

// The sum of two components, at most 255.
#[inline(always)]
fn add_lanes(a: u16x8, b: u16x8) -> u16x8
    requires left { Each1 (λ x. x < 256) a }
    requires right { Each1 (λ x. x < 256) b }
    ensures value { result ≡ zip2 (λ x y. min 255 (x + y)) a b }
    ensures range { Each1 (λ x. x < 256) result }
{
    (a + b).simd_min(u16x8::splat(255))
}

// The composition of masked components of a source with those of a destination, beside both alphas.
#[inline(always)]
fn comp_lanes(op: u8, s: u16x8, sa: u16x8, d: u16x8, da: u16x8) -> u16x8
    requires sources { Each1 (λ x. x < 256) s }
    requires source_alphas { Each1 (λ x. x < 256) sa }
    requires destinations { Each1 (λ x. x < 256) d }
    requires destination_alphas { Each1 (λ x. x < 256) da }
    ensures value { (j : ℕ) → j < 8 → slice_index result j ≡ composed op (slice_index s j) (slice_index sa j) (slice_index d j) (slice_index da j) }
    ensures range { Each1 (λ x. x < 256) result }
{
    let source = share_lanes(op / 8 % 2 == 1, op / 2 % 2 == 1, s, da);
    let destination = share_lanes(op / 4 % 2 == 1, op % 2 == 1, d, sa);
    add_lanes(source, destination)
}

#[inline(always)]
pub(crate) fn components(pixels: u32x4) -> u8x16
    ensures { (i k : ℕ) → i < 4 → k < 4 → slice_index result (4 * i + k) ≡ slice_index pixels i / 256 ^ k % 256 }
{
    pixels.to_le_bytes()
}

#[inline(always)]
fn even(components: u8x16) -> u16x8
    ensures value { (j : ℕ) → j < 8 → slice_index result j ≡ slice_index components (2 * j) }
    ensures range { Each1 (λ x. x < 256) result }
{
    components
        .swizzle([0, 2, 4, 6, 8, 10, 12, 14])
        .cast::<u16>()
}

#[inline(always)]
fn odd(components: u8x16) -> u16x8
    ensures value { (j : ℕ) → j < 8 → slice_index result j ≡ slice_index components (2 * j + 1) }
    ensures range { Each1 (λ x. x < 256) result }
{
    u16x8::from_le_bytes(components) >> 8
}

#[inline(always)]
fn joined(even: u16x8, odd: u16x8) -> u8x16
    requires evens { Each1 (λ x. x < 256) even }
    requires odds { Each1 (λ x. x < 256) odd }
    ensures even { (j : ℕ) → j < 8 → slice_index result (2 * j) ≡ slice_index even j }
    ensures odd { (j : ℕ) → j < 8 → slice_index result (2 * j + 1) ≡ slice_index odd j }
{
    (even + (odd << 8)).to_le_bytes()
}

#[inline(always)]
fn pixels(components: u8x16) -> u32x4
    ensures value { (i : ℕ) → i < 4 → colour_of (slice_index result i) ≡ record { r = slice_index components (4 * i + 3); g = slice_index components (4 * i + 2); b = slice_index components (4 * i + 1); a = slice_index components (4 * i) } }
    ensures range { (i : ℕ) → slice_index result i < 2 ^ 32 }
{
    u32x4::from_le_bytes(components)
}

// The alpha of each pixel at its even components, and so at its odd ones.
#[inline(always)]
fn alphas(even: u16x8) -> u16x8
    requires { Each1 (λ x. x < 256) even }
    ensures value { (i k : ℕ) → i < 4 → k < 2 → slice_index result (2 * i + k) ≡ slice_index even (2 * i) }
    ensures range { Each1 (λ x. x < 256) result }
{
    even.swizzle([0, 0, 2, 2, 4, 4, 6, 6])
}

// The highest component of each pixel, which the odd ones end with, at both of them.
#[inline(always)]
fn highest(odd: u16x8) -> u16x8
    requires { Each1 (λ x. x < 256) odd }
    ensures value { (i k : ℕ) → i < 4 → k < 2 → slice_index result (2 * i + k) ≡ slice_index odd (2 * i + 1) }
    ensures range { Each1 (λ x. x < 256) result }
{
    odd.swizzle([1, 1, 3, 3, 5, 5, 7, 7])
}

// The mask value of each pixel at its even components, and so at its odd ones.
#[inline(always)]
fn spread(masks: u8x4) -> u16x8
    ensures value { (i k : ℕ) → i < 4 → k < 2 → slice_index result (2 * i + k) ≡ slice_index masks i }
    ensures range { Each1 (λ x. x < 256) result }
{
    masks.cast::<u16>().swizzle([0, 0, 1, 1, 2, 2, 3, 3])
}

/// The composition of a block of packed colours, seen through mask values, onto another.
#[inline(always)]
pub(crate) fn comp_block(op: u8, d: u32x4, s: u32x4, m: u8x4) -> u32x4
    ensures { (i : ℕ) → i < 4 → colour_of (slice_index result i) ≡ comp op (colour_of (slice_index s i)) (slice_index m i) (colour_of (slice_index d i)) }
{
    let (d, s) = (components(d), components(s));
    let (d_even, d_odd) = (even(d), odd(d));
    let masks = spread(m);
    let (s_even, s_odd) = (mul_lanes(even(s), masks), mul_lanes(odd(s), masks));
    let (da, sa) = (alphas(d_even), alphas(s_even));
    let even = comp_lanes(op, s_even, sa, d_even, da);
    let odd = comp_lanes(op, s_odd, sa, d_odd, da);
    pixels(joined(even, odd))
}

// What SoverD gives of unmasked components of a source and those of a destination, beside the source's alphas.
#[inline(always)]
fn over_components(s: u8x16, alphas: u16x8, d: u8x16) -> u8x16
    requires { Each1 (λ x. x < 256) alphas }
    ensures { (j k : ℕ) → j < 8 → k < 2 → slice_index result (2 * j + k) ≡ min 255 (slice_index s (2 * j + k) + mul (slice_index d (2 * j + k)) (255 - slice_index alphas j)) }
{
    let even = share_lanes(false, true, even(d), alphas);
    let odd = share_lanes(false, true, odd(d), alphas);
    s.saturating_add(joined(even, odd))
}

/// The composition of a block of packed colours onto another by SoverD, through a full mask.
#[inline(always)]
pub(crate) fn over_block(d: u32x4, s: u32x4) -> u32x4
    ensures { (i : ℕ) → i < 4 → colour_of (slice_index result i) ≡ comp 11 (colour_of (slice_index s i)) 255 (colour_of (slice_index d i)) }
{
    let s = components(s);
    let alphas = alphas(even(s));
    pixels(over_components(s, alphas, components(d)))
}

/// The same of raw pixels of `a8r8g8b8`, with no change of their layout. Without the highest byte it is what `x8r8g8b8` gets.
#[inline(always)]
pub(crate) fn over_argb_block(d: u32x4, s: u32x4) -> u32x4
    ensures argb { (i : ℕ) → i < 4 → slice_index result i ≡ over_raw 0x48081828 0x48081828 (slice_index s i) (slice_index d i) }
    ensures xrgb { (i : ℕ) → i < 4 → slice_index result i % 2 ^ 24 ≡ over_raw 0x68081828 0x48081828 (slice_index s i) (slice_index d i) }
{
    let s = components(s);
    let alphas = highest(odd(s));
    pixels(over_components(s, alphas, components(d)))
}
