ghost use Rattle.std.specs.Prelude.{◌≡◌, ℕ, ◌*◌, ◌/◌, ◌<◌, ◌≤◌, length, slice_index, EachIndex};
ghost use Rattle.model_pixel.specs.Channels.{colour_of};
ghost use Rattle.model_pixel.specs.Composition.{comp};
ghost use Rattle.r9_chan.specs.Op.{number};

use super::block::{PIXELS, comp_block};
use r9_chan::{Colour, Op, comp};
use std::simd::prelude::*;

pub(crate) fn comp_word(op: Op, d: u32, s: u32, m: u8) -> u32
    ensures { colour_of result ≡ comp (number op) (colour_of s) m (colour_of d) }
{
    let Colour { r, g, b, a } = comp(op, Colour::of_word(s), m, Colour::of_word(d));
    u32::from_be_bytes([r, g, b, a])
}

// Composes as many whole blocks as there are, by the operator of a number.
fn comp_blocks<const OP: u8>(d: &mut [u32], s: &[u32], m: &[u8])
    requires sources { length s.now ≡ length d.old }
    requires masks { length m.now ≡ length d.old }
    ensures blocks { (i : ℕ) → i < length d.old / 4 * 4 → colour_of (slice_index d.new i) ≡ comp OP (colour_of (slice_index s.now i)) (slice_index m.now i) (colour_of (slice_index d.old i)) }
    ensures rest { (i : ℕ) → length d.old / 4 * 4 ≤ i → slice_index d.new i ≡ slice_index d.old i }
{
    let mut at = 0;
    while d.len() - at >= PIXELS {
        let block = comp_block(
            OP,
            u32x4::from_slice(&d[at..]),
            u32x4::from_slice(&s[at..]),
            u8x4::from_slice(&m[at..]),
        );
        block.copy_to_slice(&mut d[at..]);
        at += PIXELS;
    }
}

// The operator is told before the loop, so that no block asks for it.
fn comp_blocks_by(op: Op, d: &mut [u32], s: &[u32], m: &[u8])
    requires sources { length s.now ≡ length d.old }
    requires masks { length m.now ≡ length d.old }
    ensures blocks { (i : ℕ) → i < length d.old / 4 * 4 → colour_of (slice_index d.new i) ≡ comp (number op) (colour_of (slice_index s.now i)) (slice_index m.now i) (colour_of (slice_index d.old i)) }
    ensures rest { (i : ℕ) → length d.old / 4 * 4 ≤ i → slice_index d.new i ≡ slice_index d.old i }
{
    match op {
        Op::Clear => comp_blocks::<0>(d, s, m),
        Op::DoutS => comp_blocks::<1>(d, s, m),
        Op::SoutD => comp_blocks::<2>(d, s, m),
        Op::DxorS => comp_blocks::<3>(d, s, m),
        Op::DinS => comp_blocks::<4>(d, s, m),
        Op::D => comp_blocks::<5>(d, s, m),
        Op::DatopS => comp_blocks::<6>(d, s, m),
        Op::DoverS => comp_blocks::<7>(d, s, m),
        Op::SinD => comp_blocks::<8>(d, s, m),
        Op::SatopD => comp_blocks::<9>(d, s, m),
        Op::S => comp_blocks::<10>(d, s, m),
        Op::SoverD => comp_blocks::<11>(d, s, m),
    }
}

/// Composes each packed colour of `s`, seen through a mask value of `m` from 0 to 255, onto that of `d`. A packed colour
/// has red in the highest byte, then green, blue and alpha, premultiplied by the alpha. Only `d` is written.
pub fn comp_row(op: Op, d: &mut [u32], s: &[u32], m: &[u8])
    requires sources { length s.now ≡ length d.old }
    requires masks { length m.now ≡ length d.old }
    ensures { EachIndex d.new (λ i. colour_of (slice_index d.new i) ≡ comp (number op) (colour_of (slice_index s.now i)) (slice_index m.now i) (colour_of (slice_index d.old i))) }
{
    comp_blocks_by(op, d, s, m);
    for i in d.len() / PIXELS * PIXELS..d.len() {
        d[i] = comp_word(op, d[i], s[i], m[i]);
    }
}
