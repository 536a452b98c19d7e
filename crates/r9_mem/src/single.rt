// Rows seen through one mask pixel.
ghost use Rattle.std.specs.Prelude.{◌≡◌, ◌≤◌, ℕ, true, length, slice_index, EachIndex, IfSome};
ghost use Rattle.std.specs.Int.Bits.{bit_and};
ghost use Rattle.std.proofs.Props.{props};
ghost use Rattle.model_pixel.specs.Composition.{composed_raw};
ghost use Rattle.r9_chan.specs.Op.{number};
ghost use Rattle.r9_kern.specs.Over.{over_of};
ghost use Rattle.r9_mem.specs.Kept.{AreKept};

use super::kind::GREY_BYTE;
use super::layout::layout_of;
use super::moving::{change, gives_source, kept_bits};
use super::rows::compose_row;
use r9_chan::{Chan, Op};
use r9_kern::{Over, over_raw_row};

// The masks that stand side by side at a time.
const BLOCK: usize = 256;

/// What rows of one drawing through one mask pixel are told once.
#[derive(Clone, Copy)]
pub struct Through {
    dst: Chan,
    src: Chan,
    // The channels of a byte of grey, whose raw pixels are mask values.
    grey: Chan,
    op: Op,
    value: u8,
    // Whether the source alone decides.
    moved: bool,
    // The bits of a source pixel that stay, where the target has its channels.
    kept: Option<u32>,
    ghost is_grey: { grey ≡ 0x38 },
    ghost are_kept: { AreKept kept dst src } by { Prim.hlevel props },
}

#[tactic(auto, unfolding(model_pixel::specs::Channels::channels))]
fn grey_byte() -> Chan
    ensures { result ≡ 0x38 }
{
    match Chan::from_word(GREY_BYTE) {
        Ok(chan) => chan,
        Err(_) => unreachable!(),
    }
}

// Composes at most a block of pixels through one mask value, by any operator.
fn compose_masked(dst: &Chan, src: &Chan, grey: &Chan, value: u8, op: Op, d: &mut [u32], s: &[u32])
    requires few { length d.old ≤ 256 }
    requires sources { length s.now ≡ length d.old }
    ensures { EachIndex d.new (λ i. slice_index d.new i ≡ composed_raw dst.now src.now grey.now (number op) (slice_index s.now i) value (slice_index d.old i)) }
{
    let len = d.len();
    let masks = [u32::from(value); BLOCK];
    compose_row(dst, src, grey, op, d, s, &masks[..len]);
}

// The same with no look at the mask where it is full, under the operator and the channels that r9_kern composes so.
fn compose_block(dst: &Chan, src: &Chan, grey: &Chan, value: u8, op: Op, d: &mut [u32], s: &[u32])
    requires grey { grey.now ≡ 0x38 }
    requires few { length d.old ≤ 256 }
    requires sources { length s.now ≡ length d.old }
    ensures { EachIndex d.new (λ i. slice_index d.new i ≡ composed_raw dst.now src.now grey.now (number op) (slice_index s.now i) value (slice_index d.old i)) }
{
    match (op, layout_of(dst), layout_of(src)) {
        (Op::SoverD, Some(below), Some(above)) if value == 255 => {
            over_raw_row(below, above, d, s);
        }
        _ => compose_masked(dst, src, grey, value, op, d, s),
    }
}

// The same of any number of pixels.
fn compose_blocks(dst: &Chan, src: &Chan, grey: &Chan, value: u8, op: Op, d: &mut [u32], s: &[u32])
    requires grey { grey.now ≡ 0x38 }
    requires sources { length s.now ≡ length d.old }
    ensures { EachIndex d.new (λ i. slice_index d.new i ≡ composed_raw dst.now src.now grey.now (number op) (slice_index s.now i) value (slice_index d.old i)) }
{
    let mut at = 0;
    while at < d.len() {
        let end = at + (d.len() - at).min(BLOCK);
        compose_block(dst, src, grey, value, op, &mut d[at..end], &s[at..end]);
        at = end;
    }
}

// The same from one source pixel.
fn fill_blocks(dst: &Chan, src: &Chan, grey: &Chan, value: u8, op: Op, d: &mut [u32], s: u32)
    requires { grey.now ≡ 0x38 }
    ensures { EachIndex d.new (λ i. slice_index d.new i ≡ composed_raw dst.now src.now grey.now (number op) s value (slice_index d.old i)) }
{
    let sources = [s; BLOCK];
    let mut at = 0;
    while at < d.len() {
        let len = (d.len() - at).min(BLOCK);
        let part = &mut d[at..at + len];
        compose_block(dst, src, grey, value, op, part, &sources[..len]);
        at += len;
    }
}

impl Through {
    ghost use Rattle.r9_mem.specs.Through.{IsThrough};

    /// Rows of a source of these channels, drawn through a mask pixel onto a target.
    pub fn of(dst: Chan, src: Chan, mask: Chan, op: Op, m: u32) -> Through
        ensures { IsThrough result dst src mask (number op) m }
    {
        let _ = src.word();
        let value = mask.mask(m);
        Through {
            dst,
            src,
            grey: grey_byte(),
            op,
            value,
            moved: gives_source(op, &src, value),
            kept: kept_bits(&dst, &src),
        }
    }

    /// Whether the source alone decides what each point gets, so that `change` makes it of the source.
    pub fn is_moved(&self) -> bool
        ensures { result ≡ self.now.moved }
    {
        self.moved
    }

    /// The bits of a source pixel that a target gets of it, whatever that has, where the source alone decides and has the
    /// target's channels.
    pub fn moved_bits(&self) -> Option<u32>
        ensures { IfSome result (λ bits. (dst src mask op m : ℕ) → IsThrough self.now dst src mask op m → (s d : ℕ) → bit_and s bits ≡ composed_raw dst src mask op s m d) }
    {
        match self.kept {
            Some(bits) if self.moved => Some(bits),
            _ => None,
        }
    }

    /// The composition that it is, whatever the target has, where it is SoverD through a full mask between layouts that r9_kern
    /// composes so. It is not told where the source alone decides, since pixels are moved faster than composed.
    pub fn over(&self) -> Option<Over>
        ensures { IfSome result (λ over. (dst src mask op m : ℕ) → IsThrough self.now dst src mask op m → (s d : ℕ) → over_of over s d ≡ composed_raw dst src mask op s m d) }
    {
        match (self.op, layout_of(&self.dst), layout_of(&self.src)) {
            (Op::SoverD, Some(dst), Some(src)) if !self.moved && self.value == 255 => {
                Some(Over { dst, src })
            }
            _ => None,
        }
    }

    /// Makes raw pixels of the source what a target gets, whatever it has, where the source alone decides.
    pub fn change(&self, raws: &mut [u32])
        requires { self.now.moved ≡ true }
        ensures { (dst src mask op m : ℕ) → IsThrough self.now dst src mask op m → EachIndex raws.new (λ i. (d : ℕ) → slice_index raws.new i ≡ composed_raw dst src mask op (slice_index raws.old i) m d) }
    {
        change(&self.dst, &self.src, self.kept, raws);
    }

    /// Composes each raw pixel of `s`, seen through the mask pixel, onto that of `d`, as `compose` does through a row of such
    /// mask pixels.
    pub fn compose(&self, d: &mut [u32], s: &[u32])
        requires { length s.now ≡ length d.old }
        ensures { (dst src mask op m : ℕ) → IsThrough self.now dst src mask op m → EachIndex d.new (λ i. slice_index d.new i ≡ composed_raw dst src mask op (slice_index s.now i) m (slice_index d.old i)) }
    {
        compose_blocks(&self.dst, &self.src, &self.grey, self.value, self.op, d, s);
    }

    /// The same from one source pixel.
    pub fn fill(&self, d: &mut [u32], s: u32)
        ensures { (dst src mask op m : ℕ) → IsThrough self.now dst src mask op m → EachIndex d.new (λ i. slice_index d.new i ≡ composed_raw dst src mask op s m (slice_index d.old i)) }
    {
        fill_blocks(&self.dst, &self.src, &self.grey, self.value, self.op, d, s);
    }
}
