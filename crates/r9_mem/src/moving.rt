// Rows whose result is their source: nothing is composed, and the target is only written.
ghost use Rattle.std.specs.Prelude.{◌≡◌, ◌≤◌, ◌<◌, ℕ, true, length, slice_index, EachIndex, IsTrue};
ghost use Rattle.model_pixel.specs.Channels.{expand, mask, pack};
ghost use Rattle.r9_chan.specs.Op.{number};
ghost use Rattle.std.specs.Int.Bits.{bit_and};
ghost use Rattle.r9_mem.specs.Covering.{takes};
ghost use Rattle.r9_mem.specs.Rows.{IsReader, IsWriter, Written};
ghost use Rattle.r9_mem.specs.Kept.{AreKept};

use super::kind::{ALPHA, lacks};
use super::reading::{Reader, read_row, reader_of};
use super::writing::{Writer, write_row, writer_of};
use r9_chan::{Chan, Colour, Op};

// The pixels that stand as packed colours at a time.
const BLOCK: usize = 64;

// Whether all are the first.
fn are_same(raws: &[u32], first: u32) -> bool
    ensures { IsTrue result → EachIndex raws.now (λ i. slice_index raws.now i ≡ first) }
{
    let mut same = true;
    for i in 0..raws.len() {
        same = same & (raws[i] == first);
    }
    same
}

// Whether all are one full mask.
fn is_full(chan: &Chan, masks: &[u32]) -> bool
    ensures { IsTrue result → EachIndex masks.now (λ i. mask chan.now (slice_index masks.now i) ≡ 255) }
{
    if masks.is_empty() {
        return true;
    }
    let first = masks[0];
    chan.mask(first) == 255 && are_same(masks, first)
}

// Whether an operator gives the source alone through a full mask: S does, and SoverD where the source has no alpha.
fn takes_source(op: Op, src: &Chan) -> bool
    ensures { IsTrue result → (s : ℕ) → takes (number op) (expand src.now s).a ≡ true }
{
    match op {
        Op::S => true,
        Op::SoverD => lacks(src, ALPHA),
        _ => false,
    }
}

/// Whether an operator gives the source alone through a mask value.
pub(crate) fn gives_source(op: Op, src: &Chan, value: u8) -> bool
    ensures source { IsTrue result → (s : ℕ) → takes (number op) (expand src.now s).a ≡ true }
    ensures full { IsTrue result → value ≡ 255 }
{
    takes_source(op, src) && value == 255
}

/// Whether an operator gives the source alone through these masks.
pub(crate) fn is_moved(op: Op, src: &Chan, chan: &Chan, masks: &[u32]) -> bool
    ensures source { IsTrue result → (s : ℕ) → takes (number op) (expand src.now s).a ≡ true }
    ensures masks { IsTrue result → EachIndex masks.now (λ i. mask chan.now (slice_index masks.now i) ≡ 255) }
{
    takes_source(op, src) && is_full(chan, masks)
}

/// The bits of a source pixel that stay under the target's channels, where these are the same: all but the ignored ones.
pub(crate) fn kept_bits(dst: &Chan, src: &Chan) -> Option<u32>
    ensures { AreKept result dst.now src.now }
{
    if dst == src {
        let _ = src.word();
        let white = Colour::of_word(0xFFFF_FFFF);
        Some(src.pack(white))
    } else {
        None
    }
}

// Raw pixels without the bits that do not stay.
fn keep(bits: u32, raws: &mut [u32])
    ensures { EachIndex raws.new (λ i. slice_index raws.new i ≡ bit_and (slice_index raws.old i) bits) }
{
    for i in 0..raws.len() {
        raws[i] = raws[i] & bits;
    }
}

// Writes at most a block of pixels as they are read.
fn change_block(source: &Reader, writer: &Writer, raws: &mut [u32])
    requires reader { IsReader source.now }
    requires writer { IsWriter writer.now }
    requires few { length raws.old ≤ 64 }
    ensures { (i : ℕ) → i < length raws.old → Written writer.now source.now (slice_index raws.old i) (slice_index raws.new i) }
{
    let len = raws.len();
    let mut words = [0; BLOCK];
    let words = &mut words[..len];
    read_row(source, raws, words);
    write_row(writer, words, raws);
}

// Writes pixels under other channels.
fn change_row(dst: &Chan, src: &Chan, raws: &mut [u32])
    ensures { EachIndex raws.new (λ i. slice_index raws.new i ≡ pack dst.now (expand src.now (slice_index raws.old i))) }
{
    let source = reader_of(src);
    let writer = writer_of(dst);
    let mut at = 0;
    while at < raws.len() {
        let end = at + (raws.len() - at).min(BLOCK);
        change_block(&source, &writer, &mut raws[at..end]);
        at = end;
    }
}

/// Raw pixels of a source as those of a target.
pub(crate) fn change(dst: &Chan, src: &Chan, kept: Option<u32>, raws: &mut [u32])
    requires { AreKept kept dst.now src.now }
    ensures { EachIndex raws.new (λ i. slice_index raws.new i ≡ pack dst.now (expand src.now (slice_index raws.old i))) }
{
    match kept {
        Some(bits) => keep(bits, raws),
        None => change_row(dst, src, raws),
    }
}
