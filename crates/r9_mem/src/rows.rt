ghost use Rattle.std.specs.Prelude.{◌≡◌, ◌≤◌, ◌<◌, ℕ, length, slice_index, EachIndex};
ghost use Rattle.model_pixel.specs.Composition.{composed_raw};
ghost use Rattle.r9_chan.specs.Op.{number};
ghost use Rattle.r9_mem.specs.Rows.{IsRow, Serves};

use super::layout::{layout_of, mask_layout_of};
use super::moving::{change, is_moved, kept_bits};
use super::reading::{Masker, Reader, mask_row, masker_of, read_row, reader_of};
use super::writing::{Writer, write_row, writer_of};
use r9_chan::{Chan, Op};
use r9_kern::{comp_raw_row, comp_row};

// The pixels that stand as packed colours at a time.
const BLOCK: usize = 64;

/// What a row is told once of the channels of target, source and mask.
#[derive(Clone, Copy)]
pub struct Row {
    source: Reader,
    target: Reader,
    through: Masker,
    writer: Writer,
}

fn row_of(dst: &Chan, src: &Chan, mask: &Chan) -> Row
    ensures row { IsRow result }
    ensures serves { Serves result dst.now src.now mask.now }
{
    Row {
        source: reader_of(src),
        target: reader_of(dst),
        through: masker_of(mask),
        writer: writer_of(dst),
    }
}

// Composes at most a block of pixels as packed colours.
fn compose_block(row: &Row, op: Op, d: &mut [u32], s: &[u32], m: &[u32])
    requires row { IsRow row.now }
    requires few { length d.old ≤ 64 }
    requires sources { length s.now ≡ length d.old }
    requires masks { length m.now ≡ length d.old }
    ensures { (dst src mask : ℕ) → Serves row.now dst src mask → EachIndex d.new (λ i. slice_index d.new i ≡ composed_raw dst src mask (number op) (slice_index s.now i) (slice_index m.now i) (slice_index d.old i)) }
{
    let len = d.len();
    let mut masks = [0; BLOCK];
    let masks = &mut masks[..len];
    mask_row(&row.through, m, masks);
    let mut above = [0; BLOCK];
    read_row(&row.source, s, &mut above[..len]);
    let mut words = [0; BLOCK];
    let words = &mut words[..len];
    read_row(&row.target, d, words);
    comp_row(op, words, &above[..len], masks);
    write_row(&row.writer, words, d);
}

fn compose_blocks(dst: &Chan, src: &Chan, mask: &Chan, op: Op, d: &mut [u32], s: &[u32], m: &[u32])
    requires sources { length s.now ≡ length d.old }
    requires masks { length m.now ≡ length d.old }
    ensures { EachIndex d.new (λ i. slice_index d.new i ≡ composed_raw dst.now src.now mask.now (number op) (slice_index s.now i) (slice_index m.now i) (slice_index d.old i)) }
{
    let row = row_of(dst, src, mask);
    let mut at = 0;
    while at < d.len() {
        let end = at + (d.len() - at).min(BLOCK);
        compose_block(&row, op, &mut d[at..end], &s[at..end], &m[at..end]);
        at = end;
    }
}

// Composes pixels that target and mask have a part in.
pub(crate) fn compose_row(
    dst: &Chan,
    src: &Chan,
    mask: &Chan,
    op: Op,
    d: &mut [u32],
    s: &[u32],
    m: &[u32],
)
    requires sources { length s.now ≡ length d.old }
    requires masks { length m.now ≡ length d.old }
    ensures { EachIndex d.new (λ i. slice_index d.new i ≡ composed_raw dst.now src.now mask.now (number op) (slice_index s.now i) (slice_index m.now i) (slice_index d.old i)) }
{
    match (layout_of(dst), layout_of(src), mask_layout_of(mask)) {
        (Some(below), Some(above), Some(through)) => {
            comp_raw_row(below, above, through, op, d, s, m);
        }
        _ => compose_blocks(dst, src, mask, op, d, s, m),
    }
}

/// Composes each raw pixel of `s`, seen through that of `m`, onto that of `d`: what draw(2) does at one point. Targets
/// and sources of `r8g8b8a8`, `a8r8g8b8`, `x8r8g8b8` and `r8g8b8` through masks of `k8` and `k1` go four pixels at a
/// time, others become packed colours first. Where the source alone counts, `d` is only written.
pub fn compose(dst: Chan, src: Chan, mask: Chan, op: Op, d: &mut [u32], s: &[u32], m: &[u32])
    requires sources { length s.now ≡ length d.old }
    requires masks { length m.now ≡ length d.old }
    ensures { EachIndex d.new (λ i. slice_index d.new i ≡ composed_raw dst src mask (number op) (slice_index s.now i) (slice_index m.now i) (slice_index d.old i)) }
{
    if is_moved(op, &src, &mask, m) {
        let _ = src.word();
        d.copy_from_slice(s);
        change(&dst, &src, kept_bits(&dst, &src), d);
    } else {
        compose_row(&dst, &src, &mask, op, d, s, m);
    }
}
