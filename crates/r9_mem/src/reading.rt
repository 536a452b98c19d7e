// Rows of raw pixels as packed colours, and as mask values.
ghost use Rattle.std.specs.Prelude.{◌≡◌, ◌<◌, ◌^◌, ◌≤◌, ℕ, length, slice_index, EachIndex};
ghost use Rattle.model_pixel.specs.Channels.{colour_of, expand, grey_of, mask};
ghost use Rattle.r9_kern.specs.Layouts.{chan_of};
ghost use Rattle.r9_mem.specs.Fields.{seen, value, IsField, IsFields};
ghost use Rattle.r9_mem.specs.Rows.{masked, read, IsMasker, IsReader};

use super::field::{Field, constant, field_of, value};
use super::kind::{ALPHA, BLUE, GREEN, GREY, GREY_BYTE, RED, lacks};
use super::layout::layout_of;
use r9_chan::Chan;
use r9_kern::Layout;

/// The fields of a colour.
#[derive(Clone, Copy)]
pub struct Fields {
    pub r: Field,
    pub g: Field,
    pub b: Field,
    pub a: Field,
}

/// How pixels of some channels are read.
#[derive(Clone, Copy)]
pub enum Reader {
    /// Moved whole, as in this layout.
    Whole(Layout),
    /// A byte of grey: `k8`.
    Grey,
    /// Field by field.
    Apart(Fields),
}

fn fields_of(chan: &Chan) -> Fields
    ensures fields { IsFields result }
    ensures value { (raw : ℕ) → seen result raw ≡ expand chan.now raw }
{
    let word = chan.word();
    let grey = field_of(word, GREY, constant(0));
    Fields {
        r: field_of(word, RED, grey),
        g: field_of(word, GREEN, grey),
        b: field_of(word, BLUE, grey),
        a: field_of(word, ALPHA, constant(255)),
    }
}

pub(crate) fn reader_of(chan: &Chan) -> Reader
    ensures reader { IsReader result }
    ensures value { (raw : ℕ) → read result raw ≡ expand chan.now raw }
{
    match layout_of(chan) {
        Some(layout) => Reader::Whole(layout),
        None if chan.word() == GREY_BYTE => Reader::Grey,
        None => Reader::Apart(fields_of(chan)),
    }
}

#[inline(always)]
fn read_fields(fields: &Fields, raw: u32) -> u32
    requires { IsFields fields.now }
    ensures { colour_of result ≡ seen fields.now raw }
{
    let high = (value(&fields.r, raw) << 24) + (value(&fields.g, raw) << 16);
    high + (value(&fields.b, raw) << 8) + value(&fields.a, raw)
}

fn read_apart(fields: &Fields, raws: &[u32], words: &mut [u32])
    requires fields { IsFields fields.now }
    requires lengths { length raws.now ≡ length words.old }
    ensures { EachIndex words.new (λ i. colour_of (slice_index words.new i) ≡ seen fields.now (slice_index raws.now i)) }
{
    let fields = *fields;
    for i in 0..words.len() {
        words[i] = read_fields(&fields, raws[i]);
    }
}

fn read_whole(layout: Layout, raws: &[u32], words: &mut [u32])
    requires lengths { length raws.now ≡ length words.old }
    ensures { EachIndex words.new (λ i. colour_of (slice_index words.new i) ≡ expand (chan_of layout) (slice_index raws.now i)) }
{
    for i in 0..words.len() {
        words[i] = r9_kern::read(layout, raws[i]);
    }
}

fn read_greys(raws: &[u32], words: &mut [u32])
    requires { length raws.now ≡ length words.old }
    ensures { EachIndex words.new (λ i. colour_of (slice_index words.new i) ≡ expand 0x38 (slice_index raws.now i)) }
{
    for i in 0..words.len() {
        words[i] = raws[i] % 256 * 0x01010100 + 255;
    }
}

/// Reads raw pixels as packed colours.
pub(crate) fn read_row(reader: &Reader, raws: &[u32], words: &mut [u32])
    requires reader { IsReader reader.now }
    requires lengths { length raws.now ≡ length words.old }
    ensures { EachIndex words.new (λ i. colour_of (slice_index words.new i) ≡ read reader.now (slice_index raws.now i)) }
{
    match reader {
        Reader::Whole(layout) => read_whole(*layout, raws, words),
        Reader::Grey => read_greys(raws, words),
        Reader::Apart(fields) => read_apart(fields, raws, words),
    }
}

/// The luminance of a packed colour.
#[inline(always)]
pub(crate) fn grey(word: u32) -> u32
    ensures { result ≡ grey_of (colour_of word) }
{
    let red_green = 156763 * (word >> 24) + 307758 * (word >> 16 & 255);
    (red_green + 59769 * (word >> 8 & 255)) >> 19
}

fn mask_greys(words: &[u32], masks: &mut [u8])
    requires { length words.now ≡ length masks.old }
    ensures { EachIndex masks.new (λ i. slice_index masks.new i ≡ grey_of (colour_of (slice_index words.now i))) }
{
    for i in 0..masks.len() {
        masks[i] = grey(words[i]) as u8;
    }
}

/// How mask pixels of some channels are read.
#[derive(Clone, Copy)]
pub enum Masker {
    /// One field is the mask value: the alpha, or the grey where there is no alpha.
    Single(Field),
    /// The colours' greys are.
    Colours(Reader),
}

pub(crate) fn masker_of(chan: &Chan) -> Masker
    ensures masker { IsMasker result }
    ensures value { (raw : ℕ) → masked result raw ≡ mask chan.now raw }
{
    let word = chan.word();
    if !lacks(chan, ALPHA) {
        return Masker::Single(field_of(word, ALPHA, constant(255)));
    }
    if !lacks(chan, GREY) {
        return Masker::Single(field_of(word, GREY, constant(0)));
    }
    Masker::Colours(reader_of(chan))
}

fn mask_single(field: &Field, raws: &[u32], masks: &mut [u8])
    requires field { IsField field.now }
    requires lengths { length raws.now ≡ length masks.old }
    ensures { EachIndex masks.new (λ i. slice_index masks.new i ≡ value field.now (slice_index raws.now i)) }
{
    let field = *field;
    for i in 0..masks.len() {
        masks[i] = value(&field, raws[i]) as u8;
    }
}

fn mask_colours(reader: &Reader, raws: &[u32], masks: &mut [u8])
    requires reader { IsReader reader.now }
    requires few { length masks.old ≤ 64 }
    requires lengths { length raws.now ≡ length masks.old }
    ensures { EachIndex masks.new (λ i. slice_index masks.new i ≡ grey_of (read reader.now (slice_index raws.now i))) }
{
    let len = masks.len();
    let mut words = [0; 64];
    let words = &mut words[..len];
    read_row(reader, raws, words);
    mask_greys(words, masks);
}

/// Reads at most a block of raw mask pixels as mask values.
pub(crate) fn mask_row(masker: &Masker, raws: &[u32], masks: &mut [u8])
    requires masker { IsMasker masker.now }
    requires few { length masks.old ≤ 64 }
    requires lengths { length raws.now ≡ length masks.old }
    ensures { EachIndex masks.new (λ i. slice_index masks.new i ≡ masked masker.now (slice_index raws.now i)) }
{
    match masker {
        Masker::Single(field) => mask_single(field, raws, masks),
        Masker::Colours(reader) => mask_colours(reader, raws, masks),
    }
}
