// Rows of packed colours as raw pixels.
ghost use Rattle.std.specs.Prelude.{◌≡◌, ◌+◌, ◌*◌, ◌%◌, ◌<◌, ◌^◌, ℕ, length, slice_index, EachIndex};
ghost use Rattle.model_pixel.specs.Channels.{colour_of, grey_of, pack};
ghost use Rattle.r9_kern.specs.Layouts.{chan_of};
ghost use Rattle.r9_mem.specs.Fields.{greyed, put, IsPlaces};
ghost use Rattle.r9_mem.specs.Rows.{written, IsWriter};

use super::kind::{GREY, GREY_BYTE, lacks};
use super::layout::layout_of;
use super::place::{Places, places_of, put};
use super::reading::grey;
use r9_chan::Chan;
use r9_kern::Layout;

/// How pixels of some channels are written.
#[derive(Clone, Copy)]
pub enum Writer {
    /// Moved whole, as in this layout.
    Moved(Layout),
    /// A byte of grey: `k8`.
    Grey,
    /// Channel by channel, none of them grey.
    Colours(Places),
    /// Channel by channel, one of them grey.
    Greys(Places),
}

pub(crate) fn writer_of(chan: &Chan) -> Writer
    ensures writer { IsWriter result }
    ensures value { (word : ℕ) → written result word ≡ pack chan.now (colour_of word) }
{
    match layout_of(chan) {
        Some(layout) => Writer::Moved(layout),
        None if chan.word() == GREY_BYTE => Writer::Grey,
        None if lacks(chan, GREY) => Writer::Colours(places_of(chan.word())),
        None => Writer::Greys(places_of(chan.word())),
    }
}

#[inline(always)]
fn greyed(word: u32) -> u32
    ensures { result ≡ greyed word }
{
    (grey(word) << 24) + (word & 0xFFFFFF)
}

fn write_moved(layout: Layout, words: &[u32], raws: &mut [u32])
    requires { length words.now ≡ length raws.old }
    ensures { EachIndex raws.new (λ i. slice_index raws.new i ≡ pack (chan_of layout) (colour_of (slice_index words.now i))) }
{
    for i in 0..raws.len() {
        raws[i] = r9_kern::write(layout, words[i]);
    }
}

fn write_grey(words: &[u32], raws: &mut [u32])
    requires { length words.now ≡ length raws.old }
    ensures { EachIndex raws.new (λ i. slice_index raws.new i ≡ pack 0x38 (colour_of (slice_index words.now i))) }
{
    for i in 0..raws.len() {
        raws[i] = grey(words[i]);
    }
}

fn write_colours(places: &Places, words: &[u32], raws: &mut [u32])
    requires places { IsPlaces places.now }
    requires lengths { length words.now ≡ length raws.old }
    ensures { EachIndex raws.new (λ i. slice_index raws.new i ≡ put places.now (slice_index words.now i)) }
{
    let places = *places;
    for i in 0..raws.len() {
        raws[i] = put(&places, words[i]);
    }
}

fn write_greys(places: &Places, words: &[u32], raws: &mut [u32])
    requires places { IsPlaces places.now }
    requires lengths { length words.now ≡ length raws.old }
    ensures { EachIndex raws.new (λ i. slice_index raws.new i ≡ put places.now (greyed (slice_index words.now i))) }
{
    let places = *places;
    for i in 0..raws.len() {
        raws[i] = put(&places, greyed(words[i]));
    }
}

/// Writes packed colours as raw pixels.
pub(crate) fn write_row(writer: &Writer, words: &[u32], raws: &mut [u32])
    requires writer { IsWriter writer.now }
    requires lengths { length words.now ≡ length raws.old }
    ensures { EachIndex raws.new (λ i. slice_index raws.new i ≡ written writer.now (slice_index words.now i)) }
{
    match writer {
        Writer::Moved(layout) => write_moved(*layout, words, raws),
        Writer::Grey => write_grey(words, raws),
        Writer::Colours(places) => write_colours(places, words, raws),
        Writer::Greys(places) => write_greys(places, words, raws),
    }
}
