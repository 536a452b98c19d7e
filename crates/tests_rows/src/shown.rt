//! Cases of `text`. The first line of the input has the five fields of the font's image, how many bytes its pixels have, and, where
//! there is one, to how many bytes the input is filled; the text stands behind it. The pixels are 0 for the space, in a font of one
//! column for each character, and 255 for every other. The record that comes out is replayed, and the screen is told from (4,4) to
//! (8,8), a point by a mark: `#` for black, a period for white.

use r9_outside::outside::{MemSink, MemSource, Sink, SureDoor, SureSink, SureSource};
use r9_serve::serve::{DOORS, run};
use std::alloc::Global;
use std::fmt::Write;
use std::sync::Wait;
use std::thread::Threads;
use std::{array, io};

/// How many bytes the file of a screen of 640x480 in x8r8g8b8 has, how many of them stand before its rows, and how many a row has.
const FILE_LEN: usize = 60 + 480 * ROW_LEN;

const HEADER_LEN: usize = 60;

const ROW_LEN: usize = 640 * 4;

/// The number of a word, or 0 where there is none.
pub fn number(word: Option<&str>) -> usize {
    word.and_then(|word| word.parse().ok()).unwrap_or(0)
}

/// The input that lines tell.
fn input_of(alloc: Global, lines: &str) -> io::Result<Vec<u8>> {
    let (font, text) = lines.split_once('\n').unwrap_or((lines, ""));
    let mut words = font.split(' ');
    let mut fields = String::new(alloc);
    for word in words.by_ref().take(5) {
        write!(fields, "{word:>11} ")?;
    }
    let mut input = fields.as_bytes().to_vec(alloc)?;
    for index in 0..number(words.next()) {
        input.push(if index % 95 == 0 { 0 } else { 255 })?;
    }
    input.extend_from_slice(text.strip_suffix('\n').unwrap_or(text).as_bytes())?;
    for _ in input.len()..number(words.next()) {
        input.push(b'a')?;
    }
    Ok(input)
}

/// Runs a command on an input, with doors to which nobody comes, and gives its exit status.
pub fn run_words<R: Threads + Wait + Sync, E: Sink>(
    rt: &R,
    alloc: Global,
    words: &[&str],
    input: Vec<u8>,
    out: &mut SureSink,
    err: &mut E,
) -> u8 {
    let mut input = SureSource::new(input);
    let mut doors: [SureDoor<MemSource, MemSink>; DOORS] = array::from_fn(|_| SureDoor::new(alloc));
    run(rt, alloc, words, &mut input, out, err, &mut doors).code()
}

/// The mark of a point.
fn mark(point: &[u8]) -> char {
    match point {
        [0, 0, 0, ..] => '#',
        [255, 255, 255, ..] => '.',
        _ => '?',
    }
}

/// The marks of the points from (4,4) to (8,8) of the screen with which an output ends.
fn marks(alloc: Global, output: &[u8]) -> io::Result<String> {
    let mut text = String::new(alloc);
    let start = output.len().saturating_sub(FILE_LEN);
    for row in output[start..].chunks(ROW_LEN).skip(4).take(4) {
        for point in row.chunks(4).skip(HEADER_LEN / 4 + 4).take(4) {
            text.push(mark(point))?;
        }
        text.push('\n')?;
    }
    Ok(text)
}

/// Runs a case, tells on `err` what it puts there, and gives the exit status and the points of the screen, or how many bytes it
/// put out with another status than 0.
pub fn show_case<R: Threads + Wait + Sync, E: Sink>(
    rt: &R,
    alloc: Global,
    words: &[&str],
    lines: &str,
    err: &mut E,
) -> io::Result<String> {
    let mut record = SureSink::new(alloc);
    let status = run_words(rt, alloc, words, input_of(alloc, lines)?, &mut record, err);
    let mut text = String::new(alloc);
    if status != 0 {
        writeln!(text, "bytes {}\nstatus {status}", record.bytes().len())?;
        return Ok(text);
    }
    let mut shown = SureSink::new(alloc);
    let record = record.bytes().to_vec(alloc)?;
    let replayed = run_words(rt, alloc, &["replay", "--screen"], record, &mut shown, err);
    writeln!(
        text,
        "{}status {status} {replayed}",
        marks(alloc, shown.bytes())?
    )?;
    Ok(text)
}
