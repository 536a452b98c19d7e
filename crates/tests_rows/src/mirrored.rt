//! Cases of `mirror` on a display of four bytes a pixel. The first line of the input has points, x and y of each; the record stands
//! behind it. The lines of the frames are told, of each cell with how many bytes its rows have, and behind it the pixels of the points that
//! it has, as bytes in hexadecimal digits.

use crate::shown::{number, run_words};
use r9_outside::outside::{Sink, SureSink};
use std::alloc::Global;
use std::fmt::Write;
use std::io;
use std::sync::Wait;
use std::thread::Threads;

/// How many bytes a pixel has.
const PIXEL_LEN: usize = 4;

/// A cell as its line tells it, in pixels.
#[derive(Clone, Copy)]
struct Cell {
    x: usize,
    y: usize,
    width: usize,
    height: usize,
}

impl Cell {
    fn of(line: &str) -> Self {
        let mut words = line.split(' ').skip(1);
        Cell {
            x: number(words.next()),
            y: number(words.next()),
            width: number(words.next()),
            height: number(words.next()),
        }
    }

    /// Where the pixel of a point stands in the cell's rows, if the cell has the point.
    fn place(&self, x: usize, y: usize) -> Option<usize> {
        let column = x.checked_sub(self.x)?;
        let row = y.checked_sub(self.y)?;
        let before = row.saturating_mul(self.width).saturating_add(column);
        (column < self.width && row < self.height).then_some(before.saturating_mul(PIXEL_LEN))
    }

    /// How many bytes its rows have.
    fn len(&self) -> usize {
        self.width
            .saturating_mul(self.height)
            .saturating_mul(PIXEL_LEN)
    }
}

/// Tells the pixels of the points that a cell has.
fn tell_points(text: &mut String, cell: &Cell, rows: &[u8], points: &str) -> io::Result<()> {
    let mut words = points.split(' ');
    for _ in 0..points.len() {
        let (Some(x), Some(y)) = (words.next(), words.next()) else {
            break;
        };
        let Some(place) = cell.place(number(Some(x)), number(Some(y))) else {
            continue;
        };
        write!(text, "at {x} {y} ")?;
        for byte in rows.iter().skip(place).take(PIXEL_LEN) {
            write!(text, "{byte:02x}")?;
        }
        text.push('\n')?;
    }
    Ok(())
}

/// Tells frames.
fn tell_frames(text: &mut String, frames: &[u8], points: &str) -> io::Result<()> {
    let mut rest = frames;
    for _ in 0..frames.len() {
        let Some(end) = rest.iter().position(|byte| *byte == b'\n') else {
            break;
        };
        let line = str::from_utf8(&rest[..end]).unwrap_or("?");
        rest = &rest[end + 1..];
        if !line.starts_with("C ") {
            writeln!(text, "{line}")?;
            continue;
        }
        let cell = Cell::of(line);
        let len = rest.len().min(cell.len());
        writeln!(text, "{line}: {len} bytes")?;
        tell_points(text, &cell, &rest[..len], points)?;
        rest = &rest[len..];
    }
    writeln!(text, "bytes more {}", rest.len())?;
    Ok(())
}

/// Runs a case, tells on `err` what it puts there, and gives what the frames have, and the exit status.
pub fn mirror_case<R: Threads + Wait + Sync, E: Sink>(
    rt: &R,
    alloc: Global,
    words: &[&str],
    lines: &str,
    err: &mut E,
) -> io::Result<String> {
    let (points, record) = lines.split_once('\n').unwrap_or((lines, ""));
    let mut frames = SureSink::new(alloc);
    let record = record.as_bytes().to_vec(alloc)?;
    let status = run_words(rt, alloc, words, record, &mut frames, err);
    let mut text = String::new(alloc);
    tell_frames(&mut text, frames.bytes(), points)?;
    writeln!(text, "status {status}")?;
    Ok(text)
}
