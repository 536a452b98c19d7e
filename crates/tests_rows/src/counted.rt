//! Cases of `gen`. The input is how many pixels may be written at least and at most; of the line that tells them it is told whether they
//! are so many.

use crate::shown::{number, run_words};
use r9_outside::outside::{Sink, SureSink};
use std::alloc::Global;
use std::fmt::Write;
use std::io;
use std::sync::Wait;
use std::thread::Threads;

/// Whether a count is one of those between two that stand in a text, these among them.
fn is_within(count: usize, bounds: &str) -> bool {
    let mut bounds = bounds.split_whitespace();
    number(bounds.next()) <= count && count <= number(bounds.next())
}

/// Runs a case, tells on `err` what it puts there, and gives the lines that it puts out, and the exit status.
pub fn count_case<R: Threads + Wait + Sync, E: Sink>(
    rt: &R,
    alloc: Global,
    words: &[&str],
    bounds: &str,
    err: &mut E,
) -> io::Result<String> {
    let mut out = SureSink::new(alloc);
    let status = run_words(rt, alloc, words, Vec::new(alloc), &mut out, err);
    let mut text = String::new(alloc);
    for line in str::from_utf8(out.bytes()).unwrap_or("").lines() {
        match line.strip_prefix("pixels ") {
            Some(count) if is_within(number(Some(count)), bounds) => writeln!(
                text,
                "pixels within"
            )?,
            _ => writeln!(text, "{line}")?,
        }
    }
    writeln!(text, "status {status}")?;
    Ok(text)
}
