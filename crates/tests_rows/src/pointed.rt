//! Cases of `desk`. Each line of the input is an event, x, y and the buttons, or one number, to how many bytes the input is filled, or
//! stands for the bytes that it has. The texts that the record writes to `mousein` and `wctl` are told, and how many replies to it are
//! errors.

use crate::shown::{number, run_words};
use r9_outside::outside::{Sink, SureSink};
use std::alloc::Global;
use std::fmt::Write;
use std::io;
use std::sync::Wait;
use std::thread::Threads;

/// Where a message has its kind, the fid of a write and what is written, in hexadecimal digits.
const KIND: usize = 8;

const FID: usize = 14;

const WRITTEN: usize = 46;

/// The text of an event at a time of 0.
fn event_text(alloc: Global, x: &str, y: &str, buttons: &str) -> io::Result<String> {
    let mut text = String::new(alloc);
    write!(text, "m{x:>11} {y:>11} {buttons:>11} {:>11} ", 0)?;
    Ok(text)
}

/// The input that lines tell.
fn input_of(alloc: Global, lines: &str) -> io::Result<Vec<u8>> {
    let mut input = Vec::new(alloc);
    for line in lines.lines() {
        let mut words = line.split(' ');
        match (words.next(), words.next(), words.next(), words.next()) {
            (Some(x), Some(y), Some(buttons), None) => {
                let text = event_text(alloc, x, y, buttons)?;
                input.extend_from_slice(text.as_bytes())?;
            }
            (Some(len), None, None, None) if number(Some(len)) > 0 => {
                for _ in input.len()..number(Some(len)) {
                    input.push(b' ')?;
                }
            }
            _ => input.extend_from_slice(line.as_bytes())?,
        }
    }
    Ok(input)
}

/// Adds the text that a message writes to `mousein` or `wctl`, as a line with the file's name.
fn push_text(text: &mut String, message: &str) -> io::Result<()> {
    let name = match (message.get(KIND..KIND + 2), message.get(FID..FID + 8)) {
        (Some("76"), Some("01000000")) => "mousein",
        (Some("76"), Some("02000000")) => "wctl",
        _ => return Ok(()),
    };
    write!(text, "{name} ")?;
    for pair in message.as_bytes().chunks(2).skip(WRITTEN / 2) {
        let pair = str::from_utf8(pair).map_err(|_| io::ErrorKind::InvalidData)?;
        let byte = u8::from_str_radix(pair, 16).map_err(|_| io::ErrorKind::InvalidData)?;
        text.push(char::from(byte))?;
    }
    text.push('\n')?;
    Ok(())
}

/// How many of the lines of replies are errors.
fn errors(replies: &str) -> usize {
    let kind = "R 1 ".len() + KIND;
    replies
        .lines()
        .filter(|line| line.get(kind..kind + 2) == Some("6b"))
        .count()
}

/// Runs a case, tells on `err` what it puts there, and gives the texts of its record, how many replies to that are errors, and the exit
/// status, or how many bytes it put out with another status than 0.
pub fn point_case<R: Threads + Wait + Sync, E: Sink>(
    rt: &R,
    alloc: Global,
    words: &[&str],
    lines: &str,
    err: &mut E,
) -> io::Result<String> {
    let mut record = SureSink::new(alloc);
    let status = run_words(rt, alloc, words, input_of(alloc, lines)?, &mut record, err);
    let mut text = String::new(alloc);
    if status != 0 {
        writeln!(text, "bytes {}\nstatus {status}", record.bytes().len())?;
        return Ok(text);
    }
    let lines = str::from_utf8(record.bytes()).unwrap_or("?");
    for message in lines.split("M 1 ").skip(1) {
        push_text(&mut text, message.trim_end())?;
    }
    let mut replies = SureSink::new(alloc);
    let given = record.bytes().to_vec(alloc)?;
    let replayed = run_words(rt, alloc, &["replay"], given, &mut replies, err);
    let wrong = errors(str::from_utf8(replies.bytes()).unwrap_or("?"));
    writeln!(text, "errors {wrong}\nstatus {status} {replayed}")?;
    Ok(text)
}
