//! What sessions send and are replied, a line for each message in hexadecimal digits, and records.

use std::alloc::{AllocError, Global};
use std::io;

/// What two sessions send: each a version, with an msize of its own, and an attach.
pub const SENT: [&str; 2] = [
    "1300000064ffff180001000600395032303030\n1400000068010000000000ffffffff0100750000\n",
    "1300000064ffff000100000600395032303030\n1400000068020000000000ffffffff0100750000\n",
];

/// What they are replied.
pub const REPLIES: [&str; 2] = [
    "1300000065ffff180001000600395032303030\n1400000069010080000000000100000000000000\n",
    "1300000065ffff000100000600395032303030\n1400000069020080000000000100000000000000\n",
];

/// The bytes of some messages.
pub fn bytes_of(alloc: Global, messages: &str) -> io::Result<Vec<u8>> {
    let mut bytes = Vec::new(alloc);
    for message in messages.lines() {
        for pair in message.as_bytes().chunks(2) {
            let pair = str::from_utf8(pair).map_err(|_| io::ErrorKind::InvalidData)?;
            bytes.push(u8::from_str_radix(pair, 16).map_err(|_| io::ErrorKind::InvalidData)?)?;
        }
    }
    Ok(bytes)
}

/// What stands behind a front in those lines of a text that have it.
pub fn behind(alloc: Global, text: &str, front: &str) -> Result<String, AllocError> {
    let mut rests = String::new(alloc);
    for line in text.split_inclusive('\n') {
        if let Some(rest) = line.strip_prefix(front) {
            rests.push_str(rest)?;
        }
    }
    Ok(rests)
}

/// The record of one session that sends these messages, without the lines of takes.
pub fn record_of(alloc: Global, messages: &str) -> Result<String, AllocError> {
    let mut text = String::new(alloc);
    text.push_str("rio9 2 1\nB 1\n")?;
    for message in messages.split_inclusive('\n') {
        text.push_str("M 1 ")?;
        text.push_str(message)?;
    }
    text.push_str("E 1\n")?;
    Ok(text)
}

/// A record without the lines of takes, whose places differ from run to run.
pub fn without_takes(alloc: Global, record: &[u8]) -> Result<String, AllocError> {
    let mut text = String::new(alloc);
    for line in str::from_utf8(record).unwrap_or("?").split_inclusive('\n') {
        if !line.starts_with("T ") {
            text.push_str(line)?;
        }
    }
    Ok(text)
}
