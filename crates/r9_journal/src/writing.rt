//! Writing the lines of records and of replies.

ghost use Rattle.std.specs.Prelude.{◌≡◌, ◌++◌, ◌≤◌, ◌-◌, ◌^◌, codes, length, min, take, OnOk, OnErr};
ghost use Rattle.std.specs.Fmt.{decimal};
ghost use Rattle.model_text.specs.text.Hex.{hex};
ghost use Rattle.model_history.specs.records.Line.{event_text, event_line, reply_line, mark_text};

use r9_event::event::{Entry, Event, Reply};
use r9_memory::Memory;
use r9_text::{Bytes, push_decimal, push_hex};

/// Adds the mark of a message, if it has one.
fn push_mark(mark: Option<u32>, text: &mut Bytes) -> Result<(), Memory>
    ensures ok { OnOk result (text.new ≡ text.old ++ mark_text mark) }
    ensures err { OnErr result (take (length text.old) text.new ≡ text.old) }
{
    match mark {
        None => Ok(()),
        Some(count) => {
            text.push_all(b" !")?;
            push_decimal(text, count as u64)
        }
    }
}

/// Adds a letter, a blank and a session's number.
fn push_session(letter: &[u8], session: u32, text: &mut Bytes) -> Result<(), Memory>
    ensures ok { OnOk result (text.new ≡ text.old ++ letter.now ++ decimal session) }
    ensures err { OnErr result (take (length text.old) text.new ≡ text.old) }
{
    text.push_all(letter)?;
    push_decimal(text, session as u64)
}

/// Adds a letter and a blank, and a session's number with the bytes of a message of it.
fn push_bytes(letter: &[u8], session: u32, bytes: &[u8], text: &mut Bytes) -> Result<(), Memory>
    ensures ok { OnOk result (text.new ≡ text.old ++ letter.now ++ decimal session ++ codes " " ++ hex bytes.now) }
    ensures err { OnErr result (take (length text.old) text.new ≡ text.old) }
{
    push_session(letter, session, text)?;
    text.push(b' ')?;
    push_hex(text, bytes)
}

/// Adds the text of an event. For want of memory a part of it may be there.
fn push_event(event: &Event, text: &mut Bytes) -> Result<(), Memory>
    ensures ok { OnOk result (text.new ≡ text.old ++ event_text event.now) }
    ensures err { OnErr result (take (length text.old) text.new ≡ text.old) }
{
    match event {
        Event::Begin { session } => push_session(b"B ", *session, text),
        Event::Msg {
            session,
            bytes,
            mark,
        } => {
            push_bytes(b"M ", *session, bytes.as_slice(), text)?;
            push_mark(*mark, text)
        }
        Event::Take { session } => push_session(b"T ", *session, text),
        Event::End { session } => push_session(b"E ", *session, text),
        Event::Stop => text.push_all(b"X"),
    }
}

/// Adds the line of an event. For want of memory a part of it may be there.
fn push_line(event: &Event, text: &mut Bytes) -> Result<(), Memory>
    ensures ok { OnOk result (text.new ≡ text.old ++ event_line event.now) }
    ensures err { OnErr result (take (length text.old) text.new ≡ text.old) }
{
    push_event(event, text)?;
    text.push(b'\n')
}

/// Adds the line of a reply to a session. For want of memory a part of it may be there.
fn push_reply(session: u32, bytes: &[u8], text: &mut Bytes) -> Result<(), Memory>
    ensures ok { OnOk result (text.new ≡ text.old ++ reply_line (record { session = session; bytes = bytes.now })) }
    ensures err { OnErr result (take (length text.old) text.new ≡ text.old) }
{
    push_bytes(b"R ", session, bytes, text)?;
    text.push(b'\n')
}

/// Adds the line of an entry at the end, or nothing for want of memory.
pub fn write_entry(entry: &Entry, out: &mut Bytes) -> Result<(), Memory>
    ensures ok { OnOk result (out.new ≡ out.old ++ event_line entry.now.event) }
    ensures err { OnErr result (out.new ≡ out.old) }
{
    let before = out.len();
    let put = push_line(&entry.event, out);
    if put.is_err() {
        out.truncate(before);
    }
    put
}

/// Adds the line of a reply at the end, or nothing for want of memory.
pub fn write_reply(reply: &Reply, out: &mut Bytes) -> Result<(), Memory>
    ensures ok { OnOk result (out.new ≡ out.old ++ reply_line reply.now) }
    ensures err { OnErr result (out.new ≡ out.old) }
{
    write_reply_of(reply.session, reply.bytes.as_slice(), out)
}

/// Adds the line of the reply that has these bytes and goes to this session at the end, or nothing for want of memory.
pub fn write_reply_of(session: u32, bytes: &[u8], out: &mut Bytes) -> Result<(), Memory>
    ensures ok { OnOk result (out.new ≡ out.old ++ reply_line (record { session = session; bytes = bytes.now })) }
    ensures err { OnErr result (out.new ≡ out.old) }
{
    let before = out.len();
    let put = push_reply(session, bytes, out);
    if put.is_err() {
        out.truncate(before);
    }
    put
}

fn decimal_len(number: u32) -> u64
    ensures len { result ≡ length (decimal number) }
    ensures short { result ≤ 10 }
{
    let mut buffer = itoa::Buffer::new();
    buffer.format(number).len() as u64
}

fn mark_len(mark: Option<u32>) -> u64
    ensures len { result ≡ length (mark_text mark) }
    ensures short { result ≤ 12 }
{
    match mark {
        None => 0,
        Some(count) => 2 + decimal_len(count),
    }
}

/// How many bytes the line of an entry has, at most 2^64-1.
pub fn entry_len(entry: &Entry) -> u64
    ensures { result ≡ min (length (event_line entry.now.event)) (2 ^ 64 - 1) }
{
    match &entry.event {
        Event::Begin { session } | Event::Take { session } | Event::End { session } => {
            3 + decimal_len(*session)
        }
        Event::Msg {
            session,
            bytes,
            mark,
        } => (bytes.len() as u64)
            .saturating_mul(2)
            .saturating_add(4 + decimal_len(*session) + mark_len(*mark)),
        Event::Stop => 2,
    }
}
