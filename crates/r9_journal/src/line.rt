//! The event that a line of a record tells.

ghost use Rattle.std.specs.Prelude.{◌≡◌, ◌<◌, ◌↔◌, None, Some, codes, false, length, slice_index, take, IsTrue, IfOk};
ghost use Rattle.std.specs.Str.{bytes_eq};
ghost use Rattle.std.specs.Option.{option_map};
ghost use Rattle.model_text.specs.text.Hex.{unhex};
ghost use Rattle.r9_journal.specs.Reading.{cut, numeral, exclaimed, message_by, message_of_line, event_by, event_of};

use memchr::memchr;
use r9_event::event::Event;
use r9_memory::Memory;
use r9_text::{read_digits, read_hex};
use std::alloc::Global;

/// What the line of a message begins with.
pub const MESSAGE: &[u8] = b"M ";

/// What stands before the first such byte, and behind it.
pub fn cut(mark: u8, text: &[u8]) -> Option<(&[u8], &[u8])>
    ensures { option_map (λ parts. (parts.0.now, parts.1.now)) result ≡ cut mark text.now }
{
    match memchr(mark, text) {
        Some(at) => Some((&text[..at], &text[at + 1..])),
        None => None,
    }
}

/// A number below 2^32 has so many digits at most.
const MOST_DIGITS: usize = 10;

/// Whether a zero leads other characters.
fn is_led(word: &[u8]) -> bool
    ensures { IsTrue result ↔ ((1 < length word.now) × (slice_index word.now 0 ≡ 48)) }
{
    word.len() > 1 && word[0] == b'0'
}

/// The number below 2^32 whose decimal digits a word is.
pub fn numeral(word: &[u8]) -> Option<u32>
    ensures { result ≡ numeral word.now }
{
    if is_led(word) {
        return None;
    }
    let number = read_digits(word, MOST_DIGITS)?;
    if number < 1 << 32 {
        Some(number as u32)
    } else {
        None
    }
}

/// The number behind an exclamation mark.
pub fn exclaimed(word: &[u8]) -> Option<u32>
    ensures { result ≡ exclaimed word.now }
{
    match word {
        [b'!', digits @ ..] => numeral(digits),
        _ => None,
    }
}

/// A message by its digits, and by what stands behind a blank where there is one.
#[tactic(auto, unfolding(crate::specs::Reading::message_by))]
fn message_by(alloc: Global, session: u32, text: &[u8]) -> Result<Option<Event>, Memory>
    ensures { IfOk result (λ event. event ≡ message_by session text.now (cut 32 text.now)) }
{
    let whole = read_hex(alloc, text)?;
    if let Some(bytes) = whole {
        return Ok(Some(Event::Msg {
            session,
            bytes,
            mark: None,
        }));
    }
    let Some((digits, mark)) = cut(b' ', text) else {
        return Ok(None);
    };
    let Some(bytes) = read_hex(alloc, digits)? else {
        return Ok(None);
    };
    let Some(mark) = exclaimed(mark) else {
        return Ok(None);
    };
    Ok(Some(Event::Msg {
        session,
        bytes,
        mark: Some(mark),
    }))
}

/// The message that the part of a line behind its letter tells.
#[tactic(auto, unfolding(crate::specs::Reading::message_of_line))]
fn message_of_line(alloc: Global, text: &[u8]) -> Result<Option<Event>, Memory>
    ensures { IfOk result (λ event. event ≡ message_of_line text.now) }
{
    let Some((session, rest)) = cut(b' ', text) else {
        return Ok(None);
    };
    let Some(session) = numeral(session) else {
        return Ok(None);
    };
    message_by(alloc, session, rest)
}

/// The event of a letter that is not a message's, and of what stands behind the blank.
#[tactic(auto, unfolding(crate::specs::Reading::event_by))]
fn event_by(letter: &[u8], rest: &[u8]) -> Option<Event>
    requires { bytes_eq letter.now (codes "M") ≡ false }
    ensures { result ≡ event_by letter.now rest.now }
{
    match letter {
        b"B" => numeral(rest).map(|session| Event::Begin { session }),
        b"T" => numeral(rest).map(|session| Event::Take { session }),
        b"E" => numeral(rest).map(|session| Event::End { session }),
        _ => None,
    }
}

/// The event that the line of no message tells.
#[tactic(auto, unfolding(crate::specs::Reading::event_by_parts))]
fn other_event(line: &[u8]) -> Option<Event>
    requires { bytes_eq (take 2 line.now) (codes "M ") ≡ false }
    ensures { result ≡ event_of line.now }
{
    match cut(b' ', line) {
        None if line == b"X".as_slice() => Some(Event::Stop),
        None => None,
        Some((letter, rest)) => event_by(letter, rest),
    }
}

/// The event that a line, without its newline, tells.
pub fn event_of(alloc: Global, line: &[u8]) -> Result<Option<Event>, Memory>
    ensures { IfOk result (λ event. event ≡ event_of line.now) }
{
    match line.strip_prefix(MESSAGE) {
        Some(text) => message_of_line(alloc, text),
        None => Ok(other_event(line)),
    }
}
