//! Lines that may come next.

ghost use Rattle.std.specs.Prelude.{◌≡◌, ◌↔◌, true, false, IsTrue, IfOk};
ghost use Rattle.r9_journal.specs.Digits.{AreMessageDigits, SpellsMarked, is_mark};
ghost use Rattle.r9_journal.specs.Fitting.{FitsMessage, IsEntered, IsUnfit};
ghost use Rattle.r9_journal.specs.Reading.{cut};

use crate::digits::are_message_digits;
use crate::line::{MESSAGE, cut, event_of, exclaimed, numeral};
use crate::roll::{MAX_MARK, Roll};
use r9_memory::Memory;
use std::alloc::Global;

/// Whether a word is an exclamation mark and a mark that a message may have.
fn is_mark(word: &[u8]) -> bool
    ensures { result ≡ is_mark word.now }
{
    match exclaimed(word) {
        Some(mark) => mark <= MAX_MARK,
        None => false,
    }
}

fn spells_marked(digits: &[u8], mark: &[u8]) -> bool
    ensures { IsTrue result ↔ (AreMessageDigits digits.now × IsTrue (is_mark mark.now)) }
{
    is_mark(mark) && are_message_digits(digits)
}

/// Whether a text has the digits of a whole message, with a mark behind them or not.
fn spells_message(text: &[u8]) -> bool
    ensures { IsTrue result ↔ SpellsMarked text.now (cut 32 text.now) }
{
    if are_message_digits(text) {
        return true;
    }
    let Some((digits, mark)) = cut(b' ', text) else {
        return false;
    };
    spells_marked(digits, mark)
}

/// Whether what stands behind the letter of a message and a blank tells one that may come next.
fn fits_message(roll: &Roll, text: &[u8]) -> bool
    ensures { IsTrue result ↔ FitsMessage roll.now text.now }
{
    let Some((session, rest)) = cut(b' ', text) else {
        return false;
    };
    let Some(session) = numeral(session) else {
        return false;
    };
    roll.hears(session) && spells_message(rest)
}

/// Enters the event that a line tells, where it may come next, and answers whether it may. A message is not made for that. For want of
/// memory the roll stays as it was.
pub fn enter_line(alloc: Global, roll: &mut Roll, line: &[u8]) -> Result<bool, Memory>
    ensures entered { IfOk result (λ fits. fits ≡ true → IsEntered roll.old line.now roll.new) }
    ensures unfit { IfOk result (λ fits. fits ≡ false → IsUnfit roll.old line.now) }
{
    if let Some(text) = line.strip_prefix(MESSAGE) {
        return Ok(fits_message(roll, text));
    }
    match event_of(alloc, line)? {
        Some(event) if roll.allows(&event) => {
            roll.enter(&event)?;
            Ok(true)
        }
        _ => Ok(false),
    }
}
