//! Reading a session record.

ghost use Rattle.std.specs.Prelude.{◌≡◌, ◌↔◌, ◌≤◌, ◌<◌, ◌-◌, ◌++◌, ◌∷◌, [], ℕ, List, IfOk, OnErr, IfSome, IfNone, MatchResult, length};
ghost use Rattle.model_history.specs.event.Legal.{IsLegal, roll_of};
ghost use Rattle.model_history.specs.records.Record.{IsRecord, IsBadAt, IsLate};
ghost use Rattle.r9_event.specs.declared.event.event.Event.{Event};
ghost use Rattle.r9_journal.specs.Header.{IsHeaded};

use crate::fitting::enter_line;
use crate::header::first_number;
use crate::line::{cut, event_of};
use crate::roll::Roll;
use r9_event::event::{Entries, Event};
use r9_memory::Memory;
use std::alloc::Global;
use std::marker::Model;
use thiserror::Error;

/// A text of so many bytes is no record.
const TEXT_LIMIT: usize = 1 << 30;

/// Why no record was read.
#[derive(Clone, Copy, Debug, PartialEq, Eq, Error)]
pub enum JournalFault {
    /// The text is no record, and goes wrong at this place: the offset in bytes of the first line that does not fit.
    #[error("bad record at byte {0}")]
    Bad(u64),
    /// The header tells that the first entry has this number, which is above 1: what came before it stands elsewhere. What
    /// follows the header was not looked at.
    #[error("late record: first entry {0}")]
    Late(u64),
    /// There was no memory.
    #[error("out of memory")]
    Memory,
}

impl From<Memory> for JournalFault {
    ghost use Rattle.std.specs.Prelude.{◌≡◌};
    ghost use Rattle.r9_journal.specs.declared.reading.JournalFault.TheVariants as fault;

    ghost from_gives = { λ _ e. e ≡ fault.Memory };

    fn from(_: Memory) -> Self {
        JournalFault::Memory
    }
}

/// The number of the first entry behind the header that a text begins with, and what stands behind the header.
fn behind_header(text: &[u8]) -> Option<(u64, &[u8])>
    ensures found { IfSome result (λ parts. IsHeaded text.now parts.0 parts.1.now) }
    ensures none { IfNone result ((n : ℕ) (rest : List ℕ) → IsHeaded text.now n rest → ⊥) }
{
    let (header, rest) = cut(b'\n', text)?;
    let first = first_number(header)?;
    Some((first, rest))
}

/// A text that is a record of a history, from which the events are taken one after the other. Contracts see it as those
/// that were not taken. It holds the text and nothing beside.
#[derive(Debug, Drop)]
pub struct Record<'a> {
    lines: &'a [u8],
}

impl<'a> Model for Record<'a> {
    ghost use Rattle.std.specs.Prelude.{List};
    ghost use Rattle.r9_event.specs.declared.event.event.Event.{Event};
    ghost use Rattle.r9_journal.specs.Rest.{AreLinesOf, events_in};

    ghost Value = { List Event };

    ghost view = { λ r. events_in r.lines.now };

    ghost invariant = { λ r. AreLinesOf (events_in r.lines.now) r.lines.now };
}

impl<'a> Record<'a> {
    /// The record that a text is (a header line, and a line for each event). The whole text is checked, unless the header tells
    /// a number above 1.
    pub fn check(alloc: Global, text: &'a [u8]) -> Result<Record<'a>, JournalFault>
        // What is found has this text as a record.
        ensures found { IfOk result (IsRecord text.now) }
        // A record is found, unless memory runs out, and it is a record of no other history.
        ensures only { (events : List Event) → IsRecord text.now events →
            MatchResult result (λ found. found ≡ events) (λ fault. fault ≡ JournalFault.Memory) }
        // What is no record, and not late, goes wrong at the place that is told.
        ensures bad { (place : ℕ) → result ≡ Err (JournalFault.Bad place) → IsBadAt text.now place }
        // A text is late exactly where that is told.
        ensures late { (n : ℕ) → (result ≡ Err (JournalFault.Late n)) ↔ IsLate text.now n }
    {
        if text.len() >= TEXT_LIMIT {
            return Err(JournalFault::Bad(TEXT_LIMIT as u64));
        }
        let Some((first, lines)) = behind_header(text) else {
            return Err(JournalFault::Bad(0));
        };
        if first > 1 {
            return Err(JournalFault::Late(first));
        }
        let mut roll = Roll::new(alloc);
        let mut rest = lines;
        'lines: while !rest.is_empty() {
            let place = (text.len() - rest.len()) as u64;
            let Some((line, behind)) = cut(b'\n', rest) else {
                return Err(JournalFault::Bad(place));
            };
            let fits = enter_line(alloc, &mut roll, line)?;
            if !fits {
                return Err(JournalFault::Bad(place));
            }
            rest = behind;
        }
        Ok(Record { lines })
    }

    /// Takes the first event. For want of memory it stays the first.
    pub fn pop_first(&mut self, alloc: Global) -> Result<Option<Event>, Memory>
        ensures first { IfOk result (λ found. IfSome found (λ event. self.old ≡ event ∷ self.new)) }
        ensures none { IfOk result (λ found. IfNone found (self.old ≡ [])) }
        ensures err { OnErr result (self.new ≡ self.old) }
    {
        let Some((line, behind)) = cut(b'\n', self.lines) else {
            return Ok(None);
        };
        let event = event_of(alloc, line)?;
        self.lines = behind;
        Ok(event)
    }
}

/// The history whose record a text is (a header line, and a line for each event).
pub fn read_record(alloc: Global, text: &[u8]) -> Result<Entries, JournalFault>
    // What is read has this text as a record.
    ensures found { IfOk result (IsRecord text.now) }
    // A record is read, unless memory runs out, and it is a record of no other history.
    ensures only { (events : List Event) → IsRecord text.now events →
        MatchResult result (λ read. read ≡ events) (λ fault. fault ≡ JournalFault.Memory) }
    // What is no record, and not late, goes wrong at the place that is told.
    ensures bad { (place : ℕ) → result ≡ Err (JournalFault.Bad place) → IsBadAt text.now place }
    // A text is late exactly where that is told.
    ensures late { (n : ℕ) → (result ≡ Err (JournalFault.Late n)) ↔ IsLate text.now n }
{
    let mut left = Record::check(alloc, text)?;
    let mut entries = Entries::new(alloc);
    'events: while let Some(event) = left.pop_first(alloc)? {
        entries.push(event)?;
    }
    Ok(entries)
}
