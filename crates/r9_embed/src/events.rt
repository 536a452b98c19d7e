//! The record of what happened, and the making of events that a record has.

ghost use Rattle.std.specs.Prelude.{◌≡◌, ◌+◌, ◌<◌, ◌≤◌, ◌^◌, ℕ, List, [], false, length, take, Err, IfOk, OnOk, OnErr, IsErrOf};
ghost use Rattle.r9_event.specs.declared.event.event.Event.{Event};
ghost use Rattle.model_history.specs.event.Journal.{events_of};
ghost use Rattle.model_history.specs.records.Record.{IsBadAt, IsLate, IsRecord, record_from};
ghost use Rattle.r9_embed.specs.Events.{AreMade, AreMadeInPart};
ghost use Rattle.r9_hall.specs.hall.Acts.{IsMadeOf};
ghost use Rattle.r9_hall.specs.hall.HallView.{AllowedNext, IsAsStored, StandsOn, entries};

use crate::embedded::{Embedded, MOST_ENTRIES};
use r9_event::event::{Did, Event};
use r9_hall::hall::Hall;
use r9_journal::{JournalFault, Record, write_entry, write_header};
use r9_marks::steps::Steps;
use r9_memory::Memory;
use r9_text::Bytes;
use std::marker::Brand;
use std::sync::ledger::{Blank, Ledger};

/// Why an event was not made.
#[derive(Clone, Copy, Debug, PartialEq, Eq)]
pub enum EventFault {
    /// The event may not come next.
    NotAllowed,
    /// The history has 2^61 entries, and takes no more.
    Full,
    /// There was no memory. The history is as it was, and the display may be broken.
    Memory,
}

impl From<Memory> for EventFault {
    ghost use Rattle.std.specs.Prelude.{◌≡◌};
    ghost use Rattle.r9_embed.specs.declared.events.EventFault.TheVariants as fault;

    ghost from_gives = { λ _ e. e ≡ fault.Memory };

    fn from(_: Memory) -> Self {
        EventFault::Memory
    }
}

/// Why a record was not loaded.
#[derive(Clone, Copy, Debug, PartialEq, Eq)]
pub enum LoadFault {
    /// The text is no record, and goes wrong at this place, in bytes. Nothing was made.
    Bad(u64),
    /// The text is the part of a record from this entry on. Nothing was made.
    Late(u64),
    /// An event was not made. Those before it were.
    Event(EventFault),
    /// There was no memory to read the record. The events before were made.
    Memory,
}

impl From<JournalFault> for LoadFault {
    ghost use Rattle.std.specs.Prelude.{◌≡◌};
    ghost use Rattle.r9_embed.specs.Events.{fault_of};

    ghost from_gives = { λ fault e. e ≡ fault_of fault };

    fn from(fault: JournalFault) -> Self {
        match fault {
            JournalFault::Bad(place) => LoadFault::Bad(place),
            JournalFault::Late(first) => LoadFault::Late(first),
            JournalFault::Memory => LoadFault::Memory,
        }
    }
}

// Makes an event that may come next.
fn made<L: Ledger>(hall: &mut Hall, event: Event, blank: Blank) -> Result<Did, Memory>
    requires name { blank.name ≡ L.name }
    requires parts { blank.parts ≡ L.parts }
    requires some { 0 < L.parts }
    requires can { AllowedNext hall.old event }
    requires room { entries hall.old < 2 ^ 61 }
    ensures opening { hall.new.opening ≡ hall.old.opening }
    ensures first { hall.new.first ≡ hall.old.first }
    ensures made { IfOk result (λ did. IsMadeOf hall.old event did hall.new) }
    ensures err { OnErr result (IsAsStored hall.old hall.new) }
{
    hall.event(event, &mut Steps::<L>::new(blank))
}

impl Embedded {
    /// Makes an event, if it may come next: its entry is one more, with the mark that is told if memory ran out in a data write.
    pub fn make(&mut self, event: Event) -> Result<Did, EventFault>
        ensures opening { self.new.hall.opening ≡ self.old.hall.opening }
        ensures first { self.new.hall.first ≡ self.old.hall.first }
        ensures made { IfOk result (λ did. IsMadeOf self.old.hall event did self.new.hall) }
        ensures refused { IsErrOf result EventFault.NotAllowed → AllowedNext self.old.hall event → ⊥ }
        ensures full { IsErrOf result EventFault.Full → entries self.old.hall ≡ 2 ^ 61 }
        ensures err { OnErr result (IsAsStored self.old.hall self.new.hall) }
    {
        if self.hall.entries() >= MOST_ENTRIES {
            return Err(EventFault::Full);
        }
        if !self.hall.can(&event) {
            return Err(EventFault::NotAllowed);
        }
        let did = made::<Brand>(&mut self.hall, event, Blank::new(1))?;
        Ok(did)
    }

    /// Makes the events of a record, one after the other, behind those that were made. Of each the mark that is told stands in the
    /// history, if memory ran out in its data write.
    pub fn load(&mut self, text: &[u8]) -> Result<(), LoadFault>
        ensures opening { self.new.hall.opening ≡ self.old.hall.opening }
        ensures first { self.new.hall.first ≡ self.old.hall.first }
        ensures loaded { OnOk result ((events : List Event) × IsRecord text.now events × AreMade self.old.hall events self.new.hall) }
        ensures bad { (place : ℕ) → result ≡ Err (LoadFault.Bad place) → IsBadAt text.now place }
        ensures late { (n : ℕ) → result ≡ Err (LoadFault.Late n) → IsLate text.now n }
        ensures part { OnErr result (AreMadeInPart self.old.hall self.new.hall) }
    {
        let alloc = self.hall.alloc();
        let mut left = Record::check(alloc, text)?;
        'events: loop {
            let Ok(first) = left.pop_first(alloc) else {
                return Err(LoadFault::Memory);
            };
            let Some(event) = first else {
                return Ok(());
            };
            if let Err(fault) = self.make(event) {
                return Err(LoadFault::Event(fault));
            }
        }
    }

    /// The record of the entries that are stored. Its header tells the number of the first.
    pub fn record(&self) -> Result<Bytes, Memory>
        ensures { IfOk result (λ text. text ≡ record_from self.now.hall.first (events_of self.now.hall.stored)) }
    {
        let mut text = Bytes::new(self.hall.alloc());
        write_header(self.hall.alloc(), self.hall.first(), &mut text)?;
        let entries = self.hall.journal();
        'entries: for entry in entries {
            write_entry(entry, &mut text)?;
        }
        Ok(text)
    }

    /// Forgets the entries that are stored. The history goes on. It takes no memory.
    pub fn forget(&mut self)
        ensures forgotten { self.new.hall ≡ record self.old.hall { first = entries self.old.hall + 1; stored = [] } }
        ensures stands { StandsOn self.old.hall self.new.hall }
    {
        self.hall.forget();
    }
}
