//! A session of a history, watched one entry after the other.

ghost use Rattle.std.specs.Prelude.{◌≡◌, [], true, IfErr, OnErr, OnOk};
ghost use Rattle.model_alone.specs.alone.Own.{is_empty, judged_by, unseen};
ghost use Rattle.r9_isol.specs.watch.Words.{IsWhole};

use crate::watch::items::Items;
use crate::watch::reasons::{Seen, is_by, judge};
use crate::watch::telling::told;
use r9_event::event::{Did, Entry};
use r9_memory::Memory;
use std::alloc::Global;
use std::marker::Model;

/// Why a session is watched no longer.
#[derive(Clone, Copy, Debug, PartialEq, Eq)]
pub enum WatchFault {
    /// It is not alone with its window from the entry of this number on, by the number of the lowest reason.
    NotAlone { entry: u64, reason: u8 },
    /// There was no memory.
    Memory,
}

impl From<Memory> for WatchFault {
    ghost use Rattle.std.specs.Prelude.{◌≡◌};
    ghost use Rattle.r9_isol.specs.declared.watch.watch.WatchFault.TheVariants as fault;

    ghost from_gives = { λ _ e. e ≡ fault.Memory };

    fn from(_: Memory) -> Self {
        WatchFault::Memory
    }
}

/// A session by its number, what is known of it so far, and what it was told.
#[derive(Debug, Drop)]
pub struct Watch {
    alloc: Global,
    session: u32,
    seen: Seen,
    items: Items,
}

impl Model for Watch {
    ghost use Rattle.r9_isol.specs.watch.Watching.{Watching, watching_of};

    ghost Value = { Watching };

    ghost view = { watching_of };
}

impl Watch {
    ghost use Rattle.r9_isol.specs.watch.Watching.{after_judged, shown, IsNotAlone};

    /// A session of which nothing is known.
    pub fn new(alloc: Global, session: u32) -> Self
        ensures { result ≡ record { session = session; seen = unseen; items = [] } }
    {
        Watch {
            alloc,
            session,
            seen: Seen {
                attached: false,
                window: None,
            },
            items: Items::new(alloc),
        }
    }

    /// Sees the next entry of the history and what it gave. NotAlone exactly where what it used gives a reason for which the
    /// session is not alone with its window; else what the session is told comes as one step behind those that there are. After an
    /// `Err` all is as before.
    #[tactic(auto, unfolding(model_alone::specs::alone::Own::judged_by))]
    pub fn see(&mut self, entry: &Entry, did: &Did) -> Result<(), WatchFault>
        requires { IsWhole entry.now.event }
        ensures alone { OnOk result (is_empty (shown self.old entry.now did.now).reasons ≡ true) }
        ensures told { OnOk result (self.new ≡ after_judged self.old (shown self.old entry.now did.now)) }
        ensures refused { IfErr result (IsNotAlone entry.now.number (shown self.old entry.now did.now)) }
        ensures kept { OnErr result (self.new ≡ self.old) }
    {
        let own = is_by(self.session, &entry.event);
        let judged = judge(own, self.seen, did.uses.as_slice());
        if let Some(reason) = judged.reason {
            return Err(WatchFault::NotAlone {
                entry: entry.number,
                reason,
            });
        }
        let step = told(self.alloc, self.session, &judged.seen, &entry.event, did)?;
        if !step.is_empty() {
            self.items.push(step)?;
        }
        self.seen = judged.seen;
        Ok(())
    }

    /// What the session was told so far.
    pub fn items(&self) -> &Items
        ensures { result.now ≡ self.now.items }
    {
        &self.items
    }
}
