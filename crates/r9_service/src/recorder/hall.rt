//! The hall is what a recorder keeps.
ghost use Rattle.std.specs.Prelude.{◌≡◌, ◌<◌, ◌^◌};
ghost use Rattle.r9_hall.specs.hall.Acts.{IsAct};
ghost use Rattle.r9_hall.specs.hall.HallView.{StandsFor, entries};
ghost use Rattle.r9_hall.proofs.hall.Stored.{stores};

use crate::recorder::keeps::Keeps;
use r9_event::event::{Answer, Ask, Entry, Event};
use r9_hall::hall::Hall;
use r9_lock::Acted;
use r9_marks::steps::Steps;
use std::alloc::Global;
use std::marker::Brand;
use std::sync::ledger::{Blank, Ledger};

/// Does what a session asks. Nobody asks how many pixels that writes.
fn act<L: Ledger>(hall: &mut Hall, ask: Ask, blank: Blank) -> Acted<Answer>
    requires name { blank.name ≡ L.name }
    requires parts { blank.parts ≡ L.parts }
    requires some { 0 < L.parts }
    requires room { entries hall.old < 2 ^ 61 }
    ensures opening { hall.new.opening ≡ hall.old.opening }
    ensures first { hall.new.first ≡ hall.old.first }
    ensures history { IsAct hall.old ask result hall.new }
{
    hall.act(ask, &mut Steps::<L>::new(blank))
}

impl Keeps for Hall {
    ghost opening = { λ h. h.opening };

    ghost first = { λ h. h.first };

    ghost stored = { λ h. h.stored };

    ghost stands = { StandsFor };

    fn act(&mut self, ask: Ask) -> Acted<Answer> {
        act::<Brand>(self, ask, Blank::new(1))
    }

    fn first(&self) -> u64 {
        Hall::first(self)
    }

    fn entries(&self) -> u64 {
        Hall::entries(self)
    }

    fn journal(&self) -> &[Entry] {
        Hall::journal(self)
    }

    fn forget(&mut self) {
        Hall::forget(self)
    }

    fn is_stopped(&self) -> bool {
        !self.can(&Event::Stop)
    }

    fn alloc(&self) -> Global {
        Hall::alloc(self)
    }

    ghost stands_for_stored = { stores };

    ghost lawful = { λ h history is. (is.numbered, is.legal) };
}
