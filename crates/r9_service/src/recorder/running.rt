//! A recorder under the lock.
ghost use Rattle.std.specs.Prelude.{◌≡◌, ◌+◌, ◌-◌, [], length, None};
ghost use Rattle.r9_event.specs.declared.event.event.Opening.{Opening};
ghost use Rattle.model_served.specs.session.Acts.{May};
ghost use Rattle.model_served.specs.served.Served.{served};
ghost use Rattle.r9_service.specs.recorder.Recording.{Loan, Records};
ghost use Rattle.model_served.proofs.served.Laws.{is_server};

use crate::recorder::keeps::Keeps;
use crate::recorder::recorder::Recorder;
use r9_attend::attend::Serves;
use r9_event::event::{Answer, Ask, Entry};
use r9_lock::{Acted, Chronicle};
use r9_outside::outside::Sink;
use std::marker::{Brand, PhantomData};

/// What a run began with. The call that starts the lock picks it.
pub trait Runs {
    /// The display with which its hall started.
    ghost opening: { Opening };

    /// The sink as it was lent.
    ghost loan: { Loan };
}

impl Runs for Brand {
    ghost opening = { record { width = 0; height = 0; chan = 0 } };

    ghost loan = { record { name = 0; held = None; faults = 0 } };
}

/// The recorder of a run.
#[derive(Drop)]
pub struct Running<'a, H, O, J> {
    pub recorder: Recorder<'a, H, O>,
    pub of: PhantomData<J>,
}

impl<'a, H, O, J> Running<'a, H, O, J> {
    /// A run with this recorder.
    pub fn new(recorder: Recorder<'a, H, O>) -> Running<'a, H, O, J>
        ensures { result.recorder ≡ recorder.entry }
    {
        Running {
            recorder,
            of: PhantomData,
        }
    }
}

impl<'a, H: Keeps, O: Sink, J: Runs> Chronicle for Running<'a, H, O, J> {
    type Ask = Ask;

    type Answer = Answer;

    type Entry = Entry;

    ghost stored = { λ r. H.stored r.recorder.hall };

    ghost first = { λ r. H.first r.recorder.hall };

    ghost entries = { λ r. H.first r.recorder.hall - 1 + length (H.stored r.recorder.hall) };

    ghost stands = { λ r history. Records H.first H.stands O.held O.faults J.loan r.recorder history × (H.opening r.recorder.hall ≡ J.opening) };

    ghost acts = { May (served J.opening) };

    ghost stands_for_stored = { λ r history is. H.stands_for_stored r.recorder.hall history is.0.stood };

    fn act(&mut self, ask: Ask) -> Acted<Answer> {
        self.recorder.act(ask)
    }

    fn entries(&self) -> u64 {
        self.recorder.hall.entries()
    }

    fn first(&self) -> u64 {
        self.recorder.hall.first()
    }
}

impl<'a, H: Keeps, O: Sink, J: Runs> Serves for Running<'a, H, O, J> {
    ghost server = { served J.opening };

    ghost lawful = { is_server J.opening };

    ghost does_only = { λ before after ask answer may. may };
}
