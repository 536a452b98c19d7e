//! Which events may come next.

ghost use Rattle.std.specs.Prelude.{◌≡◌, ◌==◌, ◌↔◌, not, filter, Contains, IsTrue, IsFalse, OnOk, OnErr, IsOk};
ghost use Rattle.model_history.specs.event.Legal.{Allowed, AllowedTo, IsMessage, no_sessions, roll_after};

use r9_event::event::Event;
use r9_memory::Memory;
use std::alloc::Global;
use std::marker::Model;

/// So many sessions live at once at most.
const MAX_LIVE: usize = 1024;

/// The greatest mark.
pub(crate) const MAX_MARK: u32 = 65_535;

/// The sessions of a history: how many have begun, which of them live, and whether all has stopped.
#[derive(Debug, Drop)]
pub struct Roll {
    begun: u32,
    live: Vec<u32>,
    stopped: bool,
}

impl Model for Roll {
    ghost use Rattle.model_history.specs.event.Legal as model;

    ghost Value = { model.Roll };

    ghost view = { λ r. record { begun = r.begun; live = r.live.items; stopped = r.stopped } };
}

/// Whether bytes are a whole message: as many as their first four say, and not too many.
fn is_message(bytes: &[u8]) -> bool
    ensures { IsTrue result ↔ IsMessage bytes.now }
{
    bytes.len() >= 7
        && bytes.len() <= 65_560
        && bytes.starts_with(&(bytes.len() as u32).to_le_bytes())
}

impl Roll {
    /// No session has begun.
    pub fn new(alloc: Global) -> Self
        ensures { result ≡ no_sessions }
    {
        Roll {
            begun: 0,
            live: Vec::new(alloc),
            stopped: false,
        }
    }

    /// Whether a session lives.
    fn lives(&self, session: u32) -> bool
        ensures { IsTrue result ↔ Contains self.now.live session }
    {
        self.live.contains(&session)
    }

    fn allows_to(&self, event: &Event) -> bool
        ensures { IsTrue result ↔ AllowedTo self.now event.now }
    {
        match event {
            Event::Begin { session } => {
                self.begun < u32::MAX && *session == self.begun + 1 && self.live.len() < MAX_LIVE
            }
            Event::Msg {
                session,
                bytes,
                mark,
            } => {
                self.lives(*session)
                    && is_message(bytes.as_slice())
                    && mark.is_none_or(|k| k <= MAX_MARK)
            }
            Event::Take { session } => 1 <= *session && *session <= self.begun,
            Event::End { session } => self.lives(*session),
            Event::Stop => true,
        }
    }

    /// Whether an event may come next.
    pub fn allows(&self, event: &Event) -> bool
        ensures { IsTrue result ↔ Allowed self.now event.now }
    {
        !self.stopped && self.allows_to(event)
    }

    /// Whether a message of a session may come next.
    pub(crate) fn hears(&self, session: u32) -> bool
        ensures { IsTrue result ↔ (IsFalse self.now.stopped × Contains self.now.live session) }
    {
        !self.stopped && self.lives(session)
    }

    fn leave(&mut self, session: u32)
        ensures { self.new ≡ record self.old { live = filter (λ d. not (d == session)) self.old.live } }
    {
        self.live.retain(|live| *live != session);
    }

    /// Enters an event. For want of memory the roll stays as it was; a Stop takes none.
    pub fn enter(&mut self, event: &Event) -> Result<(), Memory>
        ensures entered { OnOk result (self.new ≡ roll_after self.old event.now) }
        ensures err { OnErr result (self.new ≡ self.old) }
        ensures stop { event.now ≡ Event.Stop → IsOk result }
    {
        match event {
            Event::Begin { session } => {
                self.live.push(*session)?;
                self.begun = *session;
            }
            Event::Msg { .. } | Event::Take { .. } => {}
            Event::End { session } => self.leave(*session),
            Event::Stop => self.stopped = true,
        }
        Ok(())
    }
}
