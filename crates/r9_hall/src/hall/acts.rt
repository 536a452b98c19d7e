//! What a session may ask of the hall in a turn.

ghost use Rattle.std.specs.Prelude.{◌≡◌, ◌<◌, ◌-◌, ◌^◌, ◌↔◌, true, false, IsFalse, IsTrue};
ghost use Rattle.model_text.specs.text.Map.{lookup};
ghost use Rattle.r9_event.specs.declared.event.ask.Ask.{Ask};
ghost use Rattle.r9_event.specs.declared.event.ask.Answer.{Answer};
ghost use Rattle.r9_event.specs.declared.event.event.Event.{Event};
ghost use Rattle.r9_hall.specs.hall.Acts.{HasGivenUp, IsAct, IsCounted, IsDone, IsHeard};
ghost use Rattle.r9_hall.specs.hall.HallView.{StandsForMore, entries};
ghost use Rattle.r9_hall.specs.hall.WorldView.{world_in};

use crate::hall::hall::Hall;
use r9_event::event::{Answer, Ask, Did, Event};
use r9_lock::{Acted, bell_of};
use r9_marks::steps::Steps;
use r9_text::Bytes;
use std::sync::ledger::Ledger;

/// An answer to an ask that made no event.
fn told(answer: Answer) -> Acted<Answer>
    ensures { result ≡ record { answer = answer; entered = false; rings = 0 } }
{
    Acted {
        answer,
        entered: false,
        rings: 0,
    }
}

/// An answer to an ask that made an event, and the bells that are to be rung for it.
fn made(answer: Answer, rings: u64) -> Acted<Answer>
    ensures { result ≡ record { answer = answer; entered = true; rings = rings } }
{
    Acted {
        answer,
        entered: true,
        rings,
    }
}

/// The bells of the other sessions to which an event of a session gave replies. Who asked rings its own bell.
fn bells_of_others(session: u32, did: &Did) -> u64 {
    let mut bells = 0;
    for reply in did.replies.as_slice() {
        if reply.session != session {
            bells |= bell_of(reply.session);
        }
    }
    bells
}

impl Hall {
    /// Does what a session asks: it makes the event, or for want of memory a Stop, or none. It makes a Stop where the event broke the
    /// hall, and always where memory ran out in the end of a session. After a Stop each ask is answered by `Memory`. Where nothing was
    /// entered the hall is as before. Each pixel that the event wrote is counted in `pixels`; a Stop writes none.
    pub fn act<L: Ledger>(&mut self, ask: Ask, pixels: &mut Steps<L>) -> Acted<Answer>
        requires { entries self.old < 2 ^ 61 }
        ensures opening { self.new.opening ≡ self.old.opening }
        ensures first { self.new.first ≡ self.old.first }
        ensures history { IsAct self.old ask result self.new }
        ensures whole { result.entered ≡ false → self.new.broken ≡ self.old.broken }
        // It writes at most the pixels that its entry costs, and none where it made none.
        ensures pixels { IsCounted self.old result self.new pixels.old pixels.new }
    {
        if !self.can(&Event::Stop) {
            return told(Answer::Memory);
        }
        if self.broken {
            return self.stop(pixels);
        }
        match ask {
            Ask::Begin => self.begin(pixels),
            Ask::Msg { session, bytes } => self.hear(session, bytes, pixels),
            Ask::Look { session } => self.look(session, pixels),
            Ask::End { session } => self.end(session, pixels),
        }
    }

    /// Makes a Stop. All are rung for it: from now on each look is answered otherwise.
    fn stop<L: Ledger>(&mut self, pixels: &mut Steps<L>) -> Acted<Answer>
        requires going { IsFalse self.old.roll.stopped }
        requires room { entries self.old < 2 ^ 61 }
        ensures opening { self.new.opening ≡ self.old.opening }
        ensures first { self.new.first ≡ self.old.first }
        ensures answer { result ≡ record { answer = Answer.Memory; entered = true; rings = 2 ^ 64 - 1 } }
        ensures entered { StandsForMore self.old Event.Stop self.new }
        ensures silent { pixels.new ≡ pixels.old }
    {
        let _ = self.event(Event::Stop, pixels);
        made(Answer::Memory, u64::MAX)
    }

    /// After want of memory in an event: makes a Stop where the hall is broken, and else nothing.
    fn give_up<L: Ledger>(&mut self, pixels: &mut Steps<L>) -> Acted<Answer>
        requires going { IsFalse self.old.roll.stopped }
        requires room { entries self.old < 2 ^ 61 }
        ensures opening { self.new.opening ≡ self.old.opening }
        ensures first { self.new.first ≡ self.old.first }
        ensures answer { result.answer ≡ Answer.Memory }
        ensures entered { HasGivenUp self.old self.new result.entered }
        ensures whole { result.entered ≡ false → self.new.broken ≡ false }
        ensures silent { pixels.new ≡ pixels.old }
    {
        if self.broken {
            return self.stop(pixels);
        }
        told(Answer::Memory)
    }

    fn begin<L: Ledger>(&mut self, pixels: &mut Steps<L>) -> Acted<Answer>
        requires going { IsFalse self.old.roll.stopped }
        requires whole { self.old.broken ≡ false }
        requires room { entries self.old < 2 ^ 61 }
        ensures opening { self.new.opening ≡ self.old.opening }
        ensures first { self.new.first ≡ self.old.first }
        ensures history { IsAct self.old Ask.Begin result self.new }
        ensures whole { result.entered ≡ false → self.new.broken ≡ false }
        ensures pixels { IsCounted self.old result self.new pixels.old pixels.new }
    {
        let Some(session) = self.world.begun().checked_add(1) else {
            return told(Answer::Crowded);
        };
        let event = Event::Begin { session };
        if !self.can(&event) {
            return told(Answer::Crowded);
        }
        let Ok(_) = self.event(event, pixels) else {
            return self.give_up(pixels);
        };
        made(Answer::Began(session), 0)
    }

    /// The answer to a message that was taken.
    fn heard(&self, session: u32) -> Answer
        ensures { IsHeard (lookup (world_in self.now.world).sessions session) result }
    {
        match self.world.closed_by(session) {
            Some(tag) => Answer::Duplicate(tag),
            None => Answer::Went {
                msize: self.world.session_size(session).unwrap_or(0),
            },
        }
    }

    fn hear<L: Ledger>(
        &mut self,
        session: u32,
        bytes: Bytes,
        pixels: &mut Steps<L>,
    ) -> Acted<Answer>
        requires going { IsFalse self.old.roll.stopped }
        requires whole { self.old.broken ≡ false }
        requires room { entries self.old < 2 ^ 61 }
        ensures opening { self.new.opening ≡ self.old.opening }
        ensures first { self.new.first ≡ self.old.first }
        ensures history { IsAct self.old (Ask.Msg session bytes) result self.new }
        ensures whole { result.entered ≡ false → self.new.broken ≡ false }
        ensures pixels { IsCounted self.old result self.new pixels.old pixels.new }
    {
        let event = Event::Msg {
            session,
            bytes,
            mark: None,
        };
        if !self.can(&event) {
            return told(Answer::Closed);
        }
        let Ok(did) = self.event(event, pixels) else {
            return self.give_up(pixels);
        };
        made(self.heard(session), bells_of_others(session, &did))
    }

    /// Whether a session that has begun gets no more messages.
    fn is_done(&self, session: u32) -> bool
        ensures { IsTrue result ↔ IsDone (lookup (world_in self.now.world).sessions session) }
    {
        self.world.session_size(session).is_none() || self.world.closed_by(session).is_some()
    }

    fn look<L: Ledger>(&mut self, session: u32, pixels: &mut Steps<L>) -> Acted<Answer>
        requires going { IsFalse self.old.roll.stopped }
        requires whole { self.old.broken ≡ false }
        requires room { entries self.old < 2 ^ 61 }
        ensures opening { self.new.opening ≡ self.old.opening }
        ensures first { self.new.first ≡ self.old.first }
        ensures history { IsAct self.old (Ask.Look session) result self.new }
        ensures whole { result.entered ≡ false → self.new.broken ≡ false }
        ensures pixels { IsCounted self.old result self.new pixels.old pixels.new }
    {
        let event = Event::Take { session };
        if !self.can(&event) {
            return told(Answer::Nothing);
        }
        if self.outbox(session).is_empty() {
            if self.is_done(session) {
                return told(Answer::Over);
            }
            return told(Answer::Nothing);
        }
        let Ok(given) = self.make(event, pixels) else {
            return self.give_up(pixels);
        };
        made(Answer::Taken(given.taken), 0)
    }

    fn end<L: Ledger>(&mut self, session: u32, pixels: &mut Steps<L>) -> Acted<Answer>
        requires going { IsFalse self.old.roll.stopped }
        requires whole { self.old.broken ≡ false }
        requires room { entries self.old < 2 ^ 61 }
        ensures opening { self.new.opening ≡ self.old.opening }
        ensures first { self.new.first ≡ self.old.first }
        ensures history { IsAct self.old (Ask.End session) result self.new }
        ensures whole { result.entered ≡ false → self.new.broken ≡ false }
        ensures pixels { IsCounted self.old result self.new pixels.old pixels.new }
    {
        let event = Event::End { session };
        if !self.can(&event) {
            return told(Answer::Closed);
        }
        let Ok(did) = self.event(event, pixels) else {
            return self.stop(pixels);
        };
        made(Answer::Ended, bells_of_others(session, &did))
    }
}
