//! Reads that wait are answered after each event that may have given them something, until none can be (read(5)). Only those
//! sessions are asked that an event may have woken.

ghost use Rattle.std.specs.Prelude.{◌≡◌, ◌<◌, ℕ, IfOk, OnOk};
ghost use Rattle.model_text.specs.text.Map.{lookup};
ghost use Rattle.model_files.specs.wire.Spelling.{spelling_of_r, FitsR};
ghost use Rattle.model_world.specs.Links.{AreLinked, IsLinked};
ghost use Rattle.model_world.specs.Sleeping.{stirred};
ghost use Rattle.r9_desktop.specs.World.{began_of, desktop_of};
ghost use Rattle.r9_event.specs.declared.event.event.Opening.{Opening};
ghost use Rattle.r9_hall.specs.hall.Settling.{answered_at, world_of, AreAsked, AreWoken, GoesOn, IsLate, IsNext, IsSettled, WaitsAt};
ghost use Rattle.r9_hall.specs.hall.StateView.{world_with};
ghost use Rattle.r9_wire.specs.View.{r_of};

use crate::hall::sessions::Sessions;
use crate::shared::answer_waiting;
use r9_desktop::Desktop;
use r9_event::event::{Note, Replies, Reply};
use r9_memory::Memory;
use r9_session::Session;
use r9_wire::{Rmsg, reply_bytes};
use std::alloc::Global;
use std::collections::BTreeMap;

/// A session's reply in bytes.
pub(crate) fn spelled(alloc: Global, session: u32, reply: &Rmsg) -> Result<Reply, Memory>
    requires { FitsR (r_of reply.now) }
    ensures { IfOk result (λ r. r ≡ record { session = session; bytes = spelling_of_r (r_of reply.now) }) }
{
    let bytes = reply_bytes(alloc, reply)?;
    Ok(Reply { session, bytes })
}

/// Answers the earliest read of a session that can be answered: the reply, or None where none can.
fn answer_late(
    alloc: Global,
    found: &mut Session,
    desktop: &mut Desktop,
    session: u32,
) -> Result<Option<Reply>, Memory>
    requires { IsLinked session found.old.made found.old.connections (desktop_of desktop.old).device }
    ensures late { IfOk result (λ given. IsLate session found.old (desktop_of desktop.old) given found.new (desktop_of desktop.new)) }
    ensures began { began_of desktop.new ≡ began_of desktop.old }
{
    match answer_waiting(alloc, found, desktop, session)? {
        Some(reply) => Ok(Some(spelled(alloc, session, &reply)?)),
        None => Ok(None),
    }
}

/// The same of the session of a number, if it lives.
fn answer_at(
    alloc: Global,
    sessions: &mut BTreeMap<u32, Session>,
    desktop: &mut Desktop,
    session: u32,
) -> Result<Option<Reply>, Memory>
    requires { AreLinked (desktop_of desktop.old).device sessions.old.entries }
    ensures next { IfOk result (λ given. (opening : Opening) → IsNext (answered_at (world_of opening sessions.old.entries (desktop_of desktop.old)) session) (world_of opening sessions.old.entries (desktop_of desktop.old)) given (world_of opening sessions.new.entries (desktop_of desktop.new))) }
    ensures began { began_of desktop.new ≡ began_of desktop.old }
{
    match sessions.get_mut(&session) {
        Some(found) => {
            let given = answer_late(alloc, found, desktop, session)?;
            Ok(given)
        }
        None => Ok(None),
    }
}

/// The windows where something happened: the one of a file that was written, and those that were told something.
fn stirred(alloc: Global, notes: &[(u32, Note)], wrote: u32) -> Result<Vec<u32>, Memory>
    ensures { IfOk result (λ windows. windows.items ≡ stirred notes.now wrote) }
{
    let mut windows = Vec::new(alloc);
    windows.push(wrote)?;
    for (window, _) in notes {
        windows.push(*window)?;
    }
    Ok(windows)
}

impl Sessions {
    /// The sessions to ask after an event in which something happened at these windows, in ascending order: those whose reads that
    /// may have woken, and that of the event where reads of it wait.
    fn woken_at(&self, alloc: Global, session: u32, windows: &[u32]) -> Result<Vec<u32>, Memory>
        ensures { IfOk result (λ asked. AreWoken session windows.now self.now.live.entries asked.items) }
    {
        let mut asked = Vec::new(alloc);
        for (number, found) in &self.live {
            if found.may_wake(windows) || *number == session && found.is_waiting() {
                asked.push(*number)?;
            }
        }
        Ok(asked)
    }

    /// The sessions to ask after an event, in ascending order: those whose reads something may have woken, and that of the event
    /// where reads of it wait.
    pub(crate) fn woken(&self, alloc: Global, session: u32, wrote: u32) -> Result<Vec<u32>, Memory>
        ensures { IfOk result (λ asked. AreWoken session (stirred (desktop_of self.now.desktop).notes wrote) self.now.live.entries asked.items) }
    {
        // Most events tell one note at most, and then no list is made.
        match self.desktop.notes() {
            [] => self.woken_at(alloc, session, &[wrote]),
            [told] => self.woken_at(alloc, session, &[wrote, told.0]),
            notes => {
                let windows = stirred(alloc, notes, wrote)?;
                self.woken_at(alloc, session, &windows)
            }
        }
    }

    /// Answers reads of a session, each time the earliest that can be, until none can be any more. No session below has one that
    /// can be. The replies come after those that there are.
    fn settle_one(
        &mut self,
        alloc: Global,
        session: u32,
        replies: &mut Replies,
    ) -> Result<(), Memory>
        requires linked { AreLinked (desktop_of self.old.desktop).device self.old.live.entries }
        requires below { (c : ℕ) → c < session → WaitsAt self.old.live.entries (desktop_of self.old.desktop) c }
        ensures linked { OnOk result (AreLinked (desktop_of self.new.desktop).device self.new.live.entries) }
        ensures waits { OnOk result (WaitsAt self.new.live.entries (desktop_of self.new.desktop) session) }
        ensures others { OnOk result ((c : ℕ) → WaitsAt self.old.live.entries (desktop_of self.old.desktop) c → WaitsAt self.new.live.entries (desktop_of self.new.desktop) c) }
        ensures began { began_of self.new.desktop ≡ began_of self.old.desktop }
        ensures replies { OnOk result ((opening : Opening) → GoesOn (world_with opening self.old) replies.old (world_with opening self.new) replies.new) }
    {
        while let Some(reply) = answer_at(alloc, &mut self.live, &mut self.desktop, session)? {
            replies.push(reply)?;
        }
        Ok(())
    }

    /// Answers reads that wait, each time the earliest of the lowest session that has one that can be, until none can be any
    /// more. Only these sessions may have such reads, and a late answer wakes no other. The replies come after those that there are.
    pub(crate) fn settle(
        &mut self,
        alloc: Global,
        asked: &[u32],
        replies: &mut Replies,
    ) -> Result<(), Memory>
        requires linked { AreLinked (desktop_of self.old.desktop).device self.old.live.entries }
        requires asked { AreAsked self.old.live.entries (desktop_of self.old.desktop) asked.now }
        ensures settled { OnOk result ((opening : Opening) → IsSettled (world_with opening self.old) replies.old (world_with opening self.new) replies.new) }
        ensures began { began_of self.new.desktop ≡ began_of self.old.desktop }
    {
        for session in asked {
            self.settle_one(alloc, *session, replies)?;
        }
        Ok(())
    }
}
