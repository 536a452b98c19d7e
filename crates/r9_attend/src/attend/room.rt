//! A room: what the two threads of a session share, and what they ask there.
ghost use Rattle.std.specs.Prelude.{◌≡◌, ◌≤◌, ◌/◌, ◌^◌, ◌⊎◌, All, Contains, IfOk, IfErr};
ghost use Rattle.r9_event.specs.declared.event.event.Event.{Event};
ghost use Rattle.model_history.specs.event.Journal.{events_of};
ghost use Rattle.r9_attend.specs.attend.Sessions.{HasEnded};
ghost use Rattle.r9_attend.specs.attend.Passes.{GoesOn, made_since, Turned, NotTurned};

use crate::attend::muster::Muster;
use crate::attend::progress::Progress;
use crate::attend::serves::Serves;
use r9_event::event::{Answer, Ask};
use r9_lock::{Pass, Shared, Spent};
use std::alloc::Global;
use std::sync::Wait;

/// What two closures share: the handle, the allocator, the lock, the session, where they come together, and for how many entries all
/// replies to the session were put.
#[derive(Drop)]
pub(crate) struct Room<'a, 'b, T: Serves, R> {
    pub(crate) rt: &'a R,
    pub(crate) alloc: Global,
    pub(crate) lock: &'b Shared<T>,
    pub(crate) session: u32,
    pub(crate) both: Muster,
    pub(crate) put: Progress,
}

/// Asks in a turn. Where there are no more turns the word of the lock is answered.
pub(crate) fn ask<T: Serves, R: Wait>(
    rt: &R,
    lock: &Shared<T>,
    pass: &mut Pass<T>,
    ask: Ask,
) -> Result<Answer, u64>
    requires { pass.old.lock ≡ lock.now.id }
    ensures goes_on { GoesOn pass.old pass.new }
    ensures ok { IfOk result (λ answer. Turned T.server ask answer pass.old pass.new) }
    ensures err { IfErr result (λ count. NotTurned count pass.old pass.new) }
{
    match lock.turn(rt, pass, ask) {
        Ok(answer) => Ok(answer),
        Err(Spent { count, ask: _ }) => Err(count),
    }
}

/// Ends the session, if it lives.
pub(crate) fn end_session<T: Serves, R: Wait>(room: &Room<'_, '_, T, R>, pass: &mut Pass<T>)
    requires { pass.old.lock ≡ room.now.lock.now.id }
    ensures goes_on { GoesOn pass.old pass.new }
    ensures made { All (λ m. (m.1.event ≡ Event.End room.now.session) ⊎ (m.1.event ≡ Event.Stop)) (made_since pass.old pass.new) }
    ensures ended { Contains (events_of pass.old.seen) (Event.Begin room.now.session) → HasEnded room.now.session pass.new }
{
    let session = room.session;
    let _ = ask(room.rt, room.lock, pass, Ask::End { session });
}
