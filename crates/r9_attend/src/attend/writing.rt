//! The writer of a session.
ghost use Rattle.std.specs.Prelude.{◌≡◌, ◌≤◌, ◌⊎◌, List, ℕ, All, Some, true, false};
ghost use Rattle.r9_event.specs.declared.event.event.Event.{Event};
ghost use Rattle.r9_event.specs.declared.event.event.Entry.{Entry};
ghost use Rattle.r9_outside.specs.outside.Count.{Rose};
ghost use Rattle.model_history.specs.event.Journal.{events_of};
ghost use Rattle.model_served.specs.session.Server.{is_take};
ghost use Rattle.r9_attend.specs.attend.Passes.{GoesOn, made_since, IsOwn};
ghost use Rattle.r9_attend.specs.attend.Sessions.{IsWritten};
ghost use Rattle.r9_attend.specs.attend.Steps.{IsLooked, IsPut, IsSpent, HasGivenUp, HasWritten};

use crate::attend::ends::WriteEnd;
use crate::attend::room::{Room, ask, end_session};
use crate::attend::serves::Serves;
use r9_event::event::{Answer, Ask};
use r9_lock::Pass;
use r9_outside::outside::{Failed, Sink, SinkFault, put_all};
use r9_text::Bytes;
use std::sync::Wait;

/// Takes what waits, if anything does.
fn look<T: Serves, R: Wait>(
    room: &Room<'_, '_, T, R>,
    pass: &mut Pass<T>,
) -> Result<Option<Bytes>, WriteEnd>
    requires { pass.old.lock ≡ room.now.lock.now.id }
    ensures goes_on { GoesOn pass.old pass.new }
    ensures looked { IsLooked T.server room.now.session result pass.old pass.new }
{
    let session = room.session;
    match ask(room.rt, room.lock, pass, Ask::Look { session }) {
        Ok(Answer::Taken(bytes)) => Ok(Some(bytes)),
        Ok(Answer::Nothing) => Ok(None),
        Ok(Answer::Over) => Err(WriteEnd::Done),
        Ok(Answer::Memory) => Err(WriteEnd::Memory),
        Err(count) => Err(WriteEnd::Spent(count)),
        Ok(_) => unreachable!(),
    }
}

/// Puts a piece, and sends it on.
fn put<O: Sink>(output: &mut O, piece: &[u8]) -> Option<WriteEnd>
    ensures put { IsPut (O.held output.old) piece.now (O.held output.new) (O.unflushed output.new) result }
    ensures failed { result ≡ Some WriteEnd.WriteFault → Rose (O.faults output.old) (O.faults output.new) }
    ensures counted { O.faults output.old ≤ O.faults output.new }
{
    match put_all(output, piece) {
        Ok(()) => {}
        Err(SinkFault::Failed) => return Some(WriteEnd::WriteFault),
        Err(SinkFault::Memory) => return Some(WriteEnd::Memory),
    }
    match output.flush() {
        Ok(()) => None,
        Err(Failed) => Some(WriteEnd::WriteFault),
    }
}

/// Puts what waits into the sink, again and again, until an end, if the reader has come. The reader is told how far all was put.
fn write_on<T: Serves, O: Sink, R: Wait>(
    room: &Room<'_, '_, T, R>,
    pass: &mut Pass<T>,
    output: &mut O,
) -> WriteEnd
    requires { pass.old.lock ≡ room.now.lock.now.id }
    ensures goes_on { GoesOn pass.old pass.new }
    ensures made { All (λ m. (is_take room.now.session m.1.event ≡ true) ⊎ (m.1.event ≡ Event.Stop)) (made_since pass.old pass.new) }
    ensures spent { IsSpent result pass.new }
    ensures failed { result ≡ WriteEnd.WriteFault → Rose (O.faults output.old) (O.faults output.new) }
    ensures counted { O.faults output.old ≤ O.faults output.new }
    ensures flushed { result ≡ WriteEnd.Done → (O.unflushed output.new ≡ false) ⊎ (output.new ≡ output.old) }
    ensures written { (history : List Entry) → IsOwn (is_take room.now.session) pass.new.seen (made_since pass.old pass.new) history → IsWritten T.server room.now.session result (O.held output.old) (O.held output.new) (events_of history) }
{
    if !room.both.is_whole(room.rt) {
        return WriteEnd::Memory;
    }
    for _ in room.rt.forever() {
        match look(room, pass) {
            Ok(Some(bytes)) => match put(output, bytes.as_slice()) {
                None => room.put.tell(pass.seen()),
                Some(end) => return end,
            },
            Ok(None) => {
                room.put.tell(pass.seen());
                room.lock.wait(room.rt, pass, room.session);
            }
            Err(end) => return end,
        }
    }
    unreachable!()
}

/// Ends the session, if it lives, and drops what still waits for it, since no more of it can go out. The reader has to wait no more.
fn give_up<T: Serves, R: Wait>(room: &Room<'_, '_, T, R>, pass: &mut Pass<T>)
    requires { pass.old.lock ≡ room.now.lock.now.id }
    ensures { HasGivenUp T.server room.now.session pass.old pass.new }
{
    end_session(room, pass);
    let _ = look(room, pass);
    room.put.end();
}

/// Writes to an end, and gives the session up where no more of it can go out.
pub(crate) fn write_in<T: Serves, O: Sink, R: Wait>(
    room: &Room<'_, '_, T, R>,
    pass: &mut Pass<T>,
    output: &mut O,
) -> WriteEnd
    requires { pass.old.lock ≡ room.now.lock.now.id }
    ensures { HasWritten O.held O.unflushed O.faults T.server room.now.session result pass.old pass.new output.old output.new }
{
    match write_on(room, pass, output) {
        WriteEnd::WriteFault => {
            give_up(room, pass);
            WriteEnd::WriteFault
        }
        WriteEnd::Memory => {
            give_up(room, pass);
            WriteEnd::Memory
        }
        end => {
            room.put.end();
            end
        }
    }
}
