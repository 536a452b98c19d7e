//! The reader of a session.
ghost use Rattle.std.specs.Prelude.{◌≡◌, ◌≢◌, ◌≤◌, ◌⊎◌, List, ℕ, All, Contains, Some, true};
ghost use Rattle.r9_event.specs.declared.event.event.Event.{Event};
ghost use Rattle.r9_event.specs.declared.event.event.Entry.{Entry};
ghost use Rattle.r9_outside.specs.outside.Count.{Rose};
ghost use Rattle.model_text.specs.text.Number.{AreBytes};
ghost use Rattle.model_history.specs.event.Journal.{events_of};
ghost use Rattle.model_served.specs.session.Server.{is_msg};
ghost use Rattle.r9_attend.specs.attend.Passes.{GoesOn, made_since, IsOwn};
ghost use Rattle.r9_attend.specs.attend.Sessions.{Reads, EndsAt, IsRead, IsReady};
ghost use Rattle.r9_attend.specs.attend.Steps.{IsSent, IsFilled, IsTold, HasRead};

use crate::attend::ends::ReadEnd;
use crate::attend::pace::{Pace, most_replied};
use crate::attend::room::{Room, ask, end_session};
use crate::attend::serves::Serves;
use r9_event::event::{Answer, Ask};
use r9_frame::{Framer, Next};
use r9_lock::Pass;
use r9_memory::Memory;
use r9_outside::outside::Source;
use r9_text::Bytes;
use std::sync::Wait;

/// The greatest size of a session's first message.
const FIRST_LIMIT: u32 = 65_560;

/// Sends a message, and answers how many bytes the next may have.
fn send<T: Serves, R: Wait>(
    room: &Room<'_, '_, T, R>,
    pass: &mut Pass<T>,
    bytes: Bytes,
) -> Result<u32, ReadEnd>
    requires { pass.old.lock ≡ room.now.lock.now.id }
    ensures goes_on { GoesOn pass.old pass.new }
    ensures sent { IsSent T.server room.now.session bytes result pass.old pass.new }
{
    let session = room.session;
    match ask(room.rt, room.lock, pass, Ask::Msg { session, bytes }) {
        Ok(Answer::Went { msize }) => Ok(msize),
        Ok(Answer::Duplicate(tag)) => Err(ReadEnd::Duplicate(tag)),
        Ok(Answer::Closed) => Err(ReadEnd::Closed),
        Ok(Answer::Memory) => Err(ReadEnd::Memory),
        Err(count) => Err(ReadEnd::Spent(count)),
        Ok(_) => unreachable!(),
    }
}

/// Takes what the source has, and feeds it.
fn fill<S: Source>(input: &mut S, framer: &mut Framer) -> Option<ReadEnd>
    ensures filled { IsFilled framer.old (S.left input.old) result framer.new (S.left input.new) }
    ensures failed { result ≡ Some ReadEnd.ReadFault → Rose (S.faults input.old) (S.faults input.new) }
    ensures counted { S.faults input.old ≤ S.faults input.new }
    ensures steady { result ≢ Some ReadEnd.ReadFault → S.faults input.new ≡ S.faults input.old }
{
    let mut buffer = [0; 4096];
    let Ok(count) = input.take(&mut buffer) else {
        return Some(ReadEnd::ReadFault);
    };
    if count == 0 {
        let held = framer.held();
        return Some(if held == 0 {
            ReadEnd::Ended
        } else {
            ReadEnd::Cut(held)
        });
    }
    if framer.feed(&buffer[..count]).is_err() {
        return Some(ReadEnd::Memory);
    }
    None
}

// Bytes are bytes.
fn are_bytes(bytes: &[u8])
    ensures { AreBytes bytes.now }
{}

/// Sends the messages that come from the source, in order, until an end, if the writer has come. The writer is woken once nothing more
/// is at hand and at times before, not for each message: so replies to messages that come together go out together.
fn read_on<T: Serves, S: Source, R: Wait>(
    room: &Room<'_, '_, T, R>,
    pass: &mut Pass<T>,
    input: &mut S,
) -> ReadEnd
    requires { IsReady room.now.lock.now.id room.now.session pass.old }
    ensures goes_on { GoesOn pass.old pass.new }
    ensures made { All (λ m. (is_msg room.now.session m.1.event ≡ true) ⊎ (m.1.event ≡ Event.Stop)) (made_since pass.old pass.new) }
    ensures told { IsTold T.server room.now.session result pass.new }
    ensures failed { result ≡ ReadEnd.ReadFault → Rose (S.faults input.old) (S.faults input.new) }
    ensures counted { S.faults input.old ≤ S.faults input.new }
    ensures steady { result ≢ ReadEnd.ReadFault → S.faults input.new ≡ S.faults input.old }
    ensures read { (bytes : List ℕ) × Reads (S.left input.old) bytes (S.left input.new) × EndsAt result (S.left input.old) bytes × ((history : List Entry) → IsOwn (is_msg room.now.session) pass.new.seen (made_since pass.old pass.new) history → IsRead T.server room.now.session result bytes (events_of history)) }
{
    let mut framer = Framer::new(room.alloc, FIRST_LIMIT);
    if !room.both.is_whole(room.rt) {
        return ReadEnd::Memory;
    }
    let mut pace = Pace::new();
    for _ in room.rt.forever() {
        match framer.next() {
            Ok(Next::Frame(frame)) => {
                are_bytes(frame.as_slice());
                let most = most_replied(frame.as_slice(), FIRST_LIMIT);
                match send(room, pass, frame) {
                    Ok(msize) => {
                        framer.set_limit(msize);
                        pace = pace.after(room, pass, most);
                    }
                    Err(end) => return end,
                }
            }
            Ok(Next::NeedMore) => {
                room.lock.ring(pass, room.session);
                match fill(input, &mut framer) {
                    None => {}
                    Some(end) => return end,
                }
            }
            Ok(Next::BadSize(size)) => return ReadEnd::BadSize(size),
            Err(Memory) => return ReadEnd::Memory,
        }
    }
    unreachable!()
}

/// Reads to an end, and then ends the session, unless the writer has ended it.
pub(crate) fn read_in<T: Serves, S: Source, R: Wait>(
    room: &Room<'_, '_, T, R>,
    pass: &mut Pass<T>,
    input: &mut S,
) -> ReadEnd
    requires { IsReady room.now.lock.now.id room.now.session pass.old }
    ensures { HasRead S.left S.faults T.server room.now.session result pass.old pass.new input.old input.new }
{
    let end = read_on(room, pass, input);
    if let ReadEnd::Closed = end {
        return end;
    }
    end_session(room, pass);
    room.lock.ring(pass, room.session);
    end
}
