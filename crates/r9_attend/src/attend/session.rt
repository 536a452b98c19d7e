//! A session, with a reader and a writer in two threads.
ghost use Rattle.std.specs.Prelude.{◌≡◌, ◌≢◌, ◌≤◌, ◌⊎◌, List, ℕ, None, false, All, Contains, IfSome, IfNone};
ghost use Rattle.r9_event.specs.declared.event.event.Entry.{Entry};
ghost use Rattle.r9_outside.specs.outside.Count.{Rose};
ghost use Rattle.r9_event.specs.declared.event.event.Event.{Event};
ghost use Rattle.model_history.specs.event.Journal.{events_of};
ghost use Rattle.r9_attend.specs.attend.Passes.{GoesOn, made_since};
ghost use Rattle.r9_attend.specs.attend.Sessions.{Reads, EndsAt, IsRead, IsExactEnd, IsWritten, IsExactWriteEnd, HasEnded, IsSessions, IsMade, IsTheirs, IsReady, IsPlain, EndsPlainly};
ghost use Rattle.r9_attend.specs.attend.Steps.{IsTold, IsSpent, NotBegun, IsBegun, HasBegun, HasRead, HasWritten};

use crate::attend::ends::{Attended, ReadEnd, WriteEnd};
use crate::attend::muster::Muster;
use crate::attend::progress::Progress;
use crate::attend::reading::read_in;
use crate::attend::room::{Room, ask};
use crate::attend::serves::Serves;
use crate::attend::writing::write_in;
use r9_event::event::{Answer, Ask};
use r9_lock::{Pass, Shared};
use r9_outside::outside::{Sink, Source};
use std::alloc::Global;
use std::sync::Wait;
use std::thread::{Threads, join_mut};

/// Begins a session.
fn begin<T: Serves, R: Wait>(
    rt: &R,
    lock: &Shared<T>,
    pass: &mut Pass<T>,
) -> Result<u32, (ReadEnd, WriteEnd)>
    requires { pass.old.lock ≡ lock.now.id }
    ensures goes_on { GoesOn pass.old pass.new }
    ensures begun { IsBegun T.server result pass.old pass.new }
{
    match ask(rt, lock, pass, Ask::Begin) {
        Ok(Answer::Began(session)) => Ok(session),
        Ok(Answer::Crowded) => Err((ReadEnd::Crowded, WriteEnd::Crowded)),
        Ok(Answer::Memory) => Err((ReadEnd::Memory, WriteEnd::Memory)),
        Err(count) => Err((ReadEnd::Spent(count), WriteEnd::Spent(count))),
        Ok(_) => unreachable!(),
    }
}

/// The reader and, in a thread of its own, the writer. The two closures capture the room, a pass and an end each. Where no thread can
/// be had neither reads nor writes, and both end for want of memory.
fn both_in<T: Serves + Send, S: Source + Send, O: Sink + Send, R: Threads + Wait + Sync>(
    rt: &R,
    room: &Room<'_, '_, T, R>,
    reader: &mut Pass<T>,
    writer: &mut Pass<T>,
    input: &mut S,
    output: &mut O,
) -> (ReadEnd, WriteEnd)
    requires reader { IsReady room.now.lock.now.id room.now.session reader.old }
    requires writer { writer.old.lock ≡ room.now.lock.now.id }
    ensures reader { HasRead S.left S.faults T.server room.now.session result.0 reader.old reader.new input.old input.new }
    ensures writer { HasWritten O.held O.unflushed O.faults T.server room.now.session result.1 writer.old writer.new output.old output.new }
{
    let (written, read) = join_mut(
        rt,
        &mut || write_in(room, writer, output),
        &mut || -> ReadEnd
            requires { IsReady room.now.lock.now.id room.now.session reader.now }
            ensures { HasRead S.left S.faults T.server room.entry.now.session result reader.entry.now reader.exit.now input.entry.now input.exit.now }
        { read_in(room, reader, input) },
    );
    (read, written)
}

/// Begins a session, and attends to it: a reader sends its messages, and a writer gives it its replies. Both ends are told.
pub fn attend<T: Serves + Send, S: Source + Send, O: Sink + Send, R: Threads + Wait + Sync>(
    rt: &R,
    alloc: Global,
    shared: &Shared<T>,
    reader: &mut Pass<T>,
    writer: &mut Pass<T>,
    input: &mut S,
    output: &mut O,
) -> Attended
    requires { (reader.old.lock ≡ shared.now.id) × (writer.old.lock ≡ shared.now.id) }
    ensures passes { GoesOn reader.old reader.new × GoesOn writer.old writer.new }
    // Where no session began, both ends name the cause, and nothing was read or put.
    ensures not_begun { IfNone result.session (NotBegun T.server result.reader result.writer reader.old reader.new × (writer.new ≡ writer.old) × (input.new ≡ input.old) × (output.new ≡ output.old)) }
    ensures none_made { IfNone result.session (All (λ m. m.1.event ≡ Event.Stop) (made_since reader.old reader.new)) }
    // The session began in a turn of the reader's pass. What the passes made are its begin, other entries of it, and stops.
    ensures began { IfSome result.session (λ c. HasBegun T.server c reader.old reader.new) }
    ensures made { IfSome result.session (λ c. All (IsSessions c) (made_since reader.old reader.new) × All (IsSessions c) (made_since writer.old writer.new)) }
    ensures ended { IfSome result.session (λ c. HasEnded c reader.new) }
    // In a history whose entries of the session are these, its messages are those of the bytes that were read, ..
    ensures read { IfSome result.session (λ c. (bytes : List ℕ) × Reads (S.left input.old) bytes (S.left input.new) × EndsAt result.reader (S.left input.old) bytes × ((history : List Entry) → IsTheirs c reader.old reader.new writer.old writer.new history → IsRead T.server c result.reader bytes (events_of history))) }
    // .. its reader ends where all bytes that a source tells lead, or for another cause, ..
    ensures read_exact { IfSome result.session (λ c. (history : List Entry) → IsTheirs c reader.old reader.new writer.old writer.new history → IsExactEnd T.server (S.left input.old) result.reader) }
    // .. and the bytes that were put are what was taken for it.
    ensures written { IfSome result.session (λ c. (history : List Entry) → IsTheirs c reader.old reader.new writer.old writer.new history → IsWritten T.server c result.writer (O.held output.old) (O.held output.new) (events_of history)) }
    ensures write_exact { IfSome result.session (λ c. IsExactWriteEnd result.writer) }
    ensures told { IfSome result.session (λ c. IsTold T.server c result.reader reader.new × IsSpent result.writer writer.new) }
    ensures closed { IfSome result.session (λ c. result.reader ≡ ReadEnd.Closed → (history : List Entry) → IsTheirs c reader.old reader.new writer.old writer.new history → IsMade (made_since writer.old writer.new) (Event.End c) × ((result.writer ≡ WriteEnd.WriteFault) ⊎ (result.writer ≡ WriteEnd.Memory))) }
    // Whole messages of lawful sizes lead to plain ends, where no tag was that of a waiting read and neither end had a fault.
    ensures complete { IfSome result.session (λ c. (Rose (S.faults input.old) (S.faults input.new) → ⊥) → (Rose (O.faults output.old) (O.faults output.new) → ⊥) → (history : List Entry) → IsTheirs c reader.old reader.new writer.old writer.new history → IsPlain T.server c (S.left input.old) (events_of history) → EndsPlainly result.reader result.writer) }
    ensures read_failed { result.reader ≡ ReadEnd.ReadFault → Rose (S.faults input.old) (S.faults input.new) }
    ensures write_failed { result.writer ≡ WriteEnd.WriteFault → Rose (O.faults output.old) (O.faults output.new) }
    // A source that has failed is not asked again.
    ensures steady { result.reader ≢ ReadEnd.ReadFault → S.faults input.new ≡ S.faults input.old }
    ensures counted { (S.faults input.old ≤ S.faults input.new) × (O.faults output.old ≤ O.faults output.new) }
    ensures flushed { result.writer ≡ WriteEnd.Done → (O.unflushed output.new ≡ false) ⊎ (output.new ≡ output.old) }
{
    let session = match begin(rt, shared, reader) {
        Ok(session) => session,
        Err((reader, writer)) => {
            return Attended {
                session: None,
                reader,
                writer,
            };
        }
    };
    let room = Room {
        rt,
        alloc,
        lock: shared,
        session,
        both: Muster::new(2),
        put: Progress::new(),
    };
    let (read, written) = both_in(rt, &room, reader, writer, input, output);
    Attended {
        session: Some(session),
        reader: read,
        writer: written,
    }
}
