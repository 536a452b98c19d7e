// A reader and a writer of one lock, each with its pass and its end, in two threads.
ghost use Rattle.std.specs.Prelude.{◌≡◌, ℕ, ◌≤◌, List, [], ◌∷◌, ◌++◌, length, MatchOption, MatchBool};

use r9_lock::{Chronicle, Pass, Shared};
use std::sync::Wait;
use std::thread::{Threads, join_mut};

// Where numbers come from.
pub trait Source {
    ghost left: { Self → List ℕ };

    fn next(&mut self) -> Option<u32>
        ensures { MatchOption result ((left self.old ≡ []) × (left self.new ≡ [])) (λ number. left self.old ≡ number ∷ left self.new) };
}

// Where numbers go.
pub trait Sink {
    ghost held: { Self → List ℕ };

    fn put(&mut self, number: u64) -> bool
        ensures { MatchBool result (held self.new ≡ held self.old ++ number ∷ []) (held self.new ≡ held self.old) };
}

// The handle and the lock in one, which two closures of `join_mut` may share.
#[derive(Drop)]
pub struct Room<'a, 'b, T: Chronicle, R> {
    rt: &'a R,
    lock: &'b Shared<T>,
}

// Notes what the source gives.
fn read_in<T: Chronicle<Ask = Option<u32>, Answer = Option<u64>>, S: Source, R: Wait>(
    room: &Room<'_, '_, T, R>,
    pass: &mut Pass<T>,
    input: &mut S,
)
    requires { pass.old.lock ≡ room.now.lock.now.id }
    ensures pass { (pass.new.lock ≡ pass.old.lock) × (pass.new.shares ≡ pass.old.shares) }
    ensures input { length (S.left input.new) ≤ length (S.left input.old) }
{
    for _ in 0..u64::MAX {
        let Some(number) = input.next() else { break };
        if room.lock.turn(room.rt, pass, Some(number)).is_err() {
            break;
        }
    }
}

// Looks after each wait at the bell 0, and writes how many entries there are, until there are so many.
fn write_in<T: Chronicle<Ask = Option<u32>, Answer = Option<u64>>, O: Sink, R: Wait>(
    room: &Room<'_, '_, T, R>,
    pass: &mut Pass<T>,
    output: &mut O,
    entries: u64,
)
    requires { pass.old.lock ≡ room.now.lock.now.id }
    ensures pass { (pass.new.lock ≡ pass.old.lock) × (pass.new.shares ≡ pass.old.shares) }
    ensures output { length (O.held output.old) ≤ length (O.held output.new) }
{
    for _ in room.rt.forever() {
        room.lock.wait(room.rt, pass, 0);
        let Ok(Some(number)) = room.lock.turn(room.rt, pass, None) else {
            return;
        };
        if !output.put(number) || number >= entries {
            return;
        }
    }
    unreachable!()
}

// The two closures capture the room, a pass and an end each.
fn both_in<
    T: Chronicle<Ask = Option<u32>, Answer = Option<u64>> + Send,
    S: Source + Send,
    O: Sink + Send,
    R: Threads + Wait + Sync,
>(
    rt: &R,
    room: &Room<'_, '_, T, R>,
    reader: &mut Pass<T>,
    writer: &mut Pass<T>,
    input: &mut S,
    output: &mut O,
    entries: u64,
)
    requires { (reader.old.lock ≡ room.now.lock.now.id) × (writer.old.lock ≡ room.now.lock.now.id) }
    ensures reader { (reader.new.lock ≡ reader.old.lock) × (reader.new.shares ≡ reader.old.shares) }
    ensures writer { (writer.new.lock ≡ writer.old.lock) × (writer.new.shares ≡ writer.old.shares) }
    ensures input { length (S.left input.new) ≤ length (S.left input.old) }
    ensures output { length (O.held output.old) ≤ length (O.held output.new) }
{
    join_mut(
        rt,
        &mut || read_in(room, reader, input),
        &mut || write_in(room, writer, output, entries),
    );
}

// A reader and a writer at work on one lock.
pub fn attend<
    T: Chronicle<Ask = Option<u32>, Answer = Option<u64>> + Send,
    S: Source + Send,
    O: Sink + Send,
    R: Threads + Wait + Sync,
>(
    rt: &R,
    lock: &Shared<T>,
    reader: &mut Pass<T>,
    writer: &mut Pass<T>,
    input: &mut S,
    output: &mut O,
    entries: u64,
)
    requires { (reader.old.lock ≡ lock.now.id) × (writer.old.lock ≡ lock.now.id) }
    ensures reader { (reader.new.lock ≡ reader.old.lock) × (reader.new.shares ≡ reader.old.shares) }
    ensures writer { (writer.new.lock ≡ writer.old.lock) × (writer.new.shares ≡ writer.old.shares) }
    ensures input { length (S.left input.new) ≤ length (S.left input.old) }
    ensures output { length (O.held output.old) ≤ length (O.held output.new) }
{
    let room = Room { rt, lock };
    both_in(rt, &room, reader, writer, input, output, entries);
}
