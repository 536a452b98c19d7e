//! What waits for sessions to be taken: the bytes of the replies to them, joined.

ghost use Rattle.std.specs.Prelude.{◌≡◌, ◌==◌, ◌++◌, ℕ, [], if◌then◌else◌, IfOk, OnOk};
ghost use Rattle.model_world.specs.Replay.{bytes_for, waiting_after};
ghost use Rattle.r9_hall.specs.hall.Outboxes.{taken, waiting};

use r9_event::event::{Event, Reply};
use r9_memory::Memory;
use r9_text::Bytes;
use std::alloc::Global;
use std::collections::BTreeMap;

/// Adds bytes to what waits for a session.
fn keep(
    alloc: Global,
    outboxes: &mut BTreeMap<u32, Bytes>,
    session: u32,
    bytes: &[u8],
) -> Result<(), Memory>
    ensures kept { OnOk result (waiting outboxes.new.entries session ≡ waiting outboxes.old.entries session ++ bytes.now) }
    ensures others { OnOk result ((other : ℕ) → (other ≡ session → ⊥) → waiting outboxes.new.entries other ≡ waiting outboxes.old.entries other) }
{
    if let Some(held) = outboxes.get_mut(&session) {
        return held.push_all(bytes);
    }
    let held = Bytes::from_slice(alloc, bytes)?;
    outboxes.insert(session, held)?;
    Ok(())
}

/// Adds replies to what waits for their sessions.
fn keep_all(
    alloc: Global,
    outboxes: &mut BTreeMap<u32, Bytes>,
    replies: &[Reply],
) -> Result<(), Memory>
    ensures { OnOk result ((c : ℕ) → waiting outboxes.new.entries c ≡ waiting outboxes.old.entries c ++ bytes_for c replies.now) }
{
    for reply in replies {
        keep(alloc, outboxes, reply.session, reply.bytes.as_slice())?;
    }
    Ok(())
}

/// Takes what waits for a session.
fn take(alloc: Global, outboxes: &mut BTreeMap<u32, Bytes>, session: u32) -> Bytes
    ensures left { (c : ℕ) → waiting outboxes.new.entries c ≡ (if session == c then [] else waiting outboxes.old.entries c) }
    ensures taken { result ≡ waiting outboxes.old.entries session }
{
    match outboxes.remove(&session) {
        Some(held) => held,
        None => Bytes::new(alloc),
    }
}

/// Makes of what waits what an event and the replies to it leave, and gives what the event takes of it.
pub(crate) fn post(
    alloc: Global,
    outboxes: &mut BTreeMap<u32, Bytes>,
    event: &Event,
    replies: &[Reply],
) -> Result<Bytes, Memory>
    ensures left { OnOk result ((c : ℕ) → waiting outboxes.new.entries c ≡ waiting_after c (waiting outboxes.old.entries c) event.now replies.now) }
    ensures taken { IfOk result (λ bytes. bytes ≡ taken outboxes.old.entries event.now) }
{
    if let Event::Take { session } = event {
        return Ok(take(alloc, outboxes, *session));
    }
    keep_all(alloc, outboxes, replies)?;
    Ok(Bytes::new(alloc))
}

/// What waits for a session.
pub(crate) fn waiting_for(outboxes: &BTreeMap<u32, Bytes>, session: u32) -> &[u8]
    ensures { result.now ≡ waiting outboxes.now.entries session }
{
    match outboxes.get(&session) {
        Some(held) => held.as_slice(),
        None => &[],
    }
}
