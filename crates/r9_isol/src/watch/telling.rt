//! What an event tells a session that is alone with its window.

ghost use Rattle.std.specs.Prelude.{◌≡◌, ◌++◌, ◌≤◌, ℕ, List, length, IfOk, OnOk};
ghost use Rattle.std.specs.Str.{bytes_eq};
ghost use Rattle.model_alone.specs.alone.Own.{effective, noted, sent, told};
ghost use Rattle.model_draw.specs.draw.Act.{no_memory};
ghost use Rattle.model_files.specs.wire.Reading.{tag_of};
ghost use Rattle.model_files.specs.wire.Spelling.{spelling_of_r};
ghost use Rattle.model_world.specs.Refusal.{refusal};
ghost use Rattle.model_world.specs.Replay.{marked};
ghost use Rattle.r9_event.specs.declared.event.event.Event.TheVariants.{Msg};
ghost use Rattle.r9_isol.specs.watch.Words.{is_end_of, watched_of, IsWhole};

use crate::watch::copies::copy_note;
use crate::watch::items::Step;
use crate::watch::reasons::Seen;
use r9_event::event::{Did, Event, Item, Note, Reply};
use r9_files::files::{NO_IMAGE_MEMORY, refusal};
use r9_memory::Memory;
use r9_wire::reply_bytes;
use std::alloc::Global;

/// The tag of the bytes of a message.
fn tag_of(bytes: &[u8]) -> u16
    requires { 7 ≤ length bytes.now }
    ensures { result ≡ tag_of bytes.now }
{
    u16::from_le_bytes([bytes[5], bytes[6]])
}

/// Whether a reply refuses a message for want of memory.
fn is_for_want(alloc: Global, bytes: &[u8], reply: &[u8]) -> Result<bool, Memory>
    requires { 7 ≤ length bytes.now }
    ensures { IfOk result (λ is. is ≡ bytes_eq reply.now (spelling_of_r (refusal (tag_of bytes.now) no_memory))) }
{
    let refused = refusal(alloc, tag_of(bytes), NO_IMAGE_MEMORY)?;
    let spelled = reply_bytes(alloc, &refused)?;
    Ok(reply == spelled.as_slice())
}

/// The mark of a message where it took effect: there the message is refused for want of memory.
fn effective(
    alloc: Global,
    bytes: &[u8],
    mark: Option<u32>,
    replies: &[Reply],
) -> Result<Option<u32>, Memory>
    requires { 7 ≤ length bytes.now }
    ensures { IfOk result (λ took. took ≡ effective bytes.now mark replies.now) }
{
    if mark.is_none() {
        return Ok(None);
    }
    let Some(reply) = replies.first() else {
        return Ok(None);
    };
    if is_for_want(alloc, bytes, reply.bytes.as_slice())? {
        return Ok(mark);
    }
    Ok(None)
}

/// The mark with which a message stands in the history.
fn mark_after(mark: Option<u32>, short: Option<u32>) -> Option<u32>
    ensures { (session : ℕ) (bytes : List ℕ) → marked (Msg session bytes mark) short ≡ Msg session bytes result }
{
    match short {
        Some(_) => short,
        None => mark,
    }
}

/// Adds the message of an event, where it is the session's.
fn push_sent(
    alloc: Global,
    session: u32,
    event: &Event,
    did: &Did,
    step: &mut Step,
) -> Result<(), Memory>
    requires { IsWhole event.now }
    ensures { OnOk result (step.new ≡ step.old ++ sent session did.now.replies (marked event.now did.now.short)) }
{
    match event {
        Event::Msg {
            session: by,
            bytes,
            mark,
        } if *by == session => {
            let mark = mark_after(*mark, did.short);
            let mark = effective(alloc, bytes.as_slice(), mark, did.replies.as_slice())?;
            step.push(Item::Sent(bytes.try_clone(alloc)?, mark))
        }
        _ => Ok(()),
    }
}

/// Adds the notes of the session's window.
fn push_noted(
    alloc: Global,
    seen: &Seen,
    notes: &[(u32, Note)],
    step: &mut Step,
) -> Result<(), Memory>
    ensures { OnOk result (step.new ≡ step.old ++ noted (watched_of seen.now) notes.now) }
{
    for (window, note) in notes {
        if seen.is_its(Some(*window)) {
            step.push(Item::Noted(copy_note(alloc, note)?))?;
        }
    }
    Ok(())
}

/// Whether an event is the end of a session.
fn is_end_of(session: u32, event: &Event) -> bool
    ensures { result ≡ is_end_of session event.now }
{
    match event {
        Event::End { session: by } => *by == session,
        _ => false,
    }
}

/// What an event tells the session, of which this is known then. Of its end it is told nothing.
pub(crate) fn told(
    alloc: Global,
    session: u32,
    seen: &Seen,
    event: &Event,
    did: &Did,
) -> Result<Step, Memory>
    requires { IsWhole event.now }
    ensures { IfOk result (λ step. step ≡ told session (watched_of seen.now) did.now.replies did.now.notes (marked event.now did.now.short)) }
{
    let mut step = Step::new(alloc);
    if is_end_of(session, event) {
        return Ok(step);
    }
    push_sent(alloc, session, event, did, &mut step)?;
    push_noted(alloc, seen, did.notes.as_slice(), &mut step)?;
    Ok(step)
}
