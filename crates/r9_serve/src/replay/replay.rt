//! The command `replay`.

ghost use Rattle.std.specs.Prelude.{◌≡◌, ◌≤◌, ◌<◌, ◌+◌, ◌-◌, ◌++◌, ℕ, Bool, true, false, IsTrue, IfOk, OnOk, IsErrOf, Err};
ghost use Rattle.r9_outside.specs.outside.Count.{Rose};
ghost use Rattle.model_alone.specs.alone.Uses.{event_used};
ghost use Rattle.model_history.specs.event.Legal.{IsLegal};
ghost use Rattle.model_world.specs.Links.{IsNext};
ghost use Rattle.model_world.specs.Replay.{marked, step, replay, replies};
ghost use Rattle.model_history.specs.records.Record.{IsBadAt, IsLate};
ghost use Rattle.r9_hall.specs.hall.Marks.{IsMarked};
ghost use Rattle.r9_hall.specs.hall.StateView.{IsWhole};
ghost use Rattle.r9_hall.specs.hall.WorldView.{IsStepped, display_in, world_in};
ghost use Rattle.r9_serve.specs.replay.Replays.{WasBadAt, WasLate, WasRead, AreReplyLines};
ghost use Rattle.r9_serve.specs.replay.Replayed.{output, AreRepliesTo};

use crate::replay::log::ReplyLog;
use r9_event::event::{Did, Event, Opening, Replies, Reply};
use r9_hall::hall::World;
use r9_journal::{JournalFault, Record};
use r9_marks::steps::Steps;
use r9_memory::Memory;
use r9_outside::input::{InputFault, read_up_to};
use r9_outside::outside::Source;
use std::alloc::Global;
use std::marker::Brand;
use std::sync::ledger::{Blank, Ledger};

/// So many bytes of an input are read at most. One that has them is no record.
pub const MAX_LEN: usize = 1 << 30;

/// Why there are no replies.
#[derive(Clone, Copy, Debug, PartialEq, Eq)]
pub enum ReplayFault {
    /// The input is no record, and goes wrong at this place.
    BadRecord(u64),
    /// The input is a part of a record, which begins with the entry of this number.
    LateRecord(u64),
    /// The input failed.
    ReadFault,
    /// There was no memory.
    Memory,
}

/// What a history led to: the replies to it, and the world after it.
#[derive(Drop)]
pub struct Ended {
    pub log: ReplyLog,
    pub world: World,
}

/// Adds replies at the end. For want of memory some may be there.
fn keep_all(replies: &[Reply], log: &mut ReplyLog) -> Result<(), Memory>
    ensures { OnOk result (log.new ≡ log.old ++ replies.now) }
{
    for reply in replies {
        log.push(reply)?;
    }
    Ok(())
}

/// Whether an event stands in the history as it is: no mark came in a data write, or its own.
fn is_as_made(event: &Event, short: Option<u32>) -> bool
    ensures { IsTrue result → marked event.now short ≡ event.now }
{
    let Some(done) = short else {
        return true;
    };
    if let Event::Msg {
        mark: Some(own),
        ..
    } = event
    {
        return *own == done;
    }
    false
}

/// Makes an event, and gives the replies to it, what the windows were told, and what it used where that is watched. Each pixel that it
/// wrote is counted in `pixels`. Where memory ran out in a data write, that is told as want of memory.
pub fn make_seen<L: Ledger>(
    world: &mut World,
    event: &Event,
    pixels: &mut Steps<L>,
) -> Result<Did, Memory>
    requires whole { IsWhole event.now }
    requires next { IsNext world.old.begun event.now }
    requires going { world.old.broken ≡ false }
    ensures watches { world.new.watches ≡ world.old.watches }
    ensures world { OnOk result (IsStepped world.old event.now world.new) }
    ensures marked { IfOk result (λ did. marked event.now did.short ≡ event.now) }
    ensures replies { IfOk result (λ did. did.replies ≡ (step (world_in world.old) event.now).replies) }
    ensures notes { IfOk result (λ did. did.notes ≡ (step (world_in world.old) event.now).notes) }
    ensures uses { world.old.watches ≡ true → IfOk result (λ did. did.uses ≡ event_used (world_in world.old) (step (world_in world.old) event.now).world event.now) }
    ensures pixels { OnOk result (pixels.new ≤ pixels.old + (step (world_in world.old) event.now).cost) }
    ensures marks { OnOk result ((display_in world.old).nowhere ≡ true → IsMarked (display_in world.old) (display_in world.new) (pixels.new - pixels.old)) }
{
    let did = world.step(event, pixels)?;
    if !is_as_made(event, did.short) {
        return Err(Memory);
    }
    Ok(did)
}

/// Makes an event, and gives the replies to it. Each pixel that it wrote is counted in `pixels`. Where memory ran out in a data write,
/// that is told as want of memory.
pub fn make_event<L: Ledger>(
    world: &mut World,
    event: Event,
    pixels: &mut Steps<L>,
) -> Result<Replies, Memory>
    requires whole { IsWhole event }
    requires next { IsNext world.old.begun event }
    requires going { world.old.broken ≡ false }
    ensures world { OnOk result (IsStepped world.old event world.new) }
    ensures replies { IfOk result (λ replies. replies ≡ (step (world_in world.old) event).replies) }
    ensures pixels { OnOk result (pixels.new ≤ pixels.old + (step (world_in world.old) event).cost) }
    ensures marks { OnOk result ((display_in world.old).nowhere ≡ true → IsMarked (display_in world.old) (display_in world.new) (pixels.new - pixels.old)) }
{
    let did = make_seen(world, &event, pixels)?;
    Ok(did.replies)
}

/// Makes an event, and adds the replies to it at the end.
fn run_event<L: Ledger>(
    world: &mut World,
    event: Event,
    log: &mut ReplyLog,
    pixels: &mut Steps<L>,
) -> Result<(), Memory>
    requires whole { IsWhole event }
    requires next { IsNext world.old.begun event }
    requires going { world.old.broken ≡ false }
    ensures world { OnOk result (IsStepped world.old event world.new) }
    ensures replies { OnOk result (log.new ≡ log.old ++ (step (world_in world.old) event).replies) }
{
    let replies = make_event(world, event, pixels)?;
    keep_all(replies.as_slice(), log)
}

/// What a history leads to, which is run event by event as its record is read. Nobody asks how many pixels it writes.
fn replayed<L: Ledger>(
    alloc: Global,
    opening: Opening,
    mut left: Record,
    blank: Blank,
) -> Result<Ended, Memory>
    requires name { blank.name ≡ L.name }
    requires parts { blank.parts ≡ L.parts }
    requires some { 0 < L.parts }
    requires legal { IsLegal left }
    ensures replies { IfOk result (λ ended. ended.log ≡ replies opening left.entry) }
    ensures world { IfOk result (λ ended. world_in ended.world ≡ replay opening left.entry) }
{
    let mut world = World::start(alloc, opening, false)?;
    let mut log = ReplyLog::new(alloc);
    let mut pixels = Steps::<L>::new(blank);
    'events: while let Some(event) = left.pop_first(alloc)? {
        run_event(&mut world, event, &mut log, &mut pixels)?;
    }
    Ok(Ended { log, world })
}

/// What the history leads to whose record a text is.
fn replay_text(alloc: Global, opening: Opening, text: &[u8]) -> Result<Ended, JournalFault>
    ensures replies { IfOk result (λ ended. AreRepliesTo opening text.now ended.log (world_in ended.world)) }
    ensures bad { (place : ℕ) → result ≡ Err (JournalFault.Bad place) → IsBadAt text.now place }
    ensures late { (first : ℕ) → result ≡ Err (JournalFault.Late first) → IsLate text.now first }
{
    let left = Record::check(alloc, text)?;
    let ended = replayed::<Brand>(alloc, opening, left, Blank::new(1))?;
    Ok(ended)
}

/// What the history leads to whose record the input has. The text is gone once that is reached.
pub fn replay_input<S: Source>(
    alloc: Global,
    opening: Opening,
    input: &mut S,
) -> Result<Ended, ReplayFault>
    ensures lines { IfOk result (λ ended. (screen : Bool) → AreReplyLines opening screen (S.left input.old) (output screen ended.log (world_in ended.world))) }
    ensures read { OnOk result (WasRead (S.left input.old) (S.left input.new)) }
    ensures bad_record { (place : ℕ) → result ≡ Err (ReplayFault.BadRecord place) → WasBadAt (S.left input.old) place }
    ensures bad_read { (place : ℕ) → result ≡ Err (ReplayFault.BadRecord place) → WasRead (S.left input.old) (S.left input.new) }
    ensures late_record { (first : ℕ) → result ≡ Err (ReplayFault.LateRecord first) → WasLate (S.left input.old) first }
    ensures late_read { (first : ℕ) → result ≡ Err (ReplayFault.LateRecord first) → WasRead (S.left input.old) (S.left input.new) }
    ensures read_fault { IsErrOf result ReplayFault.ReadFault → Rose (S.faults input.old) (S.faults input.new) }
    ensures steady { ¬ IsErrOf result ReplayFault.ReadFault → S.faults input.new ≡ S.faults input.old }
{
    let text = match read_up_to(alloc, MAX_LEN, input) {
        Ok(text) => text,
        Err(InputFault::Failed) => return Err(ReplayFault::ReadFault),
        Err(InputFault::Memory) => return Err(ReplayFault::Memory),
    };
    match replay_text(alloc, opening, text.as_slice()) {
        Ok(ended) => Ok(ended),
        Err(JournalFault::Bad(place)) => Err(ReplayFault::BadRecord(place)),
        Err(JournalFault::Late(first)) => Err(ReplayFault::LateRecord(first)),
        Err(JournalFault::Memory) => Err(ReplayFault::Memory),
    }
}
