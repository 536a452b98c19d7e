//! A record is read and mirrored.

ghost use Rattle.std.specs.Prelude.{◌≡◌, ◌≤◌, ◌<◌, ◌^◌, ◌+◌, ◌⊎◌, ◌∷◌, ℕ, List, [], true, false, length, Err, IfOk, IfNone, IfSome, OnOk, OnErr, IsErrOf};
ghost use Rattle.r9_outside.specs.outside.Count.{Rose};
ghost use Rattle.r9_outside.specs.outside.Sink.{Appends};
ghost use Rattle.model_draw.specs.draw.Orders.{is_side};
ghost use Rattle.model_history.specs.event.Legal.{IsLegal};
ghost use Rattle.model_mirror.specs.Frame.{IsFrame};
ghost use Rattle.model_mirror.specs.Mirror.{AreFramesOf};
ghost use Rattle.model_mirror.specs.Shown.{mirrored};
ghost use Rattle.law_devices.specs.sides.Display.{HasDisplay};
ghost use Rattle.model_world.specs.Links.{IsNext};
ghost use Rattle.model_world.specs.Replay.{step};
ghost use Rattle.r9_hall.specs.hall.StateView.{IsWhole};
ghost use Rattle.r9_hall.specs.hall.WorldView.{IsStepped, display_in, world_in};
ghost use Rattle.r9_serve.specs.replay.Replays.{WasBadAt, WasLate, WasRead};
ghost use Rattle.r9_serve.specs.mirroring.Faults.{of_journal};
ghost use Rattle.r9_serve.specs.mirroring.Laws.{AreLaws};
ghost use Rattle.r9_serve.specs.mirroring.Mirrored.{AreFrames, HasPutFirst, HasPutFront};
ghost use Rattle.r9_serve.specs.mirroring.View.{HasPut, HasPutPart, IsPaid, IsSent, IsUnmarked};

use crate::mirroring::mirror::{first_frame, next_entry};
use crate::replay::MAX_LEN;
use law_devices::sides::{another_size_is_paid, each_history_has_a_display};
use model_mirror::frames_show_what_they_send;
use r9_chan::Chan;
use r9_event::event::{Event, Opening};
use r9_hall::hall::World;
use r9_journal::{JournalFault, Record};
use r9_marks::steps::Steps;
use r9_outside::input::{InputFault, read_up_to};
use r9_outside::outside::{Sink, SinkFault, Source, put_all};
use std::alloc::Global;
use std::marker::Brand;
use std::sync::ledger::{Blank, Ledger};

/// Why not all frames of an input were put.
#[derive(Clone, Copy, Debug, PartialEq, Eq)]
pub enum MirrorFault {
    /// The input is no record, and goes wrong at this place.
    BadRecord(u64),
    /// The input is a part of a record, which begins with the entry of this number.
    LateRecord(u64),
    /// The input failed.
    ReadFault,
    /// The sink failed. A front of the frames was put, which may be empty.
    WriteFault,
    /// There was no memory. A front of the frames was put, which may be empty.
    Memory,
}

/// Why a text is no record, as a fault of the command.
fn fault_of(fault: JournalFault) -> MirrorFault
    ensures { result ≡ of_journal fault }
{
    match fault {
        JournalFault::Bad(place) => MirrorFault::BadRecord(place),
        JournalFault::Late(first) => MirrorFault::LateRecord(first),
        JournalFault::Memory => MirrorFault::Memory,
    }
}

/// Puts frame 0, which has all cells of the display. No cell is marked then. After an `Err` only a front of it was put, which may be
/// empty.
fn put_first<O: Sink>(
    alloc: Global,
    world: &mut World,
    chan: Chan,
    out: &mut O,
) -> Result<(), SinkFault>
    requires display { HasDisplay chan (world_in world.old).desktop.device }
    ensures world { world_in world.new ≡ world_in world.old }
    ensures begun { world.new.begun ≡ world.old.begun }
    ensures broken { world.new.broken ≡ world.old.broken }
    ensures unmarked { OnOk result (IsUnmarked (display_in world.new)) }
    ensures ok { OnOk result (HasPut (IsFrame chan 0 true (mirrored (world_in world.old)) (λ column row. true)) (O.held out.old) (O.held out.new)) }
    ensures part { (O.held out.new ≡ O.held out.old) ⊎ HasPutPart (IsFrame chan 0 true (mirrored (world_in world.old)) (λ column row. true)) (O.held out.old) (O.held out.new) }
    ensures written { IsErrOf result SinkFault.Failed → HasPutPart (IsFrame chan 0 true (mirrored (world_in world.old)) (λ column row. true)) (O.held out.old) (O.held out.new) }
    ensures failed { IsErrOf result SinkFault.Failed → Rose (O.faults out.old) (O.faults out.new) }
    ensures counted { O.faults out.old ≤ O.faults out.new }
{
    let Ok(frame) = first_frame(alloc, world, chan) else {
        return Err(SinkFault::Memory);
    };
    put_all(out, frame.as_slice())?;
    Ok(())
}

/// Makes an event, and puts what a mirror puts after it as the entry of this number. No cell is marked before and then. Each pixel that
/// the event wrote is counted in `pixels`. After an `Err` only a front of that was put, which may be empty.
fn put_entry<L: Ledger, O: Sink>(
    alloc: Global,
    world: &mut World,
    chan: Chan,
    number: u64,
    event: Event,
    pixels: &mut Steps<L>,
    out: &mut O,
) -> Result<(), SinkFault>
    requires whole { IsWhole event }
    requires next { IsNext world.old.begun event }
    requires going { world.old.broken ≡ false }
    requires unmarked { IsUnmarked (display_in world.old) }
    requires before { HasDisplay chan (world_in world.old).desktop.device }
    requires after { HasDisplay chan (step (world_in world.old) event).world.desktop.device }
    requires paid { IsPaid (mirrored (world_in world.old)) (mirrored (step (world_in world.old) event).world) (step (world_in world.old) event).cost }
    ensures world { OnOk result (IsStepped world.old event world.new) }
    ensures unmarked { OnOk result (IsUnmarked (display_in world.new)) }
    ensures ok { OnOk result (HasPut (IsSent chan number ((step (world_in world.old) event).cost + 8) (mirrored (world_in world.old)) (mirrored (step (world_in world.old) event).world)) (O.held out.old) (O.held out.new)) }
    ensures part { (O.held out.new ≡ O.held out.old) ⊎ HasPutPart (IsSent chan number ((step (world_in world.old) event).cost + 8) (mirrored (world_in world.old)) (mirrored (step (world_in world.old) event).world)) (O.held out.old) (O.held out.new) }
    ensures written { IsErrOf result SinkFault.Failed → HasPutPart (IsSent chan number ((step (world_in world.old) event).cost + 8) (mirrored (world_in world.old)) (mirrored (step (world_in world.old) event).world)) (O.held out.old) (O.held out.new) }
    ensures failed { IsErrOf result SinkFault.Failed → Rose (O.faults out.old) (O.faults out.new) }
    ensures counted { O.faults out.old ≤ O.faults out.new }
{
    let Ok(entry) = next_entry(alloc, world, chan, number, event, pixels) else {
        return Err(SinkFault::Memory);
    };
    put_all(out, entry.as_slice())?;
    Ok(())
}

/// What the laws say of histories and of frames: told as one, since a function that calls all of them holds on to all that they say at each
/// of its steps.
fn gather_laws()
    ensures { AreLaws }
{
    each_history_has_a_display();
    another_size_is_paid();
    frames_show_what_they_send();
}

/// Takes the first event of a record. Want of memory is told as a sink tells it.
fn pop_event(alloc: Global, left: &mut Record) -> Result<Option<Event>, SinkFault>
    ensures first { IfOk result (λ found. IfSome found (λ event. left.old ≡ event ∷ left.new)) }
    ensures none { IfOk result (λ found. IfNone found (left.old ≡ [])) }
    ensures err { OnErr result (left.new ≡ left.old) }
    ensures memory { OnErr result (IsErrOf result SinkFault.Memory) }
{
    match left.pop_first(alloc) {
        Ok(found) => Ok(found),
        Err(_) => Err(SinkFault::Memory),
    }
}

/// Puts the frames of a history, as its record is read, and sends them on. Nobody asks how many pixels it writes. After an `Err` only a
/// front of the frames of its first events was put, which may be empty.
fn put_frames<L: Ledger, O: Sink>(
    alloc: Global,
    opening: Opening,
    mut left: Record,
    out: &mut O,
    blank: Blank,
) -> Result<(), SinkFault>
    requires name { blank.name ≡ L.name }
    requires parts { blank.parts ≡ L.parts }
    requires some { 0 < L.parts }
    requires legal { IsLegal left }
    requires few { length left < 2 ^ 40 }
    requires wide { is_side opening.width ≡ true }
    requires high { is_side opening.height ≡ true }
    ensures ok { OnOk result ((frames : List ℕ) × AreFramesOf opening left.entry frames × Appends (O.held out.old) frames (O.held out.new) × (O.unflushed out.new ≡ false)) }
    ensures part { (O.held out.new ≡ O.held out.old) ⊎ HasPutFront opening left.entry (O.held out.old) (O.held out.new) }
    ensures written { IsErrOf result SinkFault.Failed → HasPutFront opening left.entry (O.held out.old) (O.held out.new) }
    ensures failed { IsErrOf result SinkFault.Failed → Rose (O.faults out.old) (O.faults out.new) }
    ensures counted { O.faults out.old ≤ O.faults out.new }
{
    gather_laws();
    let chan = opening.chan;
    let Ok(mut world) = World::start(alloc, opening, false) else {
        return Err(SinkFault::Memory);
    };
    put_first(alloc, &mut world, chan, out)?;
    let mut pixels = Steps::<L>::new(blank);
    let mut number: u64 = 0;
    'events: while let Some(event) = pop_event(alloc, &mut left)? {
        number += 1;
        put_entry(alloc, &mut world, chan, number, event, &mut pixels, out)?;
    }
    match out.flush() {
        Ok(()) => Ok(()),
        Err(_) => Err(SinkFault::Failed),
    }
}

/// Reads a record, runs its history on a display of 1 to 2,048 pixels across and down, and puts the frames of it: frame 0 with each cell,
/// and after each entry what has changed (docs/FORMATS.md). Nothing is put where the input is no record.
pub fn mirror_input<S: Source, O: Sink>(
    alloc: Global,
    opening: Opening,
    input: &mut S,
    out: &mut O,
) -> Result<(), MirrorFault>
    requires wide { is_side opening.width ≡ true }
    requires high { is_side opening.height ≡ true }
    ensures frames { OnOk result ((frames : List ℕ) × AreFrames opening (S.left input.old) frames × Appends (O.held out.old) frames (O.held out.new)) }
    ensures flushed { OnOk result (O.unflushed out.new ≡ false) }
    ensures untouched { OnErr result ((O.held out.new ≡ O.held out.old) ⊎ ((IsErrOf result MirrorFault.WriteFault ⊎ IsErrOf result MirrorFault.Memory) × HasPutFirst opening (S.left input.old) (O.held out.old) (O.held out.new))) }
    ensures written { IsErrOf result MirrorFault.WriteFault → HasPutFirst opening (S.left input.old) (O.held out.old) (O.held out.new) }
    ensures read { OnOk result (WasRead (S.left input.old) (S.left input.new)) }
    ensures written_read { IsErrOf result MirrorFault.WriteFault → WasRead (S.left input.old) (S.left input.new) }
    ensures bad_record { (place : ℕ) → result ≡ Err (MirrorFault.BadRecord place) → WasBadAt (S.left input.old) place }
    ensures bad_read { (place : ℕ) → result ≡ Err (MirrorFault.BadRecord place) → WasRead (S.left input.old) (S.left input.new) }
    ensures late_record { (first : ℕ) → result ≡ Err (MirrorFault.LateRecord first) → WasLate (S.left input.old) first }
    ensures late_read { (first : ℕ) → result ≡ Err (MirrorFault.LateRecord first) → WasRead (S.left input.old) (S.left input.new) }
    ensures read_fault { IsErrOf result MirrorFault.ReadFault → Rose (S.faults input.old) (S.faults input.new) }
    ensures steady { ¬ IsErrOf result MirrorFault.ReadFault → S.faults input.new ≡ S.faults input.old }
    ensures write_fault { IsErrOf result MirrorFault.WriteFault → Rose (O.faults out.old) (O.faults out.new) }
    ensures counted { O.faults out.old ≤ O.faults out.new }
{
    let text = match read_up_to(alloc, MAX_LEN, input) {
        Ok(text) => text,
        Err(InputFault::Failed) => return Err(MirrorFault::ReadFault),
        Err(InputFault::Memory) => return Err(MirrorFault::Memory),
    };
    match Record::check(alloc, text.as_slice()) {
        Ok(left) => match put_frames::<Brand, O>(alloc, opening, left, out, Blank::new(1)) {
            Ok(()) => Ok(()),
            Err(SinkFault::Failed) => Err(MirrorFault::WriteFault),
            Err(SinkFault::Memory) => Err(MirrorFault::Memory),
        },
        Err(fault) => Err(fault_of(fault)),
    }
}
