//! The command `mirror`.

ghost use Rattle.std.specs.Prelude.{◌≡◌, ◌≢◌, ℕ, true, false};
ghost use Rattle.r9_opts.specs.declared.job.Job.TheVariants as job;
ghost use Rattle.r9_outside.specs.outside.Count.{Rose};
ghost use Rattle.model_draw.specs.draw.Orders.{is_side};
ghost use Rattle.r9_serve.specs.replay.Replays.{WasBadAt, WasLate};
ghost use Rattle.r9_serve.specs.serve.Run.{IsInputAfter, IsOutAfter};

use crate::mirroring::{MirrorFault, mirror_input};
use crate::serve::status::Status;
use r9_event::event::Opening;
use r9_outside::outside::{Sink, Source};
use std::alloc::Global;

/// Mirrors the record on input: puts the frames of its history into out, one after each entry.
pub fn mirror<S: Source, O: Sink>(
    alloc: Global,
    opening: Opening,
    input: &mut S,
    out: &mut O,
) -> Status
    requires wide { is_side opening.width ≡ true }
    requires high { is_side opening.height ≡ true }
    ensures asked { result ≢ Status.Usage }
    ensures doors { (worker : ℕ) → result ≢ Status.DoorFault worker }
    ensures turns { (count : ℕ) → result ≢ Status.Spent count }
    ensures inputs { (place : ℕ) → result ≢ Status.BadInput place }
    ensures alone { (entry reason : ℕ) → result ≢ Status.NotAlone entry reason }
    ensures out { IsOutAfter (λ asked. asked ≡ job.Mirror opening) result (S.left input.old) (O.held out.old) (O.held out.new) }
    ensures flushed { result ≡ Status.Done → O.unflushed out.new ≡ false }
    ensures input { IsInputAfter (λ asked. asked ≡ job.Mirror opening) result (S.left input.old) (S.left input.new) }
    ensures bad_record { (place : ℕ) → result ≡ Status.BadRecord place → WasBadAt (S.left input.old) place }
    ensures late_record { (first : ℕ) → result ≡ Status.LateRecord first → WasLate (S.left input.old) first }
    ensures read_fault { result ≡ Status.ReadFault → Rose (S.faults input.old) (S.faults input.new) }
    ensures steady { result ≢ Status.ReadFault → S.faults input.new ≡ S.faults input.old }
    ensures write_fault { result ≡ Status.WriteFault → Rose (O.faults out.old) (O.faults out.new) }
{
    match mirror_input(alloc, opening, input, out) {
        Ok(()) => Status::Done,
        Err(MirrorFault::BadRecord(place)) => Status::BadRecord { place },
        Err(MirrorFault::LateRecord(first)) => Status::LateRecord { first },
        Err(MirrorFault::ReadFault) => Status::ReadFault,
        Err(MirrorFault::WriteFault) => Status::WriteFault,
        Err(MirrorFault::Memory) => Status::Memory,
    }
}
