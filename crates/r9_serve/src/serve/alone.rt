//! The command `alone`.

ghost use Rattle.std.specs.Prelude.{◌≡◌, ◌≢◌, ℕ, false};
ghost use Rattle.r9_opts.specs.declared.job.Job.TheVariants as job;
ghost use Rattle.r9_outside.specs.outside.Count.{Rose};
ghost use Rattle.r9_serve.specs.replay.Replays.{WasBadAt, WasLate};
ghost use Rattle.r9_serve.specs.alone.Answers.{WasNotAlone};
ghost use Rattle.r9_serve.specs.serve.Run.{IsInputAfter, IsOutAfter};

use crate::alone::{AloneFault, alone_input};
use crate::serve::status::Status;
use r9_event::event::Opening;
use r9_outside::outside::{Sink, SinkFault, Source};
use std::alloc::Global;

/// Reads the record on input, and puts the lines of the replies to a session that is alone with its window in it. They are all there
/// before any of them is put, so that of a session that is not alone nothing is.
pub fn put_alone<S: Source, O: Sink>(
    alloc: Global,
    opening: Opening,
    session: u32,
    input: &mut S,
    out: &mut O,
) -> Status
    ensures asked { result ≢ Status.Usage }
    ensures doors { (worker : ℕ) → result ≢ Status.DoorFault worker }
    ensures turns { (count : ℕ) → result ≢ Status.Spent count }
    ensures inputs { (place : ℕ) → result ≢ Status.BadInput place }
    ensures out { IsOutAfter (λ asked. asked ≡ job.Alone opening session) result (S.left input.old) (O.held out.old) (O.held out.new) }
    ensures flushed { result ≡ Status.Done → O.unflushed out.new ≡ false }
    ensures input { IsInputAfter (λ asked. asked ≡ job.Alone opening session) result (S.left input.old) (S.left input.new) }
    ensures not_alone { (entry reason : ℕ) → result ≡ Status.NotAlone entry reason → WasNotAlone opening session (S.left input.old) entry reason }
    ensures bad_record { (place : ℕ) → result ≡ Status.BadRecord place → WasBadAt (S.left input.old) place }
    ensures late_record { (first : ℕ) → result ≡ Status.LateRecord first → WasLate (S.left input.old) first }
    ensures read_fault { result ≡ Status.ReadFault → Rose (S.faults input.old) (S.faults input.new) }
    ensures steady { result ≢ Status.ReadFault → S.faults input.new ≡ S.faults input.old }
    ensures write_fault { result ≡ Status.WriteFault → Rose (O.faults out.old) (O.faults out.new) }
{
    let log = match alone_input(alloc, opening, session, input) {
        Ok(log) => log,
        Err(AloneFault::NotAlone { entry, reason }) => return Status::NotAlone { entry, reason },
        Err(AloneFault::BadRecord(place)) => return Status::BadRecord { place },
        Err(AloneFault::LateRecord(first)) => return Status::LateRecord { first },
        Err(AloneFault::ReadFault) => return Status::ReadFault,
        Err(AloneFault::Memory) => return Status::Memory,
    };
    match log.put_lines(alloc, out) {
        Ok(()) => Status::Done,
        Err(SinkFault::Failed) => Status::WriteFault,
        Err(SinkFault::Memory) => Status::Memory,
    }
}
