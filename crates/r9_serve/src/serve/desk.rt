//! The command `desk`.

ghost use Rattle.std.specs.Prelude.{◌≡◌, ◌≢◌, ℕ, false, IfOk, OnOk, IsErrOf, Err};
ghost use Rattle.r9_opts.specs.declared.job.Job.TheVariants as job;
ghost use Rattle.r9_outside.specs.outside.Count.{Rose};
ghost use Rattle.r9_outside.specs.input.Taken.{WasReadTo};
ghost use Rattle.r9_clients.specs.deskfile.Events.{events_of, limit};
ghost use Rattle.r9_clients.specs.pointing.Record.{IsDeskRecord};
ghost use Rattle.r9_serve.specs.serve.Run.{IsInputAfter, IsOutAfter, WasBadEvents, WasPiloted};

use crate::serve::fault::MakeFault;
use crate::serve::put::put_text;
use crate::serve::status::Status;
use r9_clients::pointing::{DeskFault, desk_record};
use r9_outside::input::{InputFault, read_up_to};
use r9_outside::outside::{Sink, SinkFault, Source};
use r9_text::Bytes;
use std::alloc::Global;

/// So many bytes of the input are read at most. One that has them is bad.
const MAX_LEN: usize = 1 << 20;

/// The record that does what the events say that were read.
fn make(alloc: Global, read: &[u8]) -> Result<Bytes, MakeFault>
    ensures record { IfOk result (λ lines. IsDeskRecord read.now lines) }
    ensures bad { (place : ℕ) → result ≡ Err (MakeFault.BadInput place) → events_of read.now ≡ Err place }
    ensures read { ¬ IsErrOf result MakeFault.ReadFault }
{
    match desk_record(alloc, read) {
        Ok(record) => Ok(record),
        Err(DeskFault::Bad { place }) => Err(MakeFault::BadInput(place)),
        Err(DeskFault::Memory) => Err(MakeFault::Memory),
    }
}

/// The record that does what the events of the input say. What was read is gone once that is made.
fn made<S: Source>(alloc: Global, input: &mut S) -> Result<Bytes, MakeFault>
    ensures record { IfOk result (λ lines. WasPiloted (S.left input.old) lines) }
    ensures read { OnOk result (WasReadTo limit (S.left input.old) (S.left input.new)) }
    ensures bad { (place : ℕ) → result ≡ Err (MakeFault.BadInput place) → WasBadEvents (S.left input.old) place }
    ensures bad_read { (place : ℕ) → result ≡ Err (MakeFault.BadInput place) → WasReadTo limit (S.left input.old) (S.left input.new) }
    ensures read_fault { IsErrOf result MakeFault.ReadFault → Rose (S.faults input.old) (S.faults input.new) }
    ensures steady { ¬ IsErrOf result MakeFault.ReadFault → S.faults input.new ≡ S.faults input.old }
{
    match read_up_to(alloc, MAX_LEN, input) {
        Ok(read) => make(alloc, read.as_slice()),
        Err(InputFault::Failed) => Err(MakeFault::ReadFault),
        Err(InputFault::Memory) => Err(MakeFault::Memory),
    }
}

/// Puts the record that does what the events of the input say. It is made whole before any of it is put, so that after an input that is
/// none nothing is.
pub fn put_desk<S: Source, O: Sink>(alloc: Global, input: &mut S, out: &mut O) -> Status
    ensures asked { result ≢ Status.Usage }
    ensures records { (place : ℕ) → result ≢ Status.BadRecord place }
    ensures parts { (first : ℕ) → result ≢ Status.LateRecord first }
    ensures alone { (entry reason : ℕ) → result ≢ Status.NotAlone entry reason }
    ensures doors { (worker : ℕ) → result ≢ Status.DoorFault worker }
    ensures turns { (count : ℕ) → result ≢ Status.Spent count }
    ensures out { IsOutAfter (λ asked. asked ≡ job.Desk) result (S.left input.old) (O.held out.old) (O.held out.new) }
    ensures flushed { result ≡ Status.Done → O.unflushed out.new ≡ false }
    ensures input { IsInputAfter (λ asked. asked ≡ job.Desk) result (S.left input.old) (S.left input.new) }
    ensures bad_input { (place : ℕ) → result ≡ Status.BadInput place → WasBadEvents (S.left input.old) place }
    ensures read_fault { result ≡ Status.ReadFault → Rose (S.faults input.old) (S.faults input.new) }
    ensures steady { result ≢ Status.ReadFault → S.faults input.new ≡ S.faults input.old }
    ensures write_fault { result ≡ Status.WriteFault → Rose (O.faults out.old) (O.faults out.new) }
{
    let record = match made(alloc, input) {
        Ok(record) => record,
        Err(MakeFault::BadInput(place)) => return Status::BadInput { place },
        Err(MakeFault::ReadFault) => return Status::ReadFault,
        Err(MakeFault::Memory) => return Status::Memory,
    };
    match put_text(record.as_slice(), out) {
        Ok(()) => Status::Done,
        Err(SinkFault::Failed) => Status::WriteFault,
        Err(SinkFault::Memory) => Status::Memory,
    }
}
