//! The command `text`.

ghost use Rattle.std.specs.Prelude.{◌≡◌, ◌≢◌, ◌≤◌, ℕ, false, IfOk, OnOk, IsErrOf, Err};
ghost use Rattle.r9_opts.specs.declared.job.Job.TheVariants as job;
ghost use Rattle.r9_outside.specs.outside.Count.{Rose};
ghost use Rattle.r9_outside.specs.input.Taken.{WasReadTo};
ghost use Rattle.r9_clients.specs.textfile.Input.{input_of, limit};
ghost use Rattle.r9_clients.specs.typing.Record.{IsTextRecord};
ghost use Rattle.r9_serve.specs.serve.Run.{IsInputAfter, IsOutAfter, WasBadInput, WasTextShown};

use crate::serve::fault::MakeFault;
use crate::serve::put::put_text;
use crate::serve::status::Status;
use r9_clients::typing::{TextFault, text_record};
use r9_outside::input::{InputFault, read_up_to};
use r9_outside::outside::{Sink, SinkFault, Source};
use r9_text::Bytes;
use std::alloc::Global;

/// So many bytes of the input are read at most. One that has them is bad.
const MAX_LEN: usize = 1 << 20;

/// The record that shows the text of what was read.
fn show(alloc: Global, columns: u32, rows: u32, read: &[u8]) -> Result<Bytes, MakeFault>
    requires wide { (4 ≤ columns) × (columns ≤ 200) }
    requires high { (4 ≤ rows) × (rows ≤ 100) }
    ensures record { IfOk result (λ lines. IsTextRecord columns rows read.now lines) }
    ensures bad { (place : ℕ) → result ≡ Err (MakeFault.BadInput place) → input_of read.now ≡ Err place }
    ensures read { ¬ IsErrOf result MakeFault.ReadFault }
{
    match text_record(alloc, columns, rows, read) {
        Ok(record) => Ok(record),
        Err(TextFault::Bad { place }) => Err(MakeFault::BadInput(place)),
        Err(TextFault::Memory) => Err(MakeFault::Memory),
    }
}

/// The record that shows the text that the input has. What was read is gone once that is made.
fn shown<S: Source>(
    alloc: Global,
    columns: u32,
    rows: u32,
    input: &mut S,
) -> Result<Bytes, MakeFault>
    requires wide { (4 ≤ columns) × (columns ≤ 200) }
    requires high { (4 ≤ rows) × (rows ≤ 100) }
    ensures record { IfOk result (λ lines. WasTextShown columns rows (S.left input.old) lines) }
    ensures read { OnOk result (WasReadTo limit (S.left input.old) (S.left input.new)) }
    ensures bad { (place : ℕ) → result ≡ Err (MakeFault.BadInput place) → WasBadInput (S.left input.old) place }
    ensures bad_read { (place : ℕ) → result ≡ Err (MakeFault.BadInput place) → WasReadTo limit (S.left input.old) (S.left input.new) }
    ensures read_fault { IsErrOf result MakeFault.ReadFault → Rose (S.faults input.old) (S.faults input.new) }
    ensures steady { ¬ IsErrOf result MakeFault.ReadFault → S.faults input.new ≡ S.faults input.old }
{
    match read_up_to(alloc, MAX_LEN, input) {
        Ok(read) => show(alloc, columns, rows, read.as_slice()),
        Err(InputFault::Failed) => Err(MakeFault::ReadFault),
        Err(InputFault::Memory) => Err(MakeFault::Memory),
    }
}

/// Puts the record that shows the text of the input in a window of so many columns and rows. It is made whole before any of it is
/// put, so that after an input that is none nothing is.
pub fn show_text<S: Source, O: Sink>(
    alloc: Global,
    columns: u32,
    rows: u32,
    input: &mut S,
    out: &mut O,
) -> Status
    requires wide { (4 ≤ columns) × (columns ≤ 200) }
    requires high { (4 ≤ rows) × (rows ≤ 100) }
    ensures asked { result ≢ Status.Usage }
    ensures records { (place : ℕ) → result ≢ Status.BadRecord place }
    ensures parts { (first : ℕ) → result ≢ Status.LateRecord first }
    ensures alone { (entry reason : ℕ) → result ≢ Status.NotAlone entry reason }
    ensures doors { (worker : ℕ) → result ≢ Status.DoorFault worker }
    ensures turns { (count : ℕ) → result ≢ Status.Spent count }
    ensures out { IsOutAfter (λ asked. asked ≡ job.Text columns rows) result (S.left input.old) (O.held out.old) (O.held out.new) }
    ensures flushed { result ≡ Status.Done → O.unflushed out.new ≡ false }
    ensures input { IsInputAfter (λ asked. asked ≡ job.Text columns rows) result (S.left input.old) (S.left input.new) }
    ensures bad_input { (place : ℕ) → result ≡ Status.BadInput place → WasBadInput (S.left input.old) place }
    ensures read_fault { result ≡ Status.ReadFault → Rose (S.faults input.old) (S.faults input.new) }
    ensures steady { result ≢ Status.ReadFault → S.faults input.new ≡ S.faults input.old }
    ensures write_fault { result ≡ Status.WriteFault → Rose (O.faults out.old) (O.faults out.new) }
{
    let record = match shown(alloc, columns, rows, input) {
        Ok(record) => record,
        Err(MakeFault::BadInput(place)) => return Status::BadInput { place },
        Err(MakeFault::ReadFault) => return Status::ReadFault,
        Err(MakeFault::Memory) => return Status::Memory,
    };
    match put_text(record.as_slice(), out) {
        Ok(()) => Status::Done,
        Err(SinkFault::Failed) => Status::WriteFault,
        Err(SinkFault::Memory) => Status::Memory,
    }
}
