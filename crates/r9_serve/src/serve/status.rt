//! How a call of the program ended.

ghost use Rattle.std.specs.Prelude.{◌≡◌, ◌++◌, IfOk, codes};
ghost use Rattle.std.specs.Fmt.{decimal};
ghost use Rattle.model_history.specs.records.Line.{line};
ghost use Rattle.r9_serve.specs.serve.Run.{code_of, status_line};

use r9_memory::Memory;
use r9_text::{Bytes, push_decimal};
use std::alloc::Global;

/// How a call of the program ended.
#[derive(Clone, Copy, Debug, PartialEq, Eq)]
pub enum Status {
    /// The job was done.
    Done,
    /// The words are no command.
    Usage,
    /// The input is no record. It goes wrong at this place, the offset in bytes of the first line that does not fit.
    BadRecord { place: u64 },
    /// The input is a part of a record: its header tells that the first entry has this number, which is above 1.
    LateRecord { first: u64 },
    /// The input is no font with a text, or not events of the mouse, as the command wants it. It goes wrong at this place, the offset in
    /// bytes of the first field that does not fit, 60 where rows of the font are missing, that of the first event that is none, or the
    /// limit of 1,048,576 bytes.
    BadInput { place: u64 },
    /// The session is not alone with its window in the history of the record, from the entry of this number on. The reason is the number of
    /// the lowest that holds there, from 1 to 12.
    NotAlone { entry: u64, reason: u8 },
    /// Input failed.
    ReadFault,
    /// Out failed.
    WriteFault,
    /// There was no memory.
    Memory,
    /// The door of this worker failed, the lowest that did. Workers are numbered from 1.
    DoorFault { worker: u32 },
    /// The lock of the hall has no more turns; this is its count.
    Spent { count: u64 },
}

/// The line that tells where a record goes wrong.
fn bad_record_line(alloc: Global, place: u64) -> Result<Bytes, Memory>
    ensures { IfOk result (λ text. text ≡ line (codes "rio9: bad record at byte " ++ decimal place)) }
{
    let mut text = Bytes::from_slice(alloc, b"rio9: bad record at byte ")?;
    push_decimal(&mut text, place)?;
    text.push(b'\n')?;
    Ok(text)
}

/// The line that tells where the entries of a part of a record begin.
fn late_record_line(alloc: Global, first: u64) -> Result<Bytes, Memory>
    ensures { IfOk result (λ text. text ≡ line (codes "rio9: late record: first entry " ++ decimal first)) }
{
    let mut text = Bytes::from_slice(alloc, b"rio9: late record: first entry ")?;
    push_decimal(&mut text, first)?;
    text.push(b'\n')?;
    Ok(text)
}

/// The line that tells where an input goes wrong.
fn bad_input_line(alloc: Global, place: u64) -> Result<Bytes, Memory>
    ensures { IfOk result (λ text. text ≡ line (codes "rio9: bad input at byte " ++ decimal place)) }
{
    let mut text = Bytes::from_slice(alloc, b"rio9: bad input at byte ")?;
    push_decimal(&mut text, place)?;
    text.push(b'\n')?;
    Ok(text)
}

/// The line that tells from which entry on a session is not alone, and why.
fn not_alone_line(alloc: Global, entry: u64, reason: u8) -> Result<Bytes, Memory>
    ensures { IfOk result (λ text. text ≡ line (codes "rio9: not alone: entry " ++ decimal entry ++ codes ": reason " ++ decimal reason)) }
{
    let mut text = Bytes::from_slice(alloc, b"rio9: not alone: entry ")?;
    push_decimal(&mut text, entry)?;
    text.push_all(b": reason ")?;
    push_decimal(&mut text, u64::from(reason))?;
    text.push(b'\n')?;
    Ok(text)
}

/// The line that tells which worker's door failed.
fn door_fault_line(alloc: Global, worker: u32) -> Result<Bytes, Memory>
    ensures { IfOk result (λ text. text ≡ line (codes "rio9: door fault: worker " ++ decimal worker)) }
{
    let mut text = Bytes::from_slice(alloc, b"rio9: door fault: worker ")?;
    push_decimal(&mut text, u64::from(worker))?;
    text.push(b'\n')?;
    Ok(text)
}

impl Status {
    /// The exit status of the process.
    pub fn code(&self) -> u8
        ensures { result ≡ code_of self.now }
    {
        match self {
            Status::Done => 0,
            Status::Usage => 1,
            Status::BadRecord { .. } => 2,
            Status::LateRecord { .. } => 10,
            Status::BadInput { .. } => 11,
            Status::NotAlone { .. } => 7,
            Status::ReadFault => 3,
            Status::WriteFault => 4,
            Status::Memory => 5,
            Status::DoorFault { .. } => 6,
            Status::Spent { .. } => 9,
        }
    }

    /// The line on standard error, with its newline; empty where the job was done.
    pub fn line(&self, alloc: Global) -> Result<Bytes, Memory>
        ensures { IfOk result (λ text. text ≡ status_line self.now) }
    {
        match self {
            Status::Done => Ok(Bytes::new(alloc)),
            Status::Usage => Bytes::from_slice(alloc, b"rio9: usage\n"),
            Status::BadRecord { place } => bad_record_line(alloc, *place),
            Status::LateRecord { first } => late_record_line(alloc, *first),
            Status::BadInput { place } => bad_input_line(alloc, *place),
            Status::NotAlone { entry, reason } => not_alone_line(alloc, *entry, *reason),
            Status::ReadFault => Bytes::from_slice(alloc, b"rio9: read fault\n"),
            Status::WriteFault => Bytes::from_slice(alloc, b"rio9: write fault\n"),
            Status::Memory => Bytes::from_slice(alloc, b"rio9: out of memory\n"),
            Status::DoorFault { worker } => door_fault_line(alloc, *worker),
            Status::Spent { .. } => Bytes::from_slice(alloc, b"rio9: turns spent\n"),
        }
    }
}
