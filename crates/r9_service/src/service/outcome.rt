//! What is to be served, and how it ended.
ghost use Rattle.std.specs.Prelude.{◌≡◌, ◌||◌};
ghost use Rattle.r9_service.specs.service.Runs.{lines_lacked, outcome_of, record_lacked};

use crate::recorder::RecordFault;
use r9_attend::workers::Report;
use r9_event::event::Opening;
use r9_outside::outside::SinkFault;

/// What is to be served: a display, at an address, by so many workers, to so many sessions.
#[derive(Clone, Copy, Debug)]
pub struct Service<'a> {
    pub opening: Opening,
    pub listen: &'a str,
    pub workers: u32,
    pub sessions: u32,
}

/// How serving ended. Faults of sessions alone leave it `Done`.
#[derive(Clone, Copy, Debug, PartialEq, Eq)]
pub enum Outcome {
    /// Each worker attended to its share, or nobody came to its door any more, and the record is whole and flushed.
    Done,
    /// This worker's door failed, the lowest that did. Workers are numbered from 1.
    DoorFault { worker: u32 },
    /// The lock has no more turns; this is its count.
    Spent { count: u64 },
    /// Out or err failed.
    WriteFault,
    /// There was no memory.
    Memory,
}

/// How serving ended, and whether err got all lines of the sessions that did not end plainly.
#[derive(Clone, Copy, Debug)]
pub struct Served {
    pub outcome: Outcome,
    pub told: bool,
}

/// Whether there was no memory for the lines of the sessions or for the record.
fn lacks_memory(told: Result<(), SinkFault>, finished: Result<(), RecordFault>) -> bool
    ensures { result ≡ (lines_lacked told || record_lacked finished) }
{
    matches!(told, Err(SinkFault::Memory)) || matches!(finished, Err(RecordFault::Memory))
}

/// The first outcome that applies.
pub(crate) fn outcome_of(
    report: &Report,
    stopped: bool,
    told: Result<(), SinkFault>,
    finished: Result<(), RecordFault>,
) -> Outcome
    ensures { result ≡ outcome_of report.now stopped told finished }
{
    if let Some(worker) = report.door_fault {
        return Outcome::DoorFault { worker };
    }
    if let Some(count) = report.spent {
        return Outcome::Spent { count };
    }
    if report.memory || (stopped || lacks_memory(told, finished)) {
        return Outcome::Memory;
    }
    if told.is_err() || finished.is_err() {
        return Outcome::WriteFault;
    }
    Outcome::Done
}
