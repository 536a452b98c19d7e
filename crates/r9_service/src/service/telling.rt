//! The lines of sessions that did not end plainly.
ghost use Rattle.std.specs.Prelude.{◌≡◌, ◌≤◌, OnOk, IfSome, IfNone, IsErr, IsErrOf};
ghost use Rattle.std.specs.List.{flat_map};
ghost use Rattle.r9_outside.specs.outside.Count.{Rose};
ghost use Rattle.r9_outside.specs.outside.Sink.{Appends, AppendsPart};
ghost use Rattle.r9_attend.specs.workers.Lines.{lines_of};

use r9_attend::workers::Unplain;
use r9_outside::outside::{Sink, SinkFault, put_all};
use std::alloc::Global;

/// Puts the lines of sessions that did not end plainly. After an `Err` only a front of that was put, which may be empty.
fn put_lines<E: Sink>(alloc: Global, sessions: &[Unplain], err: &mut E) -> Result<(), SinkFault>
    ensures ok { OnOk result (Appends (E.held err.old) (flat_map lines_of sessions.now) (E.held err.new)) }
    ensures part { AppendsPart (E.held err.old) (flat_map lines_of sessions.now) (E.held err.new) }
    ensures failed { IsErrOf result SinkFault.Failed → Rose (E.faults err.old) (E.faults err.new) }
    ensures counted { E.faults err.old ≤ E.faults err.new }
{
    for ends in sessions {
        let Ok(lines) = ends.lines(alloc) else {
            return Err(SinkFault::Memory);
        };
        put_all(err, lines.as_slice())?;
    }
    Ok(())
}

/// Puts the lines of the sessions of a report, where there was memory for their list.
pub(crate) fn put_report<E: Sink>(
    alloc: Global,
    sessions: &Option<Vec<Unplain>>,
    err: &mut E,
) -> Result<(), SinkFault>
    ensures ok { IfSome sessions.now (λ list. OnOk result (Appends (E.held err.old) (flat_map lines_of list.items) (E.held err.new))) }
    ensures part { IfSome sessions.now (λ list. AppendsPart (E.held err.old) (flat_map lines_of list.items) (E.held err.new)) }
    ensures none { IfNone sessions.now (IsErr result × (E.held err.new ≡ E.held err.old)) }
    ensures failed { IsErrOf result SinkFault.Failed → Rose (E.faults err.old) (E.faults err.new) }
{
    match sessions {
        Some(list) => put_lines(alloc, list, err),
        None => Err(SinkFault::Memory),
    }
}
