//! One worker.
ghost use Rattle.std.specs.Prelude.{◌≡◌, ◌≤◌, ℕ};
ghost use Rattle.r9_attend.specs.attend.Calls.{told_ends};
ghost use Rattle.r9_attend.specs.workers.Shifts.{told_doors};
ghost use Rattle.r9_attend.specs.workers.Steps.{IsNext, place, Worked};

use crate::attend::{Attended, Serves, attend};
use crate::workers::report::Report;
use crate::workers::room::Room;
use r9_lock::Pass;
use r9_outside::outside::{AcceptFault, Door};
use std::sync::Wait;
use std::thread::Threads;

/// Attends to the next session of a door, or answers None where none comes.
fn serve_next<T: Serves + Send, D: Door, R: Threads + Wait + Sync>(
    room: &Room<'_, '_, T, R>,
    reader: &mut Pass<T>,
    writer: &mut Pass<T>,
    door: &mut D,
) -> Result<Option<Attended>, AcceptFault>
    requires { (reader.old.lock ≡ room.now.lock.now.id) × (writer.old.lock ≡ room.now.lock.now.id) }
    ensures { IsNext (told_doors D.ended D.over D.faults (told_ends D.In.left D.In.faults D.Out.held D.Out.unflushed D.Out.faults)) T.server result (place door.old reader.old writer.old) (place door.new reader.new writer.new) }
{
    let Some((mut input, mut output)) = door.accept()? else {
        return Ok(None);
    };
    let ends = attend(
        room.rt,
        room.alloc,
        room.lock,
        reader,
        writer,
        &mut input,
        &mut output,
    );
    door.done(ends.session, input, output);
    Ok(Some(ends))
}

/// Attends to so many sessions of a door, one after the other, or to fewer where none comes, the door fails or there is no
/// memory: to none where not all workers have come.
pub(crate) fn serve<T: Serves + Send, D: Door, R: Threads + Wait + Sync>(
    room: &Room<'_, '_, T, R>,
    worker: u32,
    share: u32,
    reader: &mut Pass<T>,
    writer: &mut Pass<T>,
    door: &mut D,
) -> Report
    requires { (reader.old.lock ≡ room.now.lock.now.id) × (writer.old.lock ≡ room.now.lock.now.id) }
    ensures { Worked (told_doors D.ended D.over D.faults (told_ends D.In.left D.In.faults D.Out.held D.Out.unflushed D.Out.faults)) T.server share worker (place door.old reader.old writer.old) (place door.new reader.new writer.new) result }
{
    let mut report = Report::new(room.alloc);
    if !room.all.is_whole(room.rt) {
        return report.short();
    }
    for _ in 0..share {
        match serve_next(room, reader, writer, door) {
            Ok(Some(ends)) => report = report.with(ends),
            Ok(None) => return report,
            Err(AcceptFault::Failed) => return report.failed(worker),
            Err(AcceptFault::Memory) => return report.short(),
        }
    }
    report
}
