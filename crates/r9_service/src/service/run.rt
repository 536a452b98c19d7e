//! Workers over one hall, whose record is written while they go on.
ghost use Rattle.std.specs.Prelude.{◌≡◌, ◌<◌, ◌≤◌, ◌*◌, ◌^◌, ◌⊎◌, [], List, length, true, false, None};
ghost use Rattle.r9_event.specs.declared.event.event.Entry.{Entry};
ghost use Rattle.model_served.specs.served.Served.{served};
ghost use Rattle.r9_attend.specs.attend.Calls.{told_ends};
ghost use Rattle.r9_attend.specs.workers.Shifts.{told_doors, share_of};
ghost use Rattle.r9_service.specs.recorder.Recording.{Records};
ghost use Rattle.r9_service.specs.service.Runs.{Came, NotOpened, Ran, TellsNone};

use crate::recorder::{Keeps, Recorder, Running, Runs, told_of_recorder};
use crate::service::outcome::Service;
use r9_attend::attend::Serves;
use r9_attend::workers::{Report, has_threads, listen_all, told_of_history, work_all};
use r9_lock::{Pass, Refused, Shared};
use r9_outside::outside::{Door, Sink};
use std::alloc::Global;
use std::sync::Wait;
use std::thread::Threads;

/// The report of no session.
pub(crate) fn no_sessions(alloc: Global) -> Report
    ensures none { TellsNone result }
    ensures fine { (result.door_fault ≡ None) × (result.memory ≡ false) }
{
    Report {
        door_fault: None,
        memory: false,
        spent: None,
        sessions: Some(Vec::new(alloc)),
    }
}

/// The report where nobody was served for want of memory.
fn short(alloc: Global) -> Report
    ensures none { TellsNone result }
    ensures short { (result.door_fault ≡ None) × (result.memory ≡ true) }
{
    Report {
        memory: true,
        ..no_sessions(alloc)
    }
}

/// Opens the doors, and lets the workers attend to the sessions that come to them.
fn work<T: Serves + Send, D: Door + Send, R: Threads + Wait + Sync>(
    rt: &R,
    alloc: Global,
    lock: &Shared<T>,
    pass: &mut Pass<T>,
    service: &Service<'_>,
    doors: &mut [D],
) -> Report
    requires lock { pass.old.lock ≡ lock.now.id }
    requires workers { (0 < service.now.workers) × (service.now.workers < 1024) × (service.now.workers ≤ length doors.old) }
    requires shares { 2 * service.now.workers ≤ pass.old.shares }
    ensures { Came (told_doors D.ended D.over D.faults (told_ends D.In.left D.In.faults D.Out.held D.Out.unflushed D.Out.faults)) T.server (share_of service.now.sessions service.now.workers) service.now.workers doors.old doors.new pass.old pass.new result
        ⊎ (NotOpened (told_doors D.ended D.over D.faults (told_ends D.In.left D.In.faults D.Out.held D.Out.unflushed D.Out.faults)) service.now.workers doors.old doors.new result × (pass.new ≡ pass.old)) }
{
    match listen_all(doors, service.workers, service.listen) {
        Ok(()) => work_all(
            rt,
            alloc,
            lock,
            pass,
            doors,
            service.workers,
            service.sessions,
        ),
        Err(worker) => Report {
            door_fault: Some(worker),
            ..no_sessions(alloc)
        },
    }
}

/// Lets workers serve over a recorder's hall, in which nothing has happened, and gives the recorder back. Each worker has a thread, and
/// one more while it attends to a session: where so many cannot be had no door is opened.
pub(crate) fn serve_over<
    'a,
    R: Threads + Wait + Sync,
    H: Keeps + Drop + Send,
    O: Sink + Send,
    D: Door + Send,
    J: Runs + Send,
>(
    rt: &R,
    alloc: Global,
    service: &Service<'_>,
    recorder: Recorder<'a, H, O>,
    doors: &mut [D],
    report: &mut Report,
) -> Recorder<'a, H, O>
    requires workers { (0 < service.now.workers) × (service.now.workers < 1024) × (service.now.workers ≤ length doors.old) }
    requires recorder { Records H.first H.stands O.held O.faults J.loan recorder [] }
    requires first { H.first recorder.hall ≡ 1 }
    requires opening { H.opening recorder.hall ≡ J.opening }
    ensures same { result.out.ghost_name ≡ recorder.entry.out.ghost_name }
    ensures ran { (history : List Entry) × Records H.first H.stands O.held O.faults J.loan result history
        × Ran (told_doors D.ended D.over D.faults (told_ends D.In.left D.In.faults D.Out.held D.Out.unflushed D.Out.faults)) (served J.opening) (share_of service.now.sessions service.now.workers) service.now.workers doors.old doors.new history report.new }
{
    if !has_threads(rt, 2 * service.workers - 1) {
        *report = short(alloc);
        return recorder;
    }
    let running: Running<'a, H, O, J> = Running::new(recorder);
    let (lock, mut pass) = match Shared::start(alloc, running, 2 * service.workers) {
        Ok(started) => started,
        Err(refused) => {
            *report = short(alloc);
            let Refused { value } = refused;
            let Running { recorder, of: _ } = value;
            return recorder;
        }
    };
    *report = work(rt, alloc, &lock, &mut pass, service, doors);
    told_of_history::<Running<'a, H, O, J>, D>();
    told_of_recorder::<H, O>();
    let Running { recorder, of: _ } = lock.close(pass);
    recorder
}
