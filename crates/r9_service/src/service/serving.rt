//! Serving by workers over one hall, whose record is written while it goes on.
ghost use Rattle.std.specs.Prelude.{◌≡◌, ◌<◌, ◌≤◌, ◌^◌, [], length};
ghost use Rattle.r9_attend.specs.attend.Calls.{told_ends};
ghost use Rattle.r9_attend.specs.workers.Shifts.{told_doors};
ghost use Rattle.r9_service.specs.service.Serving.{Serving, side};

use crate::recorder::{Keeps, Recorder, give_back};
use crate::service::outcome::{Outcome, Served, Service, outcome_of};
use crate::service::run::{no_sessions, serve_over};
use crate::service::telling::put_report;
use r9_hall::hall::Hall;
use r9_outside::outside::{Door, Sink};
use std::alloc::Global;
use std::marker::Brand;
use std::sync::Wait;
use std::thread::Threads;

/// Serves over a hall in which nothing has happened.
fn serve_hall<
    R: Threads + Wait + Sync,
    H: Keeps + Drop + Send,
    O: Sink + Send,
    E: Sink,
    D: Door + Send,
>(
    rt: &R,
    alloc: Global,
    service: &Service<'_>,
    hall: H,
    out: &mut O,
    err: &mut E,
    doors: &mut [D],
) -> Served
    requires workers { (0 < service.now.workers) × (service.now.workers < 1024) × (service.now.workers ≤ length doors.old) }
    requires stands { H.stands hall [] }
    requires first { H.first hall ≡ 1 }
    requires opening { H.opening hall ≡ service.now.opening }
    ensures { Serving (told_doors D.ended D.over D.faults (told_ends D.In.left D.In.faults D.Out.held D.Out.unflushed D.Out.faults)) service.now.opening service.now.sessions service.now.workers result.outcome result.told doors.old doors.new (side (O.held out.old) (O.unflushed out.old) (O.faults out.old)) (side (O.held out.new) (O.unflushed out.new) (O.faults out.new)) (side (E.held err.old) (E.unflushed err.old) (E.faults err.old)) (side (E.held err.new) (E.unflushed err.new) (E.faults err.new)) }
{
    let mut report = no_sessions(alloc);
    let mut recorder = Recorder::new(hall, out);
    recorder.begin();
    let mut recorder = serve_over::<R, H, O, D, Brand>(
        rt,
        alloc,
        service,
        recorder,
        doors,
        &mut report,
    );
    let stopped = recorder.is_stopped();
    let told = put_report(alloc, &report.sessions, err);
    let finished = recorder.finish();
    give_back(recorder);
    Served {
        outcome: outcome_of(&report, stopped, told, finished),
        told: told.is_ok(),
    }
}

/// Serves sessions that come to doors. It puts the record of what happened into out while that goes on, and at the end a line into err
/// for each session that did not end plainly.
pub fn serve<R: Threads + Wait + Sync, O: Sink + Send, E: Sink, D: Door + Send>(
    rt: &R,
    alloc: Global,
    service: &Service<'_>,
    out: &mut O,
    err: &mut E,
    doors: &mut [D],
) -> Served
    requires workers { (0 < service.now.workers) × (service.now.workers < 1024) × (service.now.workers ≤ length doors.old) }
    ensures { Serving (told_doors D.ended D.over D.faults (told_ends D.In.left D.In.faults D.Out.held D.Out.unflushed D.Out.faults)) service.now.opening service.now.sessions service.now.workers result.outcome result.told doors.old doors.new (side (O.held out.old) (O.unflushed out.old) (O.faults out.old)) (side (O.held out.new) (O.unflushed out.new) (O.faults out.new)) (side (E.held err.old) (E.unflushed err.old) (E.faults err.old)) (side (E.held err.new) (E.unflushed err.new) (E.faults err.new)) }
{
    match Hall::start_unwatched(alloc, service.opening) {
        Ok(hall) => serve_hall(rt, alloc, service, hall, out, err, doors),
        Err(_) => Served {
            outcome: Outcome::Memory,
            told: true,
        },
    }
}
