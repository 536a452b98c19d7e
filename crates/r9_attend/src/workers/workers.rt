//! Workers beside each other.
ghost use Rattle.std.specs.Prelude.{◌≡◌, ◌≤◌, ◌<◌, ◌+◌, ◌*◌, ◌^◌, ℕ, List, [], ◌∷◌, length, take, drop, All, None, false};
ghost use Rattle.r9_event.specs.declared.event.event.Entry.{Entry};
ghost use Rattle.r9_lock.specs.Passes.{Known, IsWhole};
ghost use Rattle.model_history.specs.event.Legal.{IsLegal};
ghost use Rattle.model_history.specs.event.Journal.{events_of};
ghost use Rattle.r9_attend.specs.attend.Calls.{told_ends};
ghost use Rattle.r9_attend.specs.workers.Shifts.{told_doors, share_of, calls_of};
ghost use Rattle.r9_attend.specs.workers.Serving.{Served, InHistory, IsFine};
ghost use Rattle.r9_attend.specs.workers.Steps.{Half, CanWork};
ghost use Rattle.std.specs.Thread.{IsSync, IsSend};
ghost use Rattle.r9_attend.specs.declared.workers.report.Report.{Report};

use crate::attend::{Muster, Serves};
use crate::workers::report::Report;
use crate::workers::room::Room;
use crate::workers::worker::serve;
use r9_lock::{Pass, Shared};
use r9_outside::outside::Door;
use std::alloc::Global;
use std::sync::Wait;
use std::thread::{Threads, join_mut};

// The share of a worker.
fn share(sessions: u32, workers: u32, worker: u32) -> u32
    requires { (0 < workers) × (0 < worker) }
    ensures { result ≡ share_of sessions workers worker }
{
    let share = sessions / workers;
    if worker <= sessions % workers {
        share + 1
    } else {
        share
    }
}

// One worker at its door, with a second pass beside the given one.
fn work_alone<T: Serves + Send, D: Door, R: Threads + Wait + Sync>(
    room: &Room<'_, '_, T, R>,
    worker: u32,
    pass: &mut Pass<T>,
    door: &mut D,
) -> Report
    requires can { CanWork room.now.lock.now.id worker pass.old 1 }
    requires workers { 0 < room.now.workers }
    ensures { Half (told_doors D.ended D.over D.faults (told_ends D.In.left D.In.faults D.Out.held D.Out.unflushed D.Out.faults)) T.server (share_of room.now.sessions room.now.workers) worker (door.old ∷ []) (door.new ∷ []) pass.old pass.new result }
{
    let share = share(room.sessions, room.workers, worker);
    let mut writer = room.lock.split(pass, 1);
    let report = serve(room, worker, share, pass, &mut writer, door);
    room.lock.join(pass, writer);
    report
}

// The workers from this number on, one at each of the doors.
#[cycle(halves)]
fn work_from<T: Serves + Send, D: Door + Send, R: Threads + Wait + Sync>(
    room: &Room<'_, '_, T, R>,
    worker: u32,
    pass: &mut Pass<T>,
    doors: &mut [D],
) -> Report
    requires can { CanWork room.now.lock.now.id worker pass.old (length doors.old) }
    requires workers { 0 < room.now.workers }
    ensures { Half (told_doors D.ended D.over D.faults (told_ends D.In.left D.In.faults D.Out.held D.Out.unflushed D.Out.faults)) T.server (share_of room.now.sessions room.now.workers) worker doors.old doors.new pass.old pass.new result }
{
    let count = doors.len();
    if count == 1 {
        return work_alone(room, worker, pass, &mut doors[0]);
    }
    let middle = count / 2;
    let (front, back) = doors.split_at_mut(middle);
    let mut later = room.lock.split(pass, 2 * back.len() as u32);
    let (report, other) = both_halves(
        room.rt,
        room,
        worker,
        worker + middle as u32,
        pass,
        front,
        &mut later,
        back,
    );
    room.lock.join(pass, later);
    report.and(other)
}

// The two closures capture the room, a number, a pass and a half of the doors each.
#[cycle(halves)]
fn both_halves<T: Serves + Send, D: Door + Send, R: Threads + Wait + Sync>(
    rt: &R,
    room: &Room<'_, '_, T, R>,
    worker: u32,
    middle: u32,
    pass: &mut Pass<T>,
    front: &mut [D],
    later: &mut Pass<T>,
    back: &mut [D],
) -> (Report, Report)
    requires front { CanWork room.now.lock.now.id worker pass.old (length front.old) }
    requires back { CanWork room.now.lock.now.id middle later.old (length back.old) }
    requires workers { 0 < room.now.workers }
    ensures front { Half (told_doors D.ended D.over D.faults (told_ends D.In.left D.In.faults D.Out.held D.Out.unflushed D.Out.faults)) T.server (share_of room.now.sessions room.now.workers) worker front.old front.new pass.old pass.new result.0 }
    ensures back { Half (told_doors D.ended D.over D.faults (told_ends D.In.left D.In.faults D.Out.held D.Out.unflushed D.Out.faults)) T.server (share_of room.now.sessions room.now.workers) middle back.old back.new later.old later.new result.1 }
{
    let mut first = || -> Report
        requires { IsSync R.row × IsSend T.row × IsSend D.row × CanWork room.now.lock.now.id worker pass.now (length front.now) × (0 < room.now.workers) }
        ensures { Half (told_doors D.ended D.over D.faults (told_ends D.In.left D.In.faults D.Out.held D.Out.unflushed D.Out.faults)) T.server (share_of room.entry.now.sessions room.entry.now.workers) worker front.entry.now front.exit.now pass.entry.now pass.exit.now result }
    { work_from(room, worker, pass, front) };
    let mut last = || -> Report
        requires { IsSync R.row × IsSend T.row × IsSend D.row × CanWork room.now.lock.now.id middle later.now (length back.now) × (0 < room.now.workers) }
        ensures { Half (told_doors D.ended D.over D.faults (told_ends D.In.left D.In.faults D.Out.held D.Out.unflushed D.Out.faults)) T.server (share_of room.entry.now.sessions room.entry.now.workers) middle back.entry.now back.exit.now later.entry.now later.exit.now result }
    { work_from(room, middle, later, back) };
    join_mut(rt, &mut first, &mut last)
}

/// Lets the workers 1 to `workers` attend to so many sessions, each to its share of them at its door, one after the other, and
/// all beside each other. The first of the workers, as many as the rest of `sessions` by `workers`, have one session more. Where no
/// thread can be had for one of them, none attends to any.
pub fn work_all<T: Serves + Send, D: Door + Send, R: Threads + Wait + Sync>(
    rt: &R,
    alloc: Global,
    lock: &Shared<T>,
    pass: &mut Pass<T>,
    doors: &mut [D],
    workers: u32,
    sessions: u32,
) -> Report
    requires lock { pass.old.lock ≡ lock.now.id }
    requires workers { (0 < workers) × (workers < 2 ^ 30) × (workers ≤ length doors.old) }
    requires shares { 2 * workers ≤ pass.old.shares }
    ensures served { Served (told_doors D.ended D.over D.faults (told_ends D.In.left D.In.faults D.Out.held D.Out.unflushed D.Out.faults)) T.server (share_of sessions workers) (take workers doors.old) (take workers doors.new) pass.old pass.new result }
    ensures others { drop workers doors.new ≡ drop workers doors.old }
{
    let room = Room {
        rt,
        alloc,
        lock,
        sessions,
        workers,
        all: Muster::new(workers),
    };
    work_from(&room, 1, pass, &mut doors[..workers as usize]).in_order()
}

/// What workers did, who are fewer than sessions may live at once, holds of the history of their lock, where nobody else has a pass of
/// it, and the history is legal. Where neither memory nor turns ran out, each call had a session.
pub fn told_of_history<T: Serves, D: Door>()
    ensures { (share : ℕ → ℕ) (old new : List D) (before after : Known Entry) (report : Report) (value : T) (history : List Entry) → length old < 1024 → before.made ≡ []
        → (served : Served (told_doors D.ended D.over D.faults (told_ends D.In.left D.In.faults D.Out.held D.Out.unflushed D.Out.faults)) T.server share old new before after report)
        → IsWhole T.stands value history after → IsLegal (events_of history)
        → InHistory (told_doors D.ended D.over D.faults (told_ends D.In.left D.In.faults D.Out.held D.Out.unflushed D.Out.faults)) T.server (events_of history) (calls_of served.works.shifts)
        × (report.memory ≡ false → report.spent ≡ None → All IsFine (calls_of served.works.shifts)) }
{}
