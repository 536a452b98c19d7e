//! The top call.

ghost use Rattle.std.specs.Prelude.{◌≡◌, ◌≢◌, ◌<◌, ◌≤◌, ◌^◌, ◌⊎◌, ℕ, Bool, List, length, Some, None, String, true, false, Ok, Err, OnOk, IsErrOf};
ghost use Rattle.std.specs.declared.alloc.Global.{Global};
ghost use Rattle.r9_hall.specs.hall.WorldView.{world_in};
ghost use Rattle.r9_outside.specs.outside.Count.{Rose};
ghost use Rattle.r9_outside.specs.outside.Sink.{Appends, AppendsPart};
ghost use Rattle.r9_event.specs.declared.event.event.Event.{Event};
ghost use Rattle.r9_event.specs.declared.event.event.Opening.{Opening};
ghost use Rattle.model_history.specs.records.Record.{IsLate, IsNeither, IsRecord};
ghost use Rattle.r9_opts.specs.declared.job.Job.{Job};
ghost use Rattle.r9_opts.specs.declared.job.Job.TheVariants as job;
ghost use Rattle.r9_serve.specs.replay.Replayed.{output};
ghost use Rattle.model_alone.specs.alone.Own.{not_alone};
ghost use Rattle.model_files.specs.declared.mouse.Mouse.{Mouse};
ghost use Rattle.r9_clients.specs.textfile.Input.{Input, input_of};
ghost use Rattle.r9_clients.specs.deskfile.Events.{events_of};
ghost use Rattle.r9_attend.specs.attend.Calls.{told_ends};
ghost use Rattle.r9_attend.specs.workers.Shifts.{told_doors};
ghost use Rattle.r9_service.specs.service.Serving.{side};
ghost use Rattle.r9_serve.specs.replay.Replays.{WasBadAt, WasLate};
ghost use Rattle.r9_serve.specs.serve.Run.{Ask, AskForAlone, AskForDesk, AskForRecord, AskForReplay, AskForText, AskToRead, AskToServe, HasFailed, HasServed, IsOutAfter, IsInputAfter, IsServedOrSpent, WasAskedNotAlone, WasRefused, WasServed, IsDone, IsRefused, IsToldBad, IsToldLate, IsToldNotAlone, status_line, status_of};

use crate::replay::{Ended, ReplayFault, put_screen, replay_input};
use crate::serve::alone::put_alone;
use crate::serve::desk::put_desk;
use crate::serve::generate::generate;
use crate::serve::mirror::mirror;
use crate::serve::status::Status;
use crate::serve::text::show_text;
use r9_event::event::Opening;
use r9_opts::{Job, OptsFault, read_words};
use r9_outside::outside::{Door, Sink, SinkFault, Source, put_all};
use r9_service::service::{Outcome, Service, serve};
use std::alloc::Global;
use std::sync::Wait;
use std::thread::Threads;

/// How many doors `run` wants: the most workers that words can ask for.
pub const DOORS: usize = 16;

/// Puts the reply lines of what a history led to, and then the screen where it is asked for, and sends all on. After an `Err` only
/// a front of that was put, which may be empty.
fn put_output<O: Sink>(
    alloc: Global,
    screen: bool,
    ended: &Ended,
    out: &mut O,
) -> Result<(), SinkFault>
    ensures ok { OnOk result (Appends (O.held out.old) (output screen ended.now.log (world_in ended.now.world)) (O.held out.new) × (O.unflushed out.new ≡ false)) }
    ensures part { AppendsPart (O.held out.old) (output screen ended.now.log (world_in ended.now.world)) (O.held out.new) }
    ensures failed { IsErrOf result SinkFault.Failed → Rose (O.faults out.old) (O.faults out.new) }
{
    ended.log.put_lines(alloc, out)?;
    if screen {
        put_screen(alloc, &ended.world, out)?;
    }
    Ok(())
}

/// Replays the record on input, and puts its reply lines into out, and then the screen where it is asked for.
fn replay<S: Source, O: Sink>(
    alloc: Global,
    opening: Opening,
    screen: bool,
    input: &mut S,
    out: &mut O,
) -> Status
    ensures asked { result ≢ Status.Usage }
    ensures doors { (worker : ℕ) → result ≢ Status.DoorFault worker }
    ensures turns { (count : ℕ) → result ≢ Status.Spent count }
    ensures inputs { (place : ℕ) → result ≢ Status.BadInput place }
    ensures alone { (entry reason : ℕ) → result ≢ Status.NotAlone entry reason }
    ensures out { IsOutAfter (λ asked. asked ≡ job.Replay opening screen) result (S.left input.old) (O.held out.old) (O.held out.new) }
    ensures flushed { result ≡ Status.Done → O.unflushed out.new ≡ false }
    ensures input { IsInputAfter (λ asked. asked ≡ job.Replay opening screen) result (S.left input.old) (S.left input.new) }
    ensures bad_record { (place : ℕ) → result ≡ Status.BadRecord place → WasBadAt (S.left input.old) place }
    ensures late_record { (first : ℕ) → result ≡ Status.LateRecord first → WasLate (S.left input.old) first }
    ensures read_fault { result ≡ Status.ReadFault → Rose (S.faults input.old) (S.faults input.new) }
    ensures steady { result ≢ Status.ReadFault → S.faults input.new ≡ S.faults input.old }
    ensures write_fault { result ≡ Status.WriteFault → Rose (O.faults out.old) (O.faults out.new) }
{
    let ended = match replay_input(alloc, opening, input) {
        Ok(ended) => ended,
        Err(ReplayFault::BadRecord(place)) => return Status::BadRecord { place },
        Err(ReplayFault::LateRecord(first)) => return Status::LateRecord { first },
        Err(ReplayFault::ReadFault) => return Status::ReadFault,
        Err(ReplayFault::Memory) => return Status::Memory,
    };
    match put_output(alloc, screen, &ended, out) {
        Ok(()) => Status::Done,
        Err(SinkFault::Failed) => Status::WriteFault,
        Err(SinkFault::Memory) => Status::Memory,
    }
}

/// How a job ended, and whether the line of its status may follow on err.
#[derive(Clone, Copy)]
struct Ending {
    status: Status,
    told: bool,
}

/// A job that said nothing on err.
fn with_line(status: Status) -> Ending
    ensures { result ≡ record { status = status; told = true } }
{
    Ending { status, told: true }
}

fn status_of(outcome: Outcome) -> Status
    ensures { result ≡ status_of outcome }
{
    match outcome {
        Outcome::Done => Status::Done,
        Outcome::DoorFault { worker } => Status::DoorFault { worker },
        Outcome::Spent { count } => Status::Spent { count },
        Outcome::WriteFault => Status::WriteFault,
        Outcome::Memory => Status::Memory,
    }
}

/// Serves the sessions that come to the doors, and puts the record of what happened into out.
fn serve_job<R: Threads + Wait + Sync, O: Sink + Send, E: Sink, D: Door + Send>(
    rt: &R,
    alloc: Global,
    service: &Service<'_>,
    out: &mut O,
    err: &mut E,
    doors: &mut [D],
) -> Ending
    requires workers { (0 < service.now.workers) × (service.now.workers ≤ 16) × (16 ≤ length doors.old) }
    ensures { (listen : String Global) → WasServed (told_doors D.ended D.over D.faults (told_ends D.In.left D.In.faults D.Out.held D.Out.unflushed D.Out.faults)) (λ asked. asked ≡ job.Serve service.now.opening listen service.now.workers service.now.sessions) result.status result.told doors.old doors.new (side (O.held out.old) (O.unflushed out.old) (O.faults out.old)) (side (O.held out.new) (O.unflushed out.new) (O.faults out.new)) (side (E.held err.old) (E.unflushed err.old) (E.faults err.old)) (side (E.held err.new) (E.unflushed err.new) (E.faults err.new)) }
{
    let served = serve(rt, alloc, service, out, err, doors);
    Ending {
        status: status_of(served.outcome),
        told: served.told,
    }
}

/// Does what the words ask for.
fn do_job<R: Threads + Wait + Sync, S: Source, O: Sink + Send, E: Sink, D: Door + Send>(
    rt: &R,
    alloc: Global,
    words: &[&str],
    input: &mut S,
    out: &mut O,
    err: &mut E,
    doors: &mut [D],
) -> Ending
    requires doors { 16 ≤ length doors.old }
    ensures usage { result.status ≡ Status.Usage → (job : Job) → ¬ Ask words.now job }
    ensures nothing { ((job : Job) → ¬ Ask words.now job) → (result.status ≡ Status.Usage) ⊎ (result.status ≡ Status.Memory) }
    ensures out { IsOutAfter (Ask words.now) result.status (S.left input.old) (O.held out.old) (O.held out.new) }
    ensures flushed { result.status ≡ Status.Done → O.unflushed out.new ≡ false }
    ensures input { IsInputAfter (Ask words.now) result.status (S.left input.old) (S.left input.new) }
    ensures bad_record { (place : ℕ) → result.status ≡ Status.BadRecord place → AskForRecord words.now × WasBadAt (S.left input.old) place }
    ensures late_record { (first : ℕ) → result.status ≡ Status.LateRecord first → AskForRecord words.now × WasLate (S.left input.old) first }
    ensures not_alone { (entry reason : ℕ) → result.status ≡ Status.NotAlone entry reason → WasAskedNotAlone words.now (S.left input.old) entry reason }
    ensures bad_input { (place : ℕ) → result.status ≡ Status.BadInput place → WasRefused words.now (S.left input.old) place }
    ensures read_fault { result.status ≡ Status.ReadFault → AskToRead words.now × Rose (S.faults input.old) (S.faults input.new) }
    ensures steady { result.status ≢ Status.ReadFault → S.faults input.new ≡ S.faults input.old }
    ensures write_fault { result.status ≡ Status.WriteFault → Rose (O.faults out.old) (O.faults out.new) ⊎ (AskToServe words.now × Rose (E.faults err.old) (E.faults err.new)) }
    ensures serves { AskToServe words.now → WasServed (told_doors D.ended D.over D.faults (told_ends D.In.left D.In.faults D.Out.held D.Out.unflushed D.Out.faults)) (Ask words.now) result.status result.told doors.old doors.new (side (O.held out.old) (O.unflushed out.old) (O.faults out.old)) (side (O.held out.new) (O.unflushed out.new) (O.faults out.new)) (side (E.held err.old) (E.unflushed err.old) (E.faults err.old)) (side (E.held err.new) (E.unflushed err.new) (E.faults err.new)) }
    ensures others { ¬ AskToServe words.now → (doors.new ≡ doors.old) × (E.held err.new ≡ E.held err.old) × (result.told ≡ true) }
    ensures serving { (worker : ℕ) → result.status ≡ Status.DoorFault worker → AskToServe words.now }
    ensures turns { (count : ℕ) → result.status ≡ Status.Spent count → AskToServe words.now }
{
    let job = match read_words(alloc, words) {
        Ok(job) => job,
        Err(OptsFault::Usage) => return with_line(Status::Usage),
        Err(OptsFault::Memory) => return with_line(Status::Memory),
    };
    match &job {
        Job::Replay { opening, screen } => with_line(replay(alloc, *opening, *screen, input, out)),
        Job::Mirror { opening } => with_line(mirror(alloc, *opening, input, out)),
        Job::Gen { number } => with_line(generate(alloc, *number, out)),
        Job::Text { cols, rows } => with_line(show_text(alloc, *cols, *rows, input, out)),
        Job::Desk => with_line(put_desk(alloc, input, out)),
        Job::Serve {
            opening,
            listen,
            workers,
            conns,
        } => {
            let service = Service {
                opening: *opening,
                listen: listen.as_str(),
                workers: *workers,
                sessions: *conns,
            };
            serve_job(rt, alloc, &service, out, err, doors)
        }
        Job::Alone { opening, session } => {
            with_line(put_alone(alloc, *opening, *session, input, out))
        }
    }
}

/// Puts the line of a status into err, as `run` does; for a program that ends before it has words to run. A fault of err changes
/// nothing else, and for want of memory there may be no line.
pub fn tell<E: Sink>(alloc: Global, status: Status, err: &mut E)
    ensures counted { E.faults err.old ≤ E.faults err.new }
    ensures line { AppendsPart (E.held err.old) (status_line status) (E.held err.new) }
{
    if let Ok(line) = status.line(alloc) {
        let _ = put_all(err, line.as_slice());
        let _ = err.flush();
    }
}

/// Puts the line of a status into err, where it may follow.
fn tell_ending<E: Sink>(alloc: Global, ending: Ending, err: &mut E)
    ensures counted { E.faults err.old ≤ E.faults err.new }
    ensures line { ending.told ≡ true → AppendsPart (E.held err.old) (status_line ending.status) (E.held err.new) }
    ensures silent { ending.told ≡ false → E.held err.new ≡ E.held err.old }
{
    if ending.told {
        tell(alloc, ending.status, err);
    }
}

/// Does what the words behind the program's name ask for, and tells on err how it ended.
///
/// There are seven commands. `replay`, with the options `--size WxH` and `--chan C` for the display that the server starts with
/// (640x480 and x8r8g8b8 where they are left out) and the flag `--screen`, reads a session record, of less than 2^30 bytes, from input,
/// runs its events, and then puts a line for each reply into out; a record whose header tells that its entries are not numbered from 1
/// is not run. With `--screen` the letter S, a blank and the length of the screen's file in bytes follow as a line, and then that file
/// (image(6)). `mirror`, with the same two options, reads such a record and runs it, and puts frames out: frame 0 has each cell of the
/// display, of 32 by 32 pixels, and after each entry follows a frame of the cells that it changed, with a cursor where the mouse was
/// last (docs/FORMATS.md). `alone`, with the same two options and `--conn C`, reads such a record and runs it, and puts the lines of
/// the replies to session C, where that is alone with its window: they are made in a world of the session's own, which is told nothing
/// but its messages and the notes of its window, and are those of its replies in the history. Of a session that is not alone nothing is
/// put, and `Status::NotAlone` tells from which entry on it is not, and why. `serve`, with the same two options, `--listen A`,
/// `--workers K` (1 to 16) and `--conns N`, opens the first K doors at the address A, lets K workers beside each other attend to N
/// sessions that come to them, and puts the record of what happened into out while it goes on; at the end err gets a line for each
/// session that did not end plainly. `gen N` makes a record of N messages that raise, lower, move and draw on eight windows, runs it,
/// and puts out how many events it has and how many replies they get. `text`, with `--cols C` (4 to 200) and `--rows R` (4 to 100),
/// reads a font and a text, of less than 2^20 bytes, from input, and puts out the record of a session that shows the text in a window
/// of C columns and R rows, piece by piece, on a display of 640x480 and x8r8g8b8. `desk` reads events of the mouse on such a display,
/// texts of 49 bytes each and fewer than 2^20 bytes in all, from input, and puts out the record of a session that makes, moves,
/// resizes, hides and deletes windows as they say, by a menu. A fault of err changes nothing but in `serve`, where it is a
/// `Status::WriteFault`. Want of memory is answered by `Status::Memory`.
pub fn run<R: Threads + Wait + Sync, S: Source, O: Sink + Send, E: Sink, D: Door + Send>(
    rt: &R,
    alloc: Global,
    words: &[&str],
    input: &mut S,
    out: &mut O,
    err: &mut E,
    doors: &mut [D],
) -> Status
    requires doors { 16 ≤ length doors.old }

    // It is Usage only where the words ask for no job, and there always, unless memory ran out.
    ensures usage { result ≡ Status.Usage → (job : Job) → ¬ Ask words.now job }
    ensures nothing { ((job : Job) → ¬ Ask words.now job) → (result ≡ Status.Usage) ⊎ (result ≡ Status.Memory) }

    // At Done of a replay the input had the record of one history, and out has grown by its reply lines, and by the screen where that
    // is asked for; at Done of a mirror the input had such a record, and out has grown by frames, from those of which up to each entry
    // a viewer shows the display after it with the cursor over it; at Done of a session alone the input had such a record, the session
    // is alone with its window in its history, and out has grown by the lines of the replies that a world of its own gives to what it
    // is told, which are the replies to it in the history; at Done of a made record it has grown by the lines that count its events,
    // its replies, the pixels that were written, which are at most what the events cost, and the tiles that keep hidden pixels; at Done
    // of serving it has grown by the record of a legal history; at Done of a text the input had a font and a text, and out has grown by
    // the record of a legal history of one session whose window shows that text; at Done of a desk the input was events of the mouse,
    // and out has grown by the record of a legal history of one session that does what they say.
    ensures out { IsOutAfter (Ask words.now) result (S.left input.old) (O.held out.old) (O.held out.new) }
    ensures flushed { result ≡ Status.Done → O.unflushed out.new ≡ false }

    // A replay, a mirror and a session alone read the input to its end or to the limit of a record, and a text to its end or to a limit
    // of its own, unless it failed or memory ran out, and a desk as a text; nothing else reads it.
    ensures input { IsInputAfter (Ask words.now) result (S.left input.old) (S.left input.new) }

    // Once a call of the input has failed it is not asked again: it has counted no fault with any other status.
    ensures steady { result ≢ Status.ReadFault → S.faults input.new ≡ S.faults input.old }

    // Serving: one legal history was kept under the lock; each session that it begins is that of one call of a worker, and the bytes
    // that were read from it and put to it are those of its messages and of what the server of that history took for it. Out has
    // grown by the history's record, and err by the lines of the sessions that did not end plainly.
    ensures serves { AskToServe words.now → HasServed (told_doors D.ended D.over D.faults (told_ends D.In.left D.In.faults D.Out.held D.Out.unflushed D.Out.faults)) (Ask words.now) result doors.old doors.new (side (O.held out.old) (O.unflushed out.old) (O.faults out.old)) (side (O.held out.new) (O.unflushed out.new) (O.faults out.new)) (side (E.held err.old) (E.unflushed err.old) (E.faults err.old)) (side (E.held err.new) (E.unflushed err.new) (E.faults err.new)) }
    ensures doors { ¬ AskToServe words.now → doors.new ≡ doors.old }

    // No status comes without its cause.
    ensures bad_record { (place : ℕ) → result ≡ Status.BadRecord place → AskForRecord words.now × WasBadAt (S.left input.old) place }
    ensures late_record { (first : ℕ) → result ≡ Status.LateRecord first → AskForRecord words.now × WasLate (S.left input.old) first }
    ensures not_alone { (entry reason : ℕ) → result ≡ Status.NotAlone entry reason → WasAskedNotAlone words.now (S.left input.old) entry reason }
    ensures bad_input { (place : ℕ) → result ≡ Status.BadInput place → WasRefused words.now (S.left input.old) place }
    ensures read_fault { result ≡ Status.ReadFault → AskToRead words.now × Rose (S.faults input.old) (S.faults input.new) }
    ensures write_fault { result ≡ Status.WriteFault → Rose (O.faults out.old) (O.faults out.new) ⊎ (AskToServe words.now × Rose (E.faults err.old) (E.faults err.new)) }
    ensures door_fault { (worker : ℕ) → result ≡ Status.DoorFault worker → AskToServe words.now × HasFailed D.faults worker doors.old doors.new }
    ensures spent { (count : ℕ) → result ≡ Status.Spent count → AskToServe words.now × (2 ^ 62 ≤ count) }

    // Where nothing failed, a record is replayed or mirrored, what is none and not late is refused, what is late is told as that, a
    // session is answered that is alone in a record, and of one that is not it is told from where on and why; a record is made, and
    // sessions are served, unless memory ran out, or the lock's turns; a text is shown, events are followed, and an input that is none
    // is told to be bad where it is.
    ensures complete { AskForReplay words.now → ¬ Rose (S.faults input.old) (S.faults input.new) →
        ¬ Rose (O.faults out.old) (O.faults out.new) → (text : List ℕ) (events : List Event) →
        S.left input.old ≡ Some text → IsRecord text events → IsDone result }
    ensures refuses { AskForRecord words.now → ¬ Rose (S.faults input.old) (S.faults input.new) →
        (text : List ℕ) → S.left input.old ≡ Some text → IsNeither text → IsRefused result }
    ensures late { AskForRecord words.now → ¬ Rose (S.faults input.old) (S.faults input.new) →
        (text : List ℕ) (first : ℕ) → S.left input.old ≡ Some text → IsLate text first → IsToldLate result first }
    ensures answered { (opening : Opening) (session : ℕ) → AskForAlone words.now opening session → ¬ Rose (S.faults input.old) (S.faults input.new) →
        ¬ Rose (O.faults out.old) (O.faults out.new) → (text : List ℕ) (events : List Event) →
        S.left input.old ≡ Some text → IsRecord text events → not_alone opening session events ≡ None → IsDone result }
    ensures accompanied { (opening : Opening) (session : ℕ) → AskForAlone words.now opening session → ¬ Rose (S.faults input.old) (S.faults input.new) →
        (text : List ℕ) (events : List Event) (entry reason : ℕ) → S.left input.old ≡ Some text → IsRecord text events →
        not_alone opening session events ≡ Some (entry, reason) → IsToldNotAlone result entry reason }
    ensures makes { (number : ℕ) → Ask words.now (job.Gen number) → ¬ Rose (O.faults out.old) (O.faults out.new) → IsDone result }
    ensures typed { AskForText words.now → ¬ Rose (S.faults input.old) (S.faults input.new) →
        ¬ Rose (O.faults out.old) (O.faults out.new) → (bytes : List ℕ) (shown : Input) →
        S.left input.old ≡ Some bytes → input_of bytes ≡ Ok shown → IsDone result }
    ensures mistyped { AskForText words.now → ¬ Rose (S.faults input.old) (S.faults input.new) →
        (bytes : List ℕ) (place : ℕ) → S.left input.old ≡ Some bytes → input_of bytes ≡ Err place → IsToldBad result place }
    ensures pointed { AskForDesk words.now → ¬ Rose (S.faults input.old) (S.faults input.new) →
        ¬ Rose (O.faults out.old) (O.faults out.new) → (bytes : List ℕ) (events : List Mouse) →
        S.left input.old ≡ Some bytes → events_of bytes ≡ Ok events → IsDone result }
    ensures mispointed { AskForDesk words.now → ¬ Rose (S.faults input.old) (S.faults input.new) →
        (bytes : List ℕ) (place : ℕ) → S.left input.old ≡ Some bytes → events_of bytes ≡ Err place → IsToldBad result place }
    ensures completes { AskToServe words.now → ¬ Rose (O.faults out.old) (O.faults out.new) → ¬ Rose (E.faults err.old) (E.faults err.new) →
        ((worker : ℕ) → ¬ HasFailed D.faults worker doors.old doors.new) → IsServedOrSpent result }

    ensures line { ¬ AskToServe words.now → AppendsPart (E.held err.old) (status_line result) (E.held err.new) }
{
    let ending = do_job(rt, alloc, words, input, out, err, doors);
    tell_ending(alloc, ending, err);
    ending.status
}
