//! What the server answers to a history: the world, one step for each event, and the replies. Definitions that contracts
//! of other crates cite, and their laws; no code.
#![tactic(auto)]

ghost use Rattle.std.specs.Prelude.{◌≡◌, ◌≤◌, ◌==◌, ◌∷◌, All, IfSome, List, None, Option, Some, Ok, drop, length, true, false, is_some, ℕ};
ghost use Rattle.model_files.specs.wire.Message.{R, Rflush, Tflush, Twrite};
ghost use Rattle.model_files.specs.wire.Reading.{message_of, tag_of};
ghost use Rattle.model_text.specs.text.Map.{lookup};
ghost use Rattle.model_rio.specs.rio.Act.{Act};
ghost use Rattle.model_rio.specs.rio.Rio.{rio};
ghost use Rattle.model_rio.specs.rio.Step.{Step};
ghost use Rattle.model_rio.specs.window.Heard.{Heard};
ghost use Rattle.model_world.specs.Answer.{answer};
ghost use Rattle.model_world.specs.Desktop.{Desktop, stepped};
ghost use Rattle.model_world.specs.Fids.{Left, cleared, left, unanswered};
ghost use Rattle.model_world.specs.Reading.{most_waiting};
ghost use Rattle.model_world.specs.Refused.{is_error, may_leave_of};
ghost use Rattle.model_world.specs.Replay.{replay, replies_from, settled, step};
ghost use Rattle.model_world.specs.Session.{Session};
ghost use Rattle.model_world.specs.Sleeping.{AllSleepOn, SleepsOn, is_told, may_wake, stirred, stirs, told_windows, written_at};
ghost use Rattle.model_world.specs.Standing.{AllWaitOn, AreEmptied, AreInOrder, IsNoMessage, IsNoReply, tag_of_r};
ghost use Rattle.model_world.specs.Waiting.{one_answered, waits_for};
ghost use Rattle.model_world.specs.Whole.{desktop_for};
ghost use Rattle.model_world.specs.World.{World};
ghost use Rattle.r9_event.specs.declared.event.event.Event.{Event};
ghost use Rattle.r9_event.specs.declared.event.event.Event.TheVariants.{Msg};
ghost use Rattle.r9_event.specs.declared.event.event.Opening.{Opening};

/// A refusal leaves the session and all outside as they were, but that of a remove and of a write to `data`.
pub fn refusal_leaves_all()
    ensures { (c : ℕ) (session : Session) (desktop : Desktop) (bytes : List ℕ) (mark : Option ℕ) (reply : R) → may_leave_of session bytes ≡ false → (answer (desktop_for c) session desktop bytes mark).reply ≡ Some reply → is_error reply ≡ true → answer (desktop_for c) session desktop bytes mark ≡ left (session, desktop) reply }
{}

/// A write that is answered leaves its session as it was, refused or not.
pub fn write_leaves_session()
    ensures { (c : ℕ) (session : Session) (desktop : Desktop) (bytes : List ℕ) (mark : Option ℕ) (tag fid offset : ℕ) (written : List ℕ) (reply : R) → message_of bytes ≡ Some (Twrite tag fid offset written) → (answer (desktop_for c) session desktop bytes mark).reply ≡ Some reply → (answer (desktop_for c) session desktop bytes mark).session ≡ session }
{}

/// The reply to a message has its tag.
pub fn replies_have_tags_of_messages()
    ensures { (c : ℕ) (session : Session) (desktop : Desktop) (bytes : List ℕ) (mark : Option ℕ) → IfSome (answer (desktop_for c) session desktop bytes mark).reply (λ reply. tag_of_r reply ≡ tag_of bytes) }
{}

/// Answering reads that wait goes on until none that still waits can be answered.
pub fn settling_ends()
    ensures { (world : World) → AreInOrder world → AllWaitOn (settled world).0 }
{}

/// A read that can be answered never waits: none does after an event where none did before it, and so after each history.
pub fn answerable_reads_never_wait()
    ensures turn { (world : World) (event : Event) → AreInOrder world → AllWaitOn world → AllWaitOn (step world event).world }
    ensures history { (opening : Opening) (events : List Event) → AllWaitOn (replay opening events) }
{}

/// Only a read that waits is answered late, by its tag.
pub fn late_replies_have_waiting_tags()
    ensures { (c : ℕ) (session : Session) (desktop : Desktop) (after : Left Desktop) (reply : R) → one_answered (desktop_for c) session desktop ≡ Some after → after.reply ≡ Some reply → waits_for session (tag_of_r reply) ≡ true }
{}

/// Once a flush is answered, no read waits that has the tag which it names.
pub fn flushed_reads_wait_no_longer()
    ensures { (c : ℕ) (session : Session) (desktop : Desktop) (bytes : List ℕ) (mark : Option ℕ) (tag oldtag : ℕ) → message_of bytes ≡ Some (Tflush tag oldtag) → (answer (desktop_for c) session desktop bytes mark).reply ≡ Some (Rflush tag) → waits_for (answer (desktop_for c) session desktop bytes mark).session oldtag ≡ false }
{}

/// No reply behind that to a flush is one to the read which it names, unless the session says something with that tag again.
pub fn flushed_reads_get_no_reply()
    ensures { (world : World) (events : List Event) (c : ℕ) (session : Session) (bytes : List ℕ) (mark : Option ℕ) (tag oldtag : ℕ) → AreInOrder world → lookup world.sessions c ≡ Some session → message_of bytes ≡ Some (Tflush tag oldtag) → (answer (desktop_for c) session world.desktop bytes mark).reply ≡ Some (Rflush tag) → All (IsNoMessage c oldtag) events → All (IsNoReply c oldtag) (drop 1 (replies_from world (Msg c bytes mark ∷ events))) }
{}

/// At most 64 reads of a session wait.
pub fn few_reads_wait()
    ensures { (opening : Opening) (events : List Event) (c : ℕ) (session : Session) → lookup (replay opening events).sessions c ≡ Some session → length session.waiting ≤ most_waiting }
{}

/// A message to a closed session changes nothing and has no reply.
pub fn closed_sessions_answer_nothing()
    ensures { (c : ℕ) (session : Session) (desktop : Desktop) (bytes : List ℕ) (mark : Option ℕ) → is_some session.closed ≡ true → answer (desktop_for c) session desktop bytes mark ≡ unanswered (session, desktop) }
{}

/// A closed session has no fid, no read that waits, and no connection.
pub fn closed_sessions_have_nothing()
    ensures { (opening : Opening) (events : List Event) → AreEmptied (replay opening events) }
{}

/// Of what is heard at windows only notes and the beginning of raw mode may give something to a read that waits, and a step of
/// the window manager leaves each window asleep that it tells nothing.
pub fn only_notes_and_raw_mode_wake()
    ensures heard { (c : ℕ) (desktop : Desktop) (at window : ℕ) (heard : Heard) → stirs heard ≡ false → SleepsOn desktop ((desktop_for c).hear desktop at heard) window }
    ensures step { (desktop : Desktop) (a : Act) (step : Step) (window : ℕ) → rio desktop.table a ≡ Ok step → is_told window step.notes ≡ false → SleepsOn desktop (stepped desktop step) window }
{}

/// A message leaves each window asleep that it tells nothing and does not write at; so does the end of a session where it tells
/// nothing, and a late answer leaves all.
pub fn windows_that_are_told_nothing_sleep_on()
    ensures message { (c : ℕ) (session : Session) (desktop : Desktop) (bytes : List ℕ) (mark : Option ℕ) (window : ℕ) → is_told window (answer (desktop_for c) session desktop bytes mark).rest.notes ≡ false → (window == written_at session bytes) ≡ false → SleepsOn desktop (answer (desktop_for c) session desktop bytes mark).rest window }
    ensures end { (c : ℕ) (session : Session) (desktop : Desktop) (window : ℕ) → is_told window (cleared (desktop_for c) session desktop).1.notes ≡ false → SleepsOn desktop (cleared (desktop_for c) session desktop).1 window }
    ensures late { (c : ℕ) (session : Session) (desktop : Desktop) (after : Left Desktop) (window : ℕ) → one_answered (desktop_for c) session desktop ≡ Some after → SleepsOn desktop after.rest window }
    ensures quiet { (c : ℕ) (session : Session) (desktop : Desktop) (after : Left Desktop) → one_answered (desktop_for c) session desktop ≡ Some after → after.rest.notes ≡ desktop.notes }
{}

/// A window that sleeps on from one time to the next, and on from there, slept on all the time.
pub fn sleep_lasts()
    ensures same { (desktop : Desktop) (window : ℕ) → SleepsOn desktop desktop window }
    ensures further { (a b c : Desktop) (window : ℕ) → SleepsOn a b window → SleepsOn b c window → SleepsOn a c window }
{}

/// A session that has no read to answer has none where all that its reads wait for sleeps on.
pub fn sleeping_reads_wait_on()
    ensures { (c : ℕ) (session : Session) (before after : Desktop) → AllSleepOn session before after → one_answered (desktop_for c) session before ≡ None → one_answered (desktop_for c) session after ≡ None }
{}

/// Where no read can be answered, and then a message comes or a session ends, none of another session can be that has no read at
/// a window where something happened.
pub fn only_stirred_sessions_wake()
    ensures message { (world : World) (c d : ℕ) (session other : Session) (bytes : List ℕ) (mark : Option ℕ) → AllWaitOn world → lookup world.sessions d ≡ Some other → may_wake other (stirred (answer (desktop_for c) session world.desktop bytes mark).rest.notes (written_at session bytes)) ≡ false → one_answered (desktop_for d) other (answer (desktop_for c) session world.desktop bytes mark).rest ≡ None }
    ensures end { (world : World) (c d : ℕ) (session other : Session) → AllWaitOn world → lookup world.sessions d ≡ Some other → may_wake other (told_windows (cleared (desktop_for c) session world.desktop).1.notes) ≡ false → one_answered (desktop_for d) other (cleared (desktop_for c) session world.desktop).1 ≡ None }
{}

/// A late answer makes no read answerable that was not so before it.
pub fn late_answers_wake_nobody()
    ensures { (c d : ℕ) (session other : Session) (desktop : Desktop) (after : Left Desktop) → one_answered (desktop_for c) session desktop ≡ Some after → one_answered (desktop_for d) other desktop ≡ None → one_answered (desktop_for d) other after.rest ≡ None }
{}
