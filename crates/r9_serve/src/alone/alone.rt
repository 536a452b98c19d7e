//! The command `alone`.

ghost use Rattle.std.specs.Prelude.{◌≡◌, ℕ, All, OnOk, IfOk, IsErrOf, Err};
ghost use Rattle.r9_outside.specs.outside.Count.{Rose};
ghost use Rattle.model_alone.specs.alone.Lone.{lone};
ghost use Rattle.model_history.specs.records.Record.{IsBadAt, IsLate};
ghost use Rattle.law_strangers.specs.near.Steps.{IsSoundStep};
ghost use Rattle.r9_serve.specs.replay.Replays.{WasBadAt, WasLate, WasRead};
ghost use Rattle.r9_serve.specs.alone.Answers.{replies_as, AreLoneReplies, WasNotAlone};
ghost use Rattle.r9_serve.specs.alone.Texts.{AreLoneRepliesTo, IsNotAloneIn};

use crate::alone::fault::AloneFault;
use crate::alone::watching::watched;
use crate::replay::{MAX_LEN, ReplyLog};
use r9_event::event::{Opening, Reply};
use r9_isol::lone::Lone;
use r9_isol::watch::Items;
use r9_journal::Record;
use r9_memory::Memory;
use r9_outside::input::{InputFault, read_up_to};
use r9_outside::outside::Source;
use std::alloc::Global;

/// The replies that a world of its own gives to what a session is told, under the session's number.
fn answered(
    alloc: Global,
    opening: &Opening,
    session: u32,
    items: &Items,
) -> Result<ReplyLog, Memory>
    requires { All IsSoundStep items.now }
    ensures { IfOk result (λ log. log ≡ replies_as session (lone opening.now items.now)) }
{
    let mut log = ReplyLog::new(alloc);
    for bytes in Lone::run(alloc, opening, items)? {
        log.push(&Reply { session, bytes })?;
    }
    Ok(log)
}

/// What a session is answered that is alone with its window in the history whose record a text is.
fn alone_text(
    alloc: Global,
    opening: Opening,
    session: u32,
    text: &[u8],
) -> Result<ReplyLog, AloneFault>
    ensures replies { IfOk result (λ log. AreLoneRepliesTo opening session text.now log) }
    ensures not_alone { (entry reason : ℕ) → result ≡ Err (AloneFault.NotAlone entry reason) → IsNotAloneIn opening session text.now entry reason }
    ensures bad { (place : ℕ) → result ≡ Err (AloneFault.BadRecord place) → IsBadAt text.now place }
    ensures late { (first : ℕ) → result ≡ Err (AloneFault.LateRecord first) → IsLate text.now first }
    ensures read { ¬ IsErrOf result AloneFault.ReadFault }
{
    let left = Record::check(alloc, text)?;
    let watch = watched(alloc, opening, session, left)?;
    let log = answered(alloc, &opening, session, watch.items())?;
    Ok(log)
}

/// What a session is answered that is alone with its window in the history whose record the input has: the replies that a world of its own
/// gives, which is told only the session's messages and the notes of its window (intro(5), draw(3), rio(4)).
pub fn alone_input<S: Source>(
    alloc: Global,
    opening: Opening,
    session: u32,
    input: &mut S,
) -> Result<ReplyLog, AloneFault>
    ensures replies { IfOk result (λ log. AreLoneReplies opening session (S.left input.old) log) }
    ensures read { OnOk result (WasRead (S.left input.old) (S.left input.new)) }
    ensures not_alone { (entry reason : ℕ) → result ≡ Err (AloneFault.NotAlone entry reason) → WasNotAlone opening session (S.left input.old) entry reason }
    ensures alone_read { (entry reason : ℕ) → result ≡ Err (AloneFault.NotAlone entry reason) → WasRead (S.left input.old) (S.left input.new) }
    ensures bad_record { (place : ℕ) → result ≡ Err (AloneFault.BadRecord place) → WasBadAt (S.left input.old) place }
    ensures bad_read { (place : ℕ) → result ≡ Err (AloneFault.BadRecord place) → WasRead (S.left input.old) (S.left input.new) }
    ensures late_record { (first : ℕ) → result ≡ Err (AloneFault.LateRecord first) → WasLate (S.left input.old) first }
    ensures late_read { (first : ℕ) → result ≡ Err (AloneFault.LateRecord first) → WasRead (S.left input.old) (S.left input.new) }
    ensures read_fault { IsErrOf result AloneFault.ReadFault → Rose (S.faults input.old) (S.faults input.new) }
    ensures steady { ¬ IsErrOf result AloneFault.ReadFault → S.faults input.new ≡ S.faults input.old }
{
    let text = match read_up_to(alloc, MAX_LEN, input) {
        Ok(text) => text,
        Err(InputFault::Failed) => return Err(AloneFault::ReadFault),
        Err(InputFault::Memory) => return Err(AloneFault::Memory),
    };
    alone_text(alloc, opening, session, text.as_slice())
}
