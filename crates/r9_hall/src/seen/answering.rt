//! Answering a message, and seeing what it used.

ghost use Rattle.std.specs.Prelude.{◌≡◌, ◌≤◌, true, false, [], length, option_map, IsSome, IfOk, IfSome, OnOk};
ghost use Rattle.model_draw.specs.draw.Act.{no_memory};
ghost use Rattle.model_files.specs.wire.Spelling.{FitsR};
ghost use Rattle.model_world.specs.Answer.{answer};
ghost use Rattle.model_world.specs.Cut.{IsCutMessage, wants_for};
ghost use Rattle.model_world.specs.Links.{IsLinked, KeepsOthers};
ghost use Rattle.model_world.specs.Refusal.{IsRefused};
ghost use Rattle.model_world.specs.Sleeping.{written_at};
ghost use Rattle.model_world.specs.Whole.{desktop_for};
ghost use Rattle.model_alone.specs.used.Look as model;
ghost use Rattle.model_alone.specs.used.Look.{look_at, used_then};
ghost use Rattle.r9_files.specs.around.Words.{mark_after};
ghost use Rattle.r9_desktop.specs.World.{began_of, desktop_of};
ghost use Rattle.r9_hall.specs.seen.View.{look_of};
ghost use Rattle.r9_wire.specs.View.{r_of};

use crate::seen::look::{Look, look_at_watched};
use crate::seen::using::used_then;
use crate::shared::answer as answer_shared;
use r9_desktop::Desktop;
use r9_event::event::Uses;
use r9_memory::Memory;
use r9_session::{Answered, Session};
use std::alloc::Global;

/// A message's answer, and what it used.
#[derive(Drop)]
pub struct Seen {
    /// The reply, and what else the session tells of it.
    pub answered: Answered,
    /// What was used, but for an attach.
    pub uses: Uses,
    /// What was seen of the message before it was answered.
    pub look: Look,
}

/// Answers the bytes of a message of the session of this number, as the session does, and where it is watched sees what it used, but for
/// an attach. Of the session and the desktop nothing is said after Memory.
pub fn answer(
    alloc: Global,
    found: &mut Session,
    desktop: &mut Desktop,
    session: u32,
    bytes: &[u8],
    mark: Option<u32>,
    watches: bool,
) -> Result<Seen, Memory>
    requires long { 7 ≤ length bytes.now }
    requires linked { IsLinked session found.old.made found.old.connections (desktop_of desktop.old).device }
    ensures answer { IfOk result (λ s. answer (desktop_for session) found.old (desktop_of desktop.old) bytes.now (mark_after mark s.answered.short) ≡ record { session = found.new; rest = desktop_of desktop.new; reply = option_map r_of s.answered.reply }) }
    ensures fits { IfOk result (λ s. IfSome s.answered.reply (λ reply. FitsR (r_of reply))) }
    ensures short { IfOk result (λ s. IfSome s.answered.short (λ k. IsCutMessage (desktop_for session) (wants_for session) found.old (desktop_of desktop.old) bytes.now mark k)) }
    ensures told { IfOk result (λ s. IsRefused no_memory (option_map r_of s.answered.reply) → IsSome s.answered.short) }
    ensures wrote { IfOk result (λ s. s.answered.wrote ≡ written_at found.old bytes.now) }
    ensures linked { OnOk result (IsLinked session found.new.made found.new.connections (desktop_of desktop.new).device) }
    ensures others { OnOk result (KeepsOthers session (desktop_of desktop.old).device (desktop_of desktop.new).device) }
    ensures began { began_of desktop.new ≡ began_of desktop.old }
    ensures look { watches ≡ true → IfOk result (λ s. look_of s.look ≡ look_at session found.old (desktop_of desktop.old) bytes.now) }
    ensures uses { watches ≡ true → IfOk result (λ s. s.uses ≡ used_then session (desktop_of desktop.old) (mark_after mark s.answered.short) (option_map r_of s.answered.reply) (look_at session found.old (desktop_of desktop.old) bytes.now)) }
    ensures unwatched { watches ≡ false → IfOk result (λ s. (s.uses ≡ []) × (look_of s.look ≡ model.Uses [])) }
{
    let look = look_at_watched(alloc, found, desktop, session, bytes, watches)?;
    let answered = answer_shared(alloc, found, desktop, session, bytes, mark)?;
    let uses = used_then(alloc, desktop, &answered, &look)?;
    Ok(Seen {
        answered,
        uses,
        look,
    })
}
