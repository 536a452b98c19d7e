//! What a session answers to a message at a desktop.

ghost use Rattle.std.specs.Prelude.{◌≡◌, ◌≤◌, true, is_ok, length, option_map, IfOk, IfSome, IsSome, OnOk};
ghost use Rattle.model_draw.specs.draw.Act.{no_memory};
ghost use Rattle.model_files.specs.wire.Reading.{message_of};
ghost use Rattle.model_files.specs.wire.Spelling.{FitsR};
ghost use Rattle.model_world.specs.Answer.{Reads, answer, read_or_not, taking};
ghost use Rattle.model_world.specs.Cut.{IsCutMessage, wants_for};
ghost use Rattle.model_world.specs.Links.{IsLinked, KeepsOthers};
ghost use Rattle.model_world.specs.Refusal.{IsRefused};
ghost use Rattle.model_world.specs.Sleeping.{written_at};
ghost use Rattle.model_world.specs.Whole.{desktop_for};
ghost use Rattle.r9_desktop.specs.World.{began_of, desktop_of};
ghost use Rattle.r9_files.specs.around.Words.{mark_after};
ghost use Rattle.r9_desktop.specs.Words.{tells_for};
ghost use Rattle.r9_session.specs.Telling.{IsToldRead};
ghost use Rattle.r9_wire.specs.View.{r_of};

use crate::shared::shared::{Begun, Lent, Shared};
use r9_desktop::Desktop;
use r9_memory::Memory;
use r9_session::{Answered, Session};
use std::alloc::Global;
use std::marker::{Brand, PhantomData};

// The same of a desktop that is lent, which is given back.
fn answer_lent<'a, B: Begun>(
    alloc: Global,
    found: &mut Session,
    lent: Lent<'a>,
    number: u32,
    bytes: &[u8],
    mark: Option<u32>,
) -> (Lent<'a>, Result<Answered, Memory>)
    requires long { 7 ≤ length bytes.now }
    requires linked { IsLinked number found.old.made found.old.connections (desktop_of lent.desktop.now).device }
    requires name { lent.desktop.ghost_name ≡ B.name }
    requires begun { began_of lent.desktop.now ≡ B.began }
    ensures same { result.0.desktop.ghost_name ≡ lent.entry.desktop.ghost_name }
    ensures answer { IfOk result.1 (λ a. answer (desktop_for number) found.old (desktop_of lent.entry.desktop.now) bytes.now (mark_after mark a.short) ≡ record { session = found.new; rest = desktop_of result.0.desktop.now; reply = option_map r_of a.reply }) }
    ensures fits { IfOk result.1 (λ a. IfSome a.reply (λ reply. FitsR (r_of reply))) }
    ensures short { IfOk result.1 (λ a. IfSome a.short (λ k. IsCutMessage (desktop_for number) (wants_for number) found.old (desktop_of lent.entry.desktop.now) bytes.now mark k)) }
    ensures told { IfOk result.1 (λ a. IsRefused no_memory (option_map r_of a.reply) → IsSome a.short) }
    ensures messages { IfOk result.1 (λ a. taking found.old bytes.now ≡ Reads → is_ok (read_or_not (desktop_for number) found.old (desktop_of lent.entry.desktop.now) (mark_after mark a.short) (message_of bytes.now)) ≡ true → IsToldRead (tells_for number) found.old (desktop_of lent.entry.desktop.now) (mark_after mark a.short) a.told (message_of bytes.now)) }
    ensures wrote { IfOk result.1 (λ a. a.wrote ≡ written_at found.old bytes.now) }
    ensures linked { OnOk result.1 (IsLinked number found.new.made found.new.connections (desktop_of result.0.desktop.now).device) }
    ensures others { OnOk result.1 (KeepsOthers number (desktop_of lent.entry.desktop.now).device (desktop_of result.0.desktop.now).device) }
    ensures began { began_of result.0.desktop.now ≡ began_of lent.entry.desktop.now }
{
    let Lent { desktop } = lent;
    let mut shared = Shared::<B> {
        desktop,
        of: PhantomData,
    };
    let given = found.answer(alloc, &mut shared, number, bytes, mark);
    let Shared { desktop, of: _ } = shared;
    (Lent { desktop }, given)
}

/// Answers the bytes of a message of the session of this number, as the session does. Of the session and the desktop nothing is said after
/// Memory, but that the turn began as before.
pub fn answer(
    alloc: Global,
    found: &mut Session,
    desktop: &mut Desktop,
    number: u32,
    bytes: &[u8],
    mark: Option<u32>,
) -> Result<Answered, Memory>
    requires long { 7 ≤ length bytes.now }
    requires linked { IsLinked number found.old.made found.old.connections (desktop_of desktop.old).device }
    ensures answer { IfOk result (λ a. answer (desktop_for number) found.old (desktop_of desktop.old) bytes.now (mark_after mark a.short) ≡ record { session = found.new; rest = desktop_of desktop.new; reply = option_map r_of a.reply }) }
    ensures fits { IfOk result (λ a. IfSome a.reply (λ reply. FitsR (r_of reply))) }
    ensures short { IfOk result (λ a. IfSome a.short (λ k. IsCutMessage (desktop_for number) (wants_for number) found.old (desktop_of desktop.old) bytes.now mark k)) }
    ensures told { IfOk result (λ a. IsRefused no_memory (option_map r_of a.reply) → IsSome a.short) }
    ensures messages { IfOk result (λ a. taking found.old bytes.now ≡ Reads → is_ok (read_or_not (desktop_for number) found.old (desktop_of desktop.old) (mark_after mark a.short) (message_of bytes.now)) ≡ true → IsToldRead (tells_for number) found.old (desktop_of desktop.old) (mark_after mark a.short) a.told (message_of bytes.now)) }
    ensures wrote { IfOk result (λ a. a.wrote ≡ written_at found.old bytes.now) }
    ensures linked { OnOk result (IsLinked number found.new.made found.new.connections (desktop_of desktop.new).device) }
    ensures others { OnOk result (KeepsOthers number (desktop_of desktop.old).device (desktop_of desktop.new).device) }
    ensures began { began_of desktop.new ≡ began_of desktop.old }
{
    let lent = Lent { desktop };
    let (back, given) = answer_lent::<Brand>(alloc, found, lent, number, bytes, mark);
    let Lent { desktop: _desktop } = back;
    given
}
