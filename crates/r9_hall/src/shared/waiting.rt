//! Reads of a session that wait at a desktop (read(5)).

ghost use Rattle.std.specs.Prelude.{◌≡◌, None, Some, IfNone, IfOk, IfSome, OnOk};
ghost use Rattle.model_files.specs.wire.Spelling.{FitsR};
ghost use Rattle.model_world.specs.Links.{IsLinked, KeepsOthers};
ghost use Rattle.model_world.specs.Waiting.{one_answered};
ghost use Rattle.model_world.specs.Whole.{desktop_for};
ghost use Rattle.r9_desktop.specs.World.{began_of, desktop_of};
ghost use Rattle.r9_wire.specs.View.{r_of};

use crate::shared::shared::{Begun, Lent, Shared};
use r9_desktop::Desktop;
use r9_memory::Memory;
use r9_session::Session;
use r9_wire::Rmsg;
use std::alloc::Global;
use std::marker::{Brand, PhantomData};

// The same of a desktop that is lent, which is given back.
fn answer_waiting_lent<'a, B: Begun>(
    alloc: Global,
    found: &mut Session,
    lent: Lent<'a>,
    number: u32,
) -> (Lent<'a>, Result<Option<Rmsg>, Memory>)
    requires linked { IsLinked number found.old.made found.old.connections (desktop_of lent.desktop.now).device }
    requires name { lent.desktop.ghost_name ≡ B.name }
    requires begun { began_of lent.desktop.now ≡ B.began }
    ensures same { result.0.desktop.ghost_name ≡ lent.entry.desktop.ghost_name }
    ensures answered { IfOk result.1 (λ given. IfSome given (λ reply. one_answered (desktop_for number) found.old (desktop_of lent.entry.desktop.now) ≡ Some (record { session = found.new; rest = desktop_of result.0.desktop.now; reply = Some (r_of reply) }))) }
    ensures none { IfOk result.1 (λ given. IfNone given (one_answered (desktop_for number) found.old (desktop_of lent.entry.desktop.now) ≡ None)) }
    ensures kept { IfOk result.1 (λ given. IfNone given ((found.new ≡ found.old) × (desktop_of result.0.desktop.now ≡ desktop_of lent.entry.desktop.now))) }
    ensures fits { IfOk result.1 (λ given. IfSome given (λ reply. FitsR (r_of reply))) }
    ensures linked { OnOk result.1 (IsLinked number found.new.made found.new.connections (desktop_of result.0.desktop.now).device) }
    ensures others { OnOk result.1 (KeepsOthers number (desktop_of lent.entry.desktop.now).device (desktop_of result.0.desktop.now).device) }
    ensures began { began_of result.0.desktop.now ≡ began_of lent.entry.desktop.now }
{
    let Lent { desktop } = lent;
    let mut shared = Shared::<B> {
        desktop,
        of: PhantomData,
    };
    let given = found.answer_waiting(alloc, &mut shared, number);
    let Shared { desktop, of: _ } = shared;
    (Lent { desktop }, given)
}

/// Answers the earliest read that waits and can be answered, as the session does: the reply, or None where none can. Of the session and the
/// desktop nothing is said after Memory, but that the turn began as before.
pub fn answer_waiting(
    alloc: Global,
    found: &mut Session,
    desktop: &mut Desktop,
    number: u32,
) -> Result<Option<Rmsg>, Memory>
    requires linked { IsLinked number found.old.made found.old.connections (desktop_of desktop.old).device }
    ensures answered { IfOk result (λ given. IfSome given (λ reply. one_answered (desktop_for number) found.old (desktop_of desktop.old) ≡ Some (record { session = found.new; rest = desktop_of desktop.new; reply = Some (r_of reply) }))) }
    ensures none { IfOk result (λ given. IfNone given (one_answered (desktop_for number) found.old (desktop_of desktop.old) ≡ None)) }
    ensures kept { IfOk result (λ given. IfNone given ((found.new ≡ found.old) × (desktop_of desktop.new ≡ desktop_of desktop.old))) }
    ensures fits { IfOk result (λ given. IfSome given (λ reply. FitsR (r_of reply))) }
    ensures linked { OnOk result (IsLinked number found.new.made found.new.connections (desktop_of desktop.new).device) }
    ensures others { OnOk result (KeepsOthers number (desktop_of desktop.old).device (desktop_of desktop.new).device) }
    ensures began { began_of desktop.new ≡ began_of desktop.old }
{
    let lent = Lent { desktop };
    let (back, given) = answer_waiting_lent::<Brand>(alloc, found, lent, number);
    let Lent { desktop: _desktop } = back;
    given
}
