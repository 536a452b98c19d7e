//! A session that ends at a desktop.

ghost use Rattle.std.specs.Prelude.{◌≡◌, [], OnOk};
ghost use Rattle.model_world.specs.Fids.{cleared};
ghost use Rattle.model_world.specs.Links.{IsLinked, KeepsOthers};
ghost use Rattle.model_world.specs.Whole.{desktop_for};
ghost use Rattle.r9_desktop.specs.World.{began_of, desktop_of};

use crate::shared::shared::{Begun, Lent, Shared};
use r9_desktop::Desktop;
use r9_memory::Memory;
use r9_session::Session;
use std::alloc::Global;
use std::marker::{Brand, PhantomData};

// The same of a desktop that is lent, which is given back.
fn leave_lent<'a, B: Begun>(
    alloc: Global,
    found: &Session,
    lent: Lent<'a>,
    number: u32,
) -> (Lent<'a>, Result<(), Memory>)
    requires linked { IsLinked number found.now.made found.now.connections (desktop_of lent.desktop.now).device }
    requires name { lent.desktop.ghost_name ≡ B.name }
    requires begun { began_of lent.desktop.now ≡ B.began }
    ensures same { result.0.desktop.ghost_name ≡ lent.entry.desktop.ghost_name }
    ensures outside { OnOk result.1 (desktop_of result.0.desktop.now ≡ (cleared (desktop_for number) found.now (desktop_of lent.entry.desktop.now)).1) }
    ensures linked { OnOk result.1 (IsLinked number found.now.made [] (desktop_of result.0.desktop.now).device) }
    ensures others { OnOk result.1 (KeepsOthers number (desktop_of lent.entry.desktop.now).device (desktop_of result.0.desktop.now).device) }
    ensures began { began_of result.0.desktop.now ≡ began_of lent.entry.desktop.now }
{
    let Lent { desktop } = lent;
    let mut shared = Shared::<B> {
        desktop,
        of: PhantomData,
    };
    let given = found.leave(alloc, &mut shared, number);
    let Shared { desktop, of: _ } = shared;
    (Lent { desktop }, given)
}

/// Ends all that goes with the fids of a session, as the session does. Of the desktop nothing is said after Memory, but that the turn began as
/// before.
pub fn leave(
    alloc: Global,
    found: &Session,
    desktop: &mut Desktop,
    number: u32,
) -> Result<(), Memory>
    requires linked { IsLinked number found.now.made found.now.connections (desktop_of desktop.old).device }
    ensures outside { OnOk result (desktop_of desktop.new ≡ (cleared (desktop_for number) found.now (desktop_of desktop.old)).1) }
    ensures linked { OnOk result (IsLinked number found.now.made [] (desktop_of desktop.new).device) }
    ensures others { OnOk result (KeepsOthers number (desktop_of desktop.old).device (desktop_of desktop.new).device) }
    ensures began { began_of desktop.new ≡ began_of desktop.old }
{
    let lent = Lent { desktop };
    let (back, given) = leave_lent::<Brand>(alloc, found, lent, number);
    let Lent { desktop: _desktop } = back;
    given
}
