//! What a message without a list uses.

ghost use Rattle.std.specs.Prelude.{◌≡◌, ◌==◌, ◌++◌, ℕ, List, false, [], ◌∷◌, if◌then◌else◌, OnOk};
ghost use Rattle.std.specs.List.{list_any};
ghost use Rattle.r9_event.specs.declared.event.own.Use.TheVariants.{Own};
ghost use Rattle.model_rio.specs.window.Pane.{Pane};
ghost use Rattle.model_alone.specs.alone.Uses.{images_named, look_used, shared_used};
ghost use Rattle.r9_dmsg.specs.Listed.{has_list};
ghost use Rattle.r9_dmsg.specs.View.{message_of};

use r9_dmsg::Dmsg;
use r9_event::event::{Use, Uses};
use r9_memory::Memory;

/// The id of the display.
pub(crate) const DISPLAY: u32 = 0;

/// The number of the reason that a message names the display.
pub(crate) const NAMES_DISPLAY: u8 = 7;

/// The number of the reason that a message reaches names or screens that all connections share.
pub(crate) const SHARES: u8 = 8;

/// Adds a use of something that all sessions share, by the number of its reason, where there is one.
pub(crate) fn push_own(uses: &mut Uses, used: bool, reason: u8) -> Result<(), Memory>
    ensures { OnOk result (uses.new ≡ uses.old ++ (if used then Own reason ∷ [] else [])) }
{
    if used {
        uses.push(Use::Own(reason))?;
    }
    Ok(())
}

/// Whether a message without a list names the display, but for an image that is to be made.
fn names_display(message: &Dmsg) -> bool
    requires { has_list (message_of message.now) ≡ false }
    ensures { result ≡ list_any (λ id. id == 0) (images_named (message_of message.now)) }
{
    match message {
        Dmsg::UpA {
            imageid,
            fillid,
            ..
        } => *imageid == DISPLAY || *fillid == DISPLAY,
        Dmsg::LowD {
            dstid,
            srcid,
            maskid,
            ..
        } => *dstid == DISPLAY || *srcid == DISPLAY || *maskid == DISPLAY,
        Dmsg::LowL { cacheid, srcid, .. } => *cacheid == DISPLAY || *srcid == DISPLAY,
        Dmsg::LowC { dstid: id, .. }
        | Dmsg::LowF { id }
        | Dmsg::LowI { id, .. }
        | Dmsg::LowO { id, .. }
        | Dmsg::LowR { id, .. }
        | Dmsg::LowY { id, .. } => *id == DISPLAY,
        Dmsg::LowB { .. }
        | Dmsg::UpD { .. }
        | Dmsg::UpF { .. }
        | Dmsg::UpO { .. }
        | Dmsg::UpS { .. }
        | Dmsg::LowV => false,
        _ => unreachable!(),
    }
}

/// Whether a message without a list shares a screen.
fn shares(message: &Dmsg) -> bool
    requires { has_list (message_of message.now) ≡ false }
    ensures { (panes : List (ℕ × Pane)) → shared_used panes (message_of message.now) ≡ (if result then Own 8 ∷ [] else []) }
{
    match message {
        Dmsg::UpA { public, .. } => *public != 0,
        Dmsg::UpS { .. } => true,
        _ => false,
    }
}

/// Adds what a message without a list uses.
pub(crate) fn look_plain(message: &Dmsg, uses: &mut Uses) -> Result<(), Memory>
    requires { has_list (message_of message.now) ≡ false }
    ensures { OnOk result ((panes : List (ℕ × Pane)) → uses.new ≡ uses.old ++ look_used panes (message_of message.now)) }
{
    push_own(uses, names_display(message), NAMES_DISPLAY)?;
    push_own(uses, shares(message), SHARES)
}
