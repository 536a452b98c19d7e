//! What a message used that was answered, but for an attach.

ghost use Rattle.std.specs.Prelude.{◌≡◌, ◌+◌, ℕ, Option, option_map, is_some, if◌then◌else◌, IfOk};
ghost use Rattle.std.specs.List.{flat_map};
ghost use Rattle.model_alone.specs.alone.Uses.{look_used, looked_at};
ghost use Rattle.model_alone.specs.used.Look as model;
ghost use Rattle.model_alone.specs.used.Look.{used_then};
ghost use Rattle.model_world.specs.Desktop as world;
ghost use Rattle.r9_desktop.specs.World.{desktop_of};
ghost use Rattle.r9_hall.specs.seen.Telling.{IsDrawn, IsTelling};
ghost use Rattle.r9_hall.specs.seen.View.{look_of};
ghost use Rattle.r9_wire.specs.View.{r_of};

use crate::seen::look::Look;
use r9_desktop::Desktop;
use r9_event::event::Uses;
use r9_files::around::Told;
use r9_memory::Memory;
use r9_session::Answered;
use r9_used::looked::look_again;
use r9_wire::Rmsg;
use std::alloc::Global;

/// Whether a reply refuses.
fn is_refusal(reply: &Option<Rmsg>) -> bool
    ensures { result ≡ model.is_refusal (option_map r_of reply.now) }
{
    matches!(reply, Some(Rmsg::Error { .. }))
}

/// The same uses again.
fn copy(alloc: Global, uses: &Uses) -> Result<Uses, Memory>
    ensures { IfOk result (λ copy. copy ≡ uses.now) }
{
    let mut copy = Uses::new(alloc);
    for used in uses.as_slice() {
        copy.push(*used)?;
    }
    Ok(copy)
}

/// How many messages of a data write are looked at: those that were done, and the one behind them unless memory ran out before it.
fn most_looked_at(told: &Told, short: Option<u32>) -> u64
    ensures { result ≡ (if is_some short then told.now.done else told.now.done + 1) }
{
    let done = u64::from(told.done);
    if short.is_some() { done } else { done + 1 }
}

/// What the messages of a data write used that was answered, which are read again from its bytes.
fn drawn(
    alloc: Global,
    desktop: &Desktop,
    answered: &Answered,
    bytes: &[u8],
) -> Result<Uses, Memory>
    ensures { IfOk result (λ uses. (k : ℕ) (before : world.Desktop) (mark : Option ℕ) → IsDrawn k before (desktop_of desktop.now) bytes.now mark answered.now.told answered.now.short → uses ≡ flat_map (look_used before.panes) (looked_at k before.device bytes.now mark)) }
{
    let mut uses = Uses::new(alloc);
    let Some(told) = &answered.told else {
        return Ok(uses);
    };
    let most = most_looked_at(told, answered.short);
    look_again(
        alloc,
        desktop.panes(),
        bytes,
        most,
        told.rows.as_slice(),
        &mut uses,
    )?;
    Ok(uses)
}

/// What a message used that was seen so before it was answered, but for an attach.
pub(crate) fn used_then(
    alloc: Global,
    desktop: &Desktop,
    answered: &Answered,
    look: &Look,
) -> Result<Uses, Memory>
    ensures { IfOk result (λ uses. (c : ℕ) (before : world.Desktop) (mark : Option ℕ) → IsTelling c before (desktop_of desktop.now) mark answered.now.told answered.now.short (look_of look.now) → uses ≡ used_then c before mark (option_map r_of answered.now.reply) (look_of look.now)) }
{
    match look {
        Look::Uses(uses) => copy(alloc, uses),
        Look::UsesIfDone(uses) => {
            if is_refusal(&answered.reply) {
                Ok(Uses::new(alloc))
            } else {
                copy(alloc, uses)
            }
        }
        Look::Attaches { .. } => Ok(Uses::new(alloc)),
        Look::Draws { bytes, .. } => drawn(alloc, desktop, answered, bytes.as_slice()),
    }
}
