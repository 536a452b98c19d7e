//! The mirror of a world.

ghost use Rattle.std.specs.Prelude.{◌≡◌, ◌+◌, ◌==◌, ◌&&◌, not, true, false, IfOk, OnOk};
ghost use Rattle.r9_geom.specs.Geometry.{height, width, IsOrdered};
ghost use Rattle.law_devices.specs.sides.Display.{HasDisplay};
ghost use Rattle.model_mirror.specs.Frame.{IsFrame};
ghost use Rattle.model_mirror.specs.Shown.{mirrored};
ghost use Rattle.model_world.specs.Links.{IsNext};
ghost use Rattle.model_world.specs.Replay.{step};
ghost use Rattle.r9_hall.specs.hall.StateView.{IsWhole};
ghost use Rattle.r9_hall.specs.hall.WorldView.{IsStepped, display_in, world_in};
ghost use Rattle.r9_serve.specs.mirroring.View.{IsPaid, IsSent, IsUnmarked};

use crate::replay::make_event;
use crate::sending::{Sending, entry_text};
use model_mirror::few_cells_meet_the_cursor;
use r9_chan::Chan;
use r9_event::event::Event;
use r9_geom::Rect;
use r9_hall::hall::World;
use r9_marks::steps::Steps;
use r9_memory::Memory;
use r9_text::Bytes;
use std::alloc::Global;
use std::sync::ledger::Ledger;

/// Whether two rectangles differ in size.
fn is_resized(old: Rect, new: Rect) -> bool
    requires old { IsOrdered old }
    requires new { IsOrdered new }
    ensures { result ≡ not ((width old == width new) && (height old == height new)) }
{
    old.width() != new.width() || old.height() != new.height()
}

/// The text of frame 0, which has all cells of the display. No cell is marked then.
pub(crate) fn first_frame(alloc: Global, world: &mut World, chan: Chan) -> Result<Bytes, Memory>
    requires display { HasDisplay chan (world_in world.old).desktop.device }
    ensures world { world_in world.new ≡ world_in world.old }
    ensures begun { world.new.begun ≡ world.old.begun }
    ensures broken { world.new.broken ≡ world.old.broken }
    ensures unmarked { OnOk result (IsUnmarked (display_in world.new)) }
    ensures frame { IfOk result (λ text. IsFrame chan 0 true (mirrored (world_in world.old)) (λ column row. true) text) }
{
    let all = Sending {
        resized: true,
        old: None,
        new: None,
    };
    let text = entry_text(alloc, world, chan, 0, &all)?;
    world.clear_marks();
    Ok(text)
}

/// Makes an event, and gives the text that is put out after it as the entry of this number: a frame of what has changed, or nothing. No cell
/// is marked before and then. Each pixel that the event wrote is counted in `pixels`. Where memory ran out in a data write, that is told as
/// want of memory.
pub(crate) fn next_entry<L: Ledger>(
    alloc: Global,
    world: &mut World,
    chan: Chan,
    number: u64,
    event: Event,
    pixels: &mut Steps<L>,
) -> Result<Bytes, Memory>
    requires whole { IsWhole event }
    requires next { IsNext world.old.begun event }
    requires going { world.old.broken ≡ false }
    requires unmarked { IsUnmarked (display_in world.old) }
    requires before { HasDisplay chan (world_in world.old).desktop.device }
    requires after { HasDisplay chan (step (world_in world.old) event).world.desktop.device }
    requires paid { IsPaid (mirrored (world_in world.old)) (mirrored (step (world_in world.old) event).world) (step (world_in world.old) event).cost }
    ensures world { OnOk result (IsStepped world.old event world.new) }
    ensures unmarked { OnOk result (IsUnmarked (display_in world.new)) }
    ensures sent { IfOk result (IsSent chan number ((step (world_in world.old) event).cost + 8) (mirrored (world_in world.old)) (mirrored (step (world_in world.old) event).world)) }
{
    few_cells_meet_the_cursor();
    world.sound();
    let before = world.display();
    let old = world.pointer();
    make_event(world, event, pixels)?;
    world.sound();
    let sending = Sending {
        resized: is_resized(before, world.display()),
        old,
        new: world.pointer(),
    };
    let text = entry_text(alloc, world, chan, number, &sending)?;
    world.clear_marks();
    Ok(text)
}
