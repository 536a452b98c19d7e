//! Windows that go from where they stand, where that is as from far outside.

ghost use Rattle.model_draw.specs.cost.Cost.{dropping, moving};
ghost use Rattle.model_draw.specs.draw.Orders.{drop_window, has_rio, has_window};
ghost use Rattle.model_forest.specs.World.{image_at, parent_of};
ghost use Rattle.r9_draw.specs.orders.Ordering.{GoesUnseen, images_left, is_first};
ghost use Rattle.r9_device.specs.device.World.{moment_of, world_of, writes_of};
ghost use Rattle.r9_geom.specs.Geometry.{IsRectNearBy};
ghost use Rattle.r9_layers.specs.Forest.{moment, numbers, room, world, writes};
ghost use Rattle.std.specs.Prelude.{IsSome, OnErr, OnOk, false, is_some, true, ◌+◌, ◌^◌, ◌≡◌, ◌≤◌};

use crate::orders::rects::OUTSIDE;
use model_draw_parts::images::free_id_frees;
use r9_device::device::{Device, release};
use r9_images::images::Thing;
use r9_layers::{Forest, ImageNo};
use r9_marks::steps::Steps;
use r9_memory::Memory;
use std::sync::ledger::Ledger;

// Whether the first of these things is the image.
fn is_first(gone: &[Thing], image: ImageNo) -> bool
    ensures { result ≡ is_first gone.now image.0 }
{
    match gone.first() {
        Some(Thing::Image(i)) => *i == image.0,
        _ => false,
    }
}

// Whether a window may stay where it stands until it goes, also once another came on image p: it is the first that goes,
// and that is not seen.
pub(crate) fn goes_unseen(forest: &Forest, old: ImageNo, p: ImageNo, gone: &[Thing]) -> bool
    requires { IsSome (parent_of (world forest.now) old.0) }
    ensures { result ≡ true → GoesUnseen (world forest.now) old.0 p.0 gone.now }
{
    is_first(gone, old) && forest.leaves_unseen(old, p)
}

// A window moves far outside, unless it stays where it stands.
fn move_out<L: Ledger>(
    forest: &mut Forest,
    image: ImageNo,
    stays: bool,
    steps: &mut Steps<L>,
) -> Result<(), Memory>
    requires live { is_some (world forest.old image.0) ≡ true }
    requires near { IsRectNearBy (2 ^ 32) (image_at (world forest.old) image.0).r }
    ensures moved { OnOk result (world forest.new ≡ images_left (world forest.old) image.0 stays) }
    ensures kept { OnErr result (world forest.new ≡ world forest.old) }
    ensures numbers { numbers forest.new ≡ numbers forest.old }
    ensures room { room forest.old ≤ room forest.new }
    ensures steps { steps.new ≤ steps.old + moving (image_at (world forest.old) image.0).r }
    ensures moment { moment forest.new ≡ moment forest.old }
    ensures writes { writes forest.new + steps.old ≡ writes forest.old + steps.new }
{
    if stays {
        return Ok(());
    }
    let min = forest.info(image).r.min;
    forest.origin(image, min, OUTSIDE, steps)
}

// A window goes in which there is no rio. Its id goes first, and what nothing refers to any more goes when the window stands
// far outside, so that after Memory each image has an id or has gone. Where the window goes at once and unseen, nothing of it
// is saved first.
pub(crate) fn drop_alone<L: Ledger>(
    device: &mut Device,
    window: u32,
    steps: &mut Steps<L>,
) -> Result<(), Memory>
    requires window { has_window (world_of device.old) window ≡ true }
    requires alone { has_rio (world_of device.old) window ≡ false }
    ensures dropped { OnOk result (world_of device.new ≡ drop_window (world_of device.old) window) }
    ensures steps { OnOk result (steps.new ≤ steps.old + dropping (world_of device.old) window) }
    ensures moment { moment_of device.new ≡ moment_of device.old }
    ensures writes { writes_of device.new + steps.old ≡ writes_of device.old + steps.new }
{
    free_id_frees();
    device.forest.keeps();
    let image = device.image_shown(window);
    let gone = match device.book.free_id(0, window) {
        Ok(gone) => gone,
        Err(_) => return Err(Memory),
    };
    let stays = goes_unseen(&device.forest, image, image, gone.as_slice());
    let moved = move_out(&mut device.forest, image, stays, steps);
    device.forest.keeps();
    release(&mut device.forest, gone.as_slice(), steps);
    moved
}
