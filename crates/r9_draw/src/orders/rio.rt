//! Rios in windows.

ghost use Rattle.model_draw.specs.cost.Cost.{going_all, order_cost, rect_shown};
ghost use Rattle.model_draw.specs.draw.Orders.{fits, has_rio, host_rio, image_shown, inside_border, is_window_rect, rio_screen, screen_freed};
ghost use Rattle.model_draw.specs.draw.World.{after_freed, at_number, with_images};
ghost use Rattle.model_forest.specs.Draw.{after_fill};
ghost use Rattle.model_draw_parts.specs.images.Book.{fill_of};
ghost use Rattle.model_pixel.specs.Channels.{colour_of, pack};
ghost use Rattle.r9_draw.specs.orders.Ordering.{with_rio};
ghost use Rattle.r9_device.specs.device.World.{moment_of, world_of, writes_of};
ghost use Rattle.r9_event.specs.declared.event.rio.Order.TheVariants.{Host};
ghost use Rattle.r9_geom.specs.Geometry.{area_of};
ghost use Rattle.std.specs.Prelude.{OnErr, OnOk, false, true, ◌+◌, ◌<◌, ◌≡◌, ◌≤◌};

use crate::orders::rects::inside_border;
use crate::orders::there::rio_screen;
use model_draw_parts::images::free_screen_frees;
use r9_chan::Colour;
use r9_device::device::{Device, release};
use r9_images::images::BookFault;
use r9_marks::steps::Steps;
use r9_memory::Memory;
use std::sync::ledger::Ledger;

// The screen of the rio in a window goes, where there is one.
pub(crate) fn close_rio<L: Ledger>(
    device: &mut Device,
    window: u32,
    steps: &mut Steps<L>,
) -> Result<(), Memory>
    ensures closed { OnOk result (world_of device.new ≡ after_freed (world_of device.old) (screen_freed (world_of device.old).book window)) }
    ensures kept { OnErr result (world_of device.new ≡ world_of device.old) }
    ensures steps { OnOk result (steps.new ≤ steps.old + going_all (world_of device.old).images (screen_freed (world_of device.old).book window).gone) }
    ensures moment { moment_of device.new ≡ moment_of device.old }
    ensures writes { writes_of device.new + steps.old ≡ writes_of device.old + steps.new }
{
    free_screen_frees();
    device.forest.keeps();
    match device.book.free_screen(0, window) {
        Ok(gone) => {
            release(&mut device.forest, gone.as_slice(), steps);
            Ok(())
        }
        Err(BookFault::Refused(_)) => Ok(()),
        Err(BookFault::Memory) => Err(Memory),
    }
}

// The inside of a window becomes grey.
fn fill_window<L: Ledger>(device: &mut Device, window: u32, steps: &mut Steps<L>)
    requires { is_window_rect (at_number (world_of device.old) (image_shown (world_of device.old) window)).r ≡ true }
    ensures filled { world_of device.new ≡ with_images (world_of device.old) (after_fill (world_of device.old).images (image_shown (world_of device.old) window) (inside_border (at_number (world_of device.old) (image_shown (world_of device.old) window)).r) (pack (at_number (world_of device.old) (image_shown (world_of device.old) window)).chan (colour_of 0x777777ff))) }
    ensures steps { steps.new ≤ steps.old + area_of (inside_border (rect_shown (world_of device.old) window)) }
    ensures moment { moment_of device.new ≡ moment_of device.old }
    ensures writes { writes_of device.new + steps.old ≡ writes_of device.old + steps.new }
{
    let image = device.image_shown(window);
    let info = device.forest.info(image);
    let grey = info.chan.pack(Colour::of_word(0x7777_77ff));
    device
        .forest
        .fill(image, inside_border(&info.r), grey, steps);
}

// A screen on the window's image, which the root rio's fill fills.
fn open_rio(device: &mut Device, window: u32) -> Result<(), Memory>
    requires { has_rio (world_of device.old) 0 ≡ true }
    ensures opened { OnOk result (world_of device.new ≡ with_rio (world_of device.old) window (image_shown (world_of device.old) window)) }
    ensures kept { OnErr result (world_of device.new ≡ world_of device.old) }
    ensures moment { moment_of device.new ≡ moment_of device.old }
    ensures writes { writes_of device.new ≡ writes_of device.old }
{
    let image = device.image_shown(window);
    let fill = device.book.fill_of(rio_screen(device, 0));
    match device.book.new_screen(0, window, false, image.0, fill) {
        Ok(_) | Err(BookFault::Refused(_)) => Ok(()),
        Err(BookFault::Memory) => Err(Memory),
    }
}

// A rio comes in a window, whose inside becomes grey first where it says so.
#[tactic(auto, unfolding(model_draw::specs::draw::Orders::host_rio))]
pub(crate) fn host_rio<L: Ledger>(
    device: &mut Device,
    window: u32,
    fill: bool,
    steps: &mut Steps<L>,
) -> Result<(), Memory>
    requires { fits (world_of device.old) (Host window fill) ≡ true }
    ensures hosted { OnOk result (world_of device.new ≡ host_rio (world_of device.old) window fill) }
    ensures steps { OnOk result (steps.new ≤ steps.old + order_cost (world_of device.old) (Host window fill)) }
    ensures moment { moment_of device.new ≡ moment_of device.old }
    ensures writes { writes_of device.new + steps.old ≡ writes_of device.old + steps.new }
{
    if fill {
        fill_window(device, window, steps);
    }
    close_rio(device, window, steps)?;
    open_rio(device, window)
}
