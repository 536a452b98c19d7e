//! The display, and its size.

ghost use Rattle.model_draw.specs.cost.Cost.{rect_shown};
ghost use Rattle.model_draw.specs.draw.Orders.{fits, has_display, is_side, resize_display};
ghost use Rattle.model_forest.specs.World.{origin_point};
ghost use Rattle.r9_device.specs.device.World.{moment_of, world_of, writes_of};
ghost use Rattle.r9_event.specs.declared.event.rio.Order.TheVariants.{Size};
ghost use Rattle.r9_geom.specs.Geometry.{area_of, is_point, IsNearBy};
ghost use Rattle.std.specs.Prelude.{OnOk, true, ◌+◌, ◌*◌, ◌^◌, ◌≡◌, ◌≤◌};

use r9_chan::Colour;
use r9_device::device::Device;
use r9_geom::Point;
use r9_marks::steps::Steps;
use r9_memory::Memory;
use r9_wctl::sides::LONGEST_SIDE;
use std::sync::ledger::Ledger;

// Whether a side of the display may be so long.
fn is_side(length: u32) -> bool
    ensures { result ≡ is_side length }
{
    1 <= length && length <= LONGEST_SIDE
}

// Whether a point is that of 0.
fn is_origin(p: Point) -> bool
    requires { IsNearBy (2 ^ 33) p }
    ensures { result ≡ is_point p origin_point }
{
    p.x == 0 && p.y == 0
}

// Whether the display is there, stands nowhere, begins at 0 and does not repeat.
fn has_display(device: &Device) -> bool
    ensures { result ≡ has_display (world_of device.now) }
{
    let display = device.image_shown(0);
    let info = device.image_info(display);
    device.knows(0, 0)
        && device.book.screen_of(display.0).is_none()
        && is_origin(info.r.min)
        && !info.repl
}

// Whether the display can get another size.
pub(crate) fn can_resize(device: &Device, width: u32, height: u32) -> bool
    ensures { result ≡ fits (world_of device.now) (Size width height) }
{
    is_side(width) && is_side(height) && has_display(device)
}

// The display has another size, where all that stands on it stays, and what shows newly of it is grey.
pub(crate) fn resize_display<L: Ledger>(
    device: &mut Device,
    width: u32,
    height: u32,
    steps: &mut Steps<L>,
) -> Result<(), Memory>
    requires { has_display (world_of device.old) ≡ true }
    ensures resized { OnOk result (world_of device.new ≡ resize_display (world_of device.old) width height) }
    ensures steps { steps.new ≤ steps.old + (2 * area_of (rect_shown (world_of device.old) 0) + 2 * (width * height)) }
    ensures moment { moment_of device.new ≡ moment_of device.old }
    ensures writes { writes_of device.new + steps.old ≡ writes_of device.old + steps.new }
{
    let image = device.image_shown(0);
    let info = device.forest.info(image);
    let grey = info.chan.pack(Colour::of_word(0x7777_77ff));
    device.forest.resize(image, width, height, grey, steps)
}
