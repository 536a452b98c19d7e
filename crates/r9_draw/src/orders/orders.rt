//! What the window manager orders: images for its windows, and screens on them for the rios in windows (rio(4)). It is
//! connection 0. An order that does not fit changes nothing.

ghost use Rattle.model_draw.specs.cost.Cost.{order_cost, orders_cost};
ghost use Rattle.model_draw.specs.draw.Orders.{after_order, replace_window, carried_out, drop_window, fits, host_rio, make_window, ordered, place_window};
ghost use Rattle.r9_device.specs.device.World.{moment_of, world_of, writes_of};
ghost use Rattle.r9_event.specs.declared.event.rio.Order.TheVariants.{Host, Replace};
ghost use Rattle.r9_draw.specs.orders.Ordering.{IsOther};
ghost use Rattle.std.specs.Prelude.{OnOk, true, ◌<◌, ◌+◌, ◌≡◌, ◌≤◌, if◌then◌else◌};

use crate::orders::display::resize_display;
use crate::orders::rio::host_rio;
use crate::orders::there::fits;
use crate::orders::window::{
    drop_window, lower_window, make_window, next_of, place_window, raise_window, replace_window,
};
use r9_device::device::Device;
use r9_event::event::{Order, Orders};
use r9_geom::Rect;
use r9_marks::steps::Steps;
use r9_memory::Memory;
use std::sync::ledger::Ledger;

// An order that fits, for anything but another image of a window.
#[tactic(auto, unfolding(model_draw::specs::cost::Cost::order_cost))]
fn obey<L: Ledger>(device: &mut Device, order: &Order, steps: &mut Steps<L>) -> Result<(), Memory>
    requires other { IsOther order.now }
    requires fits { fits (world_of device.old) order.now ≡ true }
    ensures obeyed { OnOk result (world_of device.new ≡ after_order (world_of device.old) order.now) }
    ensures steps { OnOk result (steps.new ≤ steps.old + order_cost (world_of device.old) order.now) }
    ensures moment { moment_of device.new ≡ moment_of device.old }
    ensures writes { writes_of device.new + steps.old ≡ writes_of device.old + steps.new }
{
    match order {
        Order::Make {
            window,
            host,
            r,
            name,
            hide,
            ..
        } => make_window(device, *window, *host, *r, name.as_slice(), *hide, steps),
        Order::Place { window, at } => place_window(device, *window, *at, steps),
        Order::Replace { .. } => unreachable!(),
        Order::Raise { window } => raise_window(device, *window, steps),
        Order::Lower { window } => lower_window(device, *window, steps),
        Order::Drop { window } => drop_window(device, *window, steps),
        Order::Host { window, fill } => host_rio(device, *window, *fill, steps),
        Order::Leave { client } => device.leave(*client, steps),
        Order::Size { width, height } => resize_display(device, *width, *height, steps),
    }
}

// A window has another image, and another name, where that fits.
fn replace<L: Ledger>(
    device: &mut Device,
    window: u32,
    host: u32,
    r: Rect,
    name: &[u8],
    keep: bool,
    hidden: bool,
    steps: &mut Steps<L>,
) -> Result<(), Memory>
    ensures ordered { OnOk result (world_of device.new ≡ ordered (world_of device.old) (Replace window host r name.now keep hidden)) }
    ensures steps { OnOk result (steps.new ≤ steps.old + (if fits (world_of device.old) (Replace window host r name.now keep hidden) then order_cost (world_of device.old) (Replace window host r name.now keep hidden) else 0)) }
    ensures moment { moment_of device.new ≡ moment_of device.old }
    ensures writes { writes_of device.new + steps.old ≡ writes_of device.old + steps.new }
{
    match next_of(device, window, host, r, keep, hidden) {
        Some(next) => replace_window(device, window, &next, name, steps),
        None => Ok(()),
    }
}

// One that does not fit changes nothing.
fn carry_out_order<L: Ledger>(
    device: &mut Device,
    order: &Order,
    steps: &mut Steps<L>,
) -> Result<(), Memory>
    ensures ordered { OnOk result (world_of device.new ≡ ordered (world_of device.old) order.now) }
    ensures steps { OnOk result (steps.new ≤ steps.old + (if fits (world_of device.old) order.now then order_cost (world_of device.old) order.now else 0)) }
    ensures moment { moment_of device.new ≡ moment_of device.old }
    ensures writes { writes_of device.new + steps.old ≡ writes_of device.old + steps.new }
{
    if let Order::Replace {
        window,
        host,
        r,
        name,
        keep,
        hidden,
    } = order
    {
        return replace(
            device,
            *window,
            *host,
            *r,
            name.as_slice(),
            *keep,
            *hidden,
            steps,
        );
    }
    if !fits(device, order) {
        return Ok(());
    }
    obey(device, order, steps)
}

/// Carries out orders of the window manager, one after the other. One that does not fit changes nothing. After Memory some
/// may have been carried out.
pub fn carry_out<L: Ledger>(
    device: &mut Device,
    list: &Orders,
    steps: &mut Steps<L>,
) -> Result<(), Memory>
    ensures done { OnOk result (world_of device.new ≡ carried_out (world_of device.old) list.now) }
    ensures steps { OnOk result (steps.new ≤ steps.old + orders_cost (world_of device.old) list.now) }
    ensures moment { moment_of device.new ≡ moment_of device.old }
    ensures writes { writes_of device.new + steps.old ≡ writes_of device.old + steps.new }
{
    for order in list.as_slice() {
        carry_out_order(device, order, steps)?;
    }
    Ok(())
}
