//! The draw device as its callers have it, and the connections that begin and end.

ghost use Rattle.std.specs.Prelude.{Ok, ◌+◌, is_some, ◌≡◌, ◌≤◌, ◌<◌, ◌^◌, ◌<ℤ◌, pos, None, IfOk, OnOk, OnErr, IsSome};
ghost use Rattle.r9_geom.specs.Geometry.{IsOrdered};
ghost use Rattle.model_text.specs.text.Map.{lookup};
ghost use Rattle.model_draw.specs.cost.Cost.{leave_cost, orders_cost};
ghost use Rattle.model_draw.specs.draw.Sound.{IsAllUsed};
ghost use Rattle.model_draw.specs.draw.Orders.{carried_out, with_root_rio};
ghost use Rattle.model_draw.specs.draw.World.{started, after_connect, after_leave};

use crate::orders::carry_out;
use r9_chan::Chan;
use r9_device::device::Device;
use r9_event::event::Orders;
use r9_geom::Rect;
use r9_marks::steps::Steps;
use r9_memory::Memory;
use std::alloc::Global;
use std::sync::ledger::Ledger;

/// The draw device: images, what the ids of connections refer to, and the connections, each of which has a number of its own
/// that the caller chooses, from 1 on.
#[derive(Drop)]
pub struct Draw {
    pub(crate) device: Device,
}

impl Draw {
    ghost use Rattle.r9_draw.specs.draw.World.{moment_of, world_of, writes_of};

    /// A device with its display, all of it the grey of the background, and the root rio's screen on it.
    pub fn start(alloc: Global, r: Rect, chan: Chan) -> Result<Self, Memory>
        requires left { r.min.x ≡ pos 0 }
        requires top { r.min.y ≡ pos 0 }
        requires ordered { IsOrdered r }
        requires width { r.max.x <ℤ pos (2 ^ 32) }
        requires height { r.max.y <ℤ pos (2 ^ 32) }
        ensures { IfOk result (λ device. world_of device ≡ with_root_rio (started (record { r = r; chan = chan }))) }
    {
        let device = Device::start(alloc, r, chan)?;
        Ok(Draw { device })
    }

    /// What each device keeps: the images and the screens that are there are those that are used, so that nothing is left
    /// behind. Nothing is done.
    pub fn keeps(&self)
        ensures { IsAllUsed (world_of self.now) }
    {
        self.device.keeps();
    }

    /// Whether the connection lives.
    pub fn is_live(&self, client: u64) -> bool
        ensures { result ≡ is_some (lookup (world_of self.now).clients client) }
    {
        self.device.is_live(client)
    }

    /// A connection begins, under a number that none has. After Memory all is as before.
    pub fn connect(&mut self, client: u64) -> Result<(), Memory>
        requires some { 1 ≤ client }
        requires fresh { lookup (world_of self.old).clients client ≡ None }
        ensures made { OnOk result (world_of self.new ≡ after_connect (world_of self.old) client) }
        ensures kept { OnErr result (world_of self.new ≡ world_of self.old) }
        ensures moment { moment_of self.new ≡ moment_of self.old }
        ensures writes { writes_of self.new ≡ writes_of self.old }
    {
        self.device.connect(client)
    }

    /// A connection ends: its ids are freed, and what nothing refers to any more goes. After Memory all is as before. Each pixel that
    /// is written is counted in `pixels`.
    pub fn leave<L: Ledger>(&mut self, client: u64, pixels: &mut Steps<L>) -> Result<(), Memory>
        requires { IsSome (lookup (world_of self.old).clients client) }
        ensures left { OnOk result (world_of self.new ≡ after_leave (world_of self.old) client) }
        ensures kept { OnErr result (world_of self.new ≡ world_of self.old) }
        ensures pixels { pixels.new ≤ pixels.old + leave_cost (world_of self.old) client }
        ensures uncounted { OnErr result (pixels.new ≡ pixels.old) }
        ensures moment { moment_of self.new ≡ moment_of self.old }
        ensures writes { writes_of self.new + pixels.old ≡ writes_of self.old + pixels.new }
    {
        self.device.leave(client, pixels)
    }

    /// Carries out orders of the window manager, one after the other. One that does not fit changes nothing. After Memory some
    /// may have been carried out. Each pixel that is written is counted in `pixels`.
    pub fn orders<L: Ledger>(&mut self, list: &Orders, pixels: &mut Steps<L>) -> Result<(), Memory>
        ensures done { OnOk result (world_of self.new ≡ carried_out (world_of self.old) list.now) }
        ensures pixels { OnOk result (pixels.new ≤ pixels.old + orders_cost (world_of self.old) list.now) }
        ensures moment { moment_of self.new ≡ moment_of self.old }
        ensures writes { writes_of self.new + pixels.old ≡ writes_of self.old + pixels.new }
    {
        carry_out(&mut self.device, list, pixels)
    }
}
