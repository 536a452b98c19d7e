//! What a turn asks of the draw device, and how many pixels that writes.

ghost use Rattle.std.specs.Prelude.{◌≡◌, ◌+◌, ◌-◌, ◌^◌, ◌≤◌, min};
ghost use Rattle.model_draw.specs.cost.Cost.{leave_cost, messages_cost, orders_cost};
ghost use Rattle.r9_draw.specs.draw.World.{world_of};

use r9_draw::draw::Draw;
use r9_event::event::Orders;
use r9_locate::tally::{Asked, Tally};
use std::snapshot::Snapshot;

/// The messages that were done of a write, and the device as it was before.
#[derive(Drop)]
pub(crate) struct Messages<'a> {
    pub(crate) device: Snapshot<Draw>,
    pub(crate) client: u64,
    pub(crate) bytes: &'a [u8],
    pub(crate) done: u32,
}

impl Asked for Messages<'_> {
    ghost cost = { λ asked. messages_cost asked.done asked.client (world_of asked.device.value) asked.bytes.now };
}

/// The end of a connection, and the device as it was before.
#[derive(Drop)]
pub(crate) struct Leave {
    pub(crate) device: Snapshot<Draw>,
    pub(crate) client: u64,
}

impl Asked for Leave {
    ghost cost = { λ asked. leave_cost (world_of asked.device.value) asked.client };
}

/// Orders of the window manager, and the device as it was before.
#[derive(Drop)]
pub(crate) struct Ordered<'a> {
    pub(crate) device: Snapshot<Draw>,
    pub(crate) orders: &'a Orders,
}

impl Asked for Ordered<'_> {
    ghost cost = { λ asked. orders_cost (world_of asked.device.value) asked.orders.now };
}

/// So many pixels, which were written when memory ran out in what was asked.
#[derive(Drop)]
pub(crate) struct Wasted(pub(crate) u64);

impl Asked for Wasted {
    ghost cost = { λ asked. asked.0 };
}

/// How many pixels were written in this turn, or 2^64 - 1 where there were more, and the device as it was when the turn began. They are
/// at most what all that was asked in it costs.
#[derive(Drop)]
pub(crate) struct Spending {
    pub(crate) pixels: u64,
    pub(crate) asked: Tally,
    pub(crate) began: Snapshot<Draw>,
    ghost within: { pixels ≤ asked.sum },
}

impl Spending {
    /// Nothing was asked yet of this device.
    pub(crate) fn begun(device: &Draw) -> Self
        ensures asked { result.asked.sum ≡ 0 }
        ensures pixels { result.pixels ≡ 0 }
        ensures began { result.began.value ≡ device.now }
    {
        Spending {
            pixels: 0,
            asked: Tally::none(),
            began: Snapshot::of(device),
        }
    }

    /// Adds what was asked, and how many pixels it wrote.
    pub(crate) fn add<X: Asked>(&mut self, pixels: u64, asked: &X)
        requires { pixels ≤ X.cost asked.now }
        ensures asked { self.new.asked.sum ≡ self.old.asked.sum + X.cost asked.now }
        ensures pixels { self.new.pixels ≡ min (self.old.pixels + pixels) (2 ^ 64 - 1) }
        ensures began { self.new.began.value ≡ self.old.began.value }
    {
        self.pixels = self.pixels.saturating_add(pixels);
        self.asked = self.asked.and(asked);
    }

    /// How many pixels were written, or 2^64 - 1 where there were more.
    pub(crate) fn pixels(&self) -> u64
        ensures value { result ≡ self.now.pixels }
        ensures within { result ≤ self.now.asked.sum }
    {
        self.pixels
    }
}
