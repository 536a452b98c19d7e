//! Calls of the draw device, each with a count of the pixels that it writes, for which nobody asks.

ghost use Rattle.std.specs.Prelude.{◌≡◌, ◌≢◌, ◌<◌, ◌^◌, ◌⊎◌, ℕ, false, true, length, None, Some, IfOk, IsSome, OnErr, OnOk};
ghost use Rattle.model_draw.specs.draw.Act.{no_memory, written, written_within};
ghost use Rattle.model_draw.specs.draw.Memory.{MayRunOut};
ghost use Rattle.model_draw.specs.draw.Orders.{carried_out};
ghost use Rattle.model_draw.specs.draw.World.{after_leave};
ghost use Rattle.model_text.specs.text.Map.{lookup};
ghost use Rattle.r9_draw.specs.draw.World.{world_of};

use r9_draw::draw::{Draw, Wrote};
use r9_event::event::Orders;
use r9_marks::steps::Steps;
use r9_memory::Memory;
use std::sync::ledger::{Blank, Ledger};

/// A connection ends. After Memory all is as before.
pub(crate) fn leave<L: Ledger>(device: &mut Draw, client: u64, blank: Blank) -> Result<(), Memory>
    requires name { blank.name ≡ L.name }
    requires parts { blank.parts ≡ L.parts }
    requires some { 0 < L.parts }
    requires live { IsSome (lookup (world_of device.old).clients client) }
    ensures left { OnOk result (world_of device.new ≡ after_leave (world_of device.old) client) }
    ensures kept { OnErr result (world_of device.new ≡ world_of device.old) }
{
    device.leave(client, &mut Steps::<L>::new(blank))
}

/// Carries out orders of the window manager.
pub(crate) fn obey<L: Ledger>(device: &mut Draw, list: &Orders, blank: Blank) -> Result<(), Memory>
    requires name { blank.name ≡ L.name }
    requires parts { blank.parts ≡ L.parts }
    requires some { 0 < L.parts }
    ensures { OnOk result (world_of device.new ≡ carried_out (world_of device.old) list.now) }
{
    device.orders(list, &mut Steps::<L>::new(blank))
}

/// Does the messages that the bytes spell, until one is refused, or memory runs out. Memory where that is the first one; then all
/// is as before.
pub(crate) fn write<L: Ledger>(
    device: &mut Draw,
    client: u64,
    bytes: &[u8],
    blank: Blank,
) -> Result<Wrote, Memory>
    requires name { blank.name ≡ L.name }
    requires parts { blank.parts ≡ L.parts }
    requires some { 0 < L.parts }
    requires live { IsSome (lookup (world_of device.old).clients client) }
    requires few { length bytes.now < 2 ^ 32 }
    ensures plain { IfOk result (λ w. w.short ≡ false → written client (world_of device.old) bytes.now None ≡ record { world = world_of device.new; done = w.done; refusal = w.refusal }) }
    ensures short { IfOk result (λ w. w.short ≡ true → written client (world_of device.old) bytes.now (Some w.done) ≡ record { world = world_of device.new; done = w.done; refusal = Some no_memory }) }
    ensures refused { IfOk result (λ w. w.refusal ≢ Some no_memory) }
    ensures cause { IfOk result (λ w. w.short ≡ true → (None ≡ Some w.done) ⊎ MayRunOut client (world_of device.old) bytes.now w.done) }
    ensures kept { OnErr result (world_of device.new ≡ world_of device.old) }
{
    device.write(client, bytes, None, &mut Steps::<L>::new(blank))
}

/// Does so many messages at most, until one is refused, or memory runs out.
pub(crate) fn write_first<L: Ledger>(
    device: &mut Draw,
    client: u64,
    bytes: &[u8],
    most: u32,
    blank: Blank,
) -> Wrote
    requires name { blank.name ≡ L.name }
    requires parts { blank.parts ≡ L.parts }
    requires some { 0 < L.parts }
    requires live { IsSome (lookup (world_of device.old).clients client) }
    requires few { length bytes.now < 2 ^ 32 }
    ensures plain { result.short ≡ false → written_within most client (world_of device.old) None 0 bytes.now ≡ record { world = world_of device.new; done = result.done; refusal = result.refusal } }
    ensures short { result.short ≡ true → written_within result.done client (world_of device.old) None 0 bytes.now ≡ record { world = world_of device.new; done = result.done; refusal = None } }
    ensures refused { result.refusal ≢ Some no_memory }
    ensures cause { result.short ≡ true → MayRunOut client (world_of device.old) bytes.now result.done }
{
    device.write_first(client, bytes, most, &mut Steps::<L>::new(blank))
}
