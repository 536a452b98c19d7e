//! The messages that have lists. What they are refused for is found without memory.

ghost use Rattle.std.specs.Prelude.{◌≡◌, ◌≤◌, Ok, Err, IsSome, length, drop, ◌+◌};
ghost use Rattle.model_text.specs.text.Map.{lookup};
ghost use Rattle.model_draw_parts.specs.dmsg.Reading.{IsMessage, first_message};
ghost use Rattle.r9_dmsg.specs.Listed.{listed_len, listed_message, HasShortList, IsNearListed};
ghost use Rattle.r9_draw.specs.draw.Steps.{IsCounted, IsStep};
ghost use Rattle.r9_device.specs.device.World.{moment_of, world_of, writes_of};

use crate::draw::message::Step;
use crate::messages::{do_listed, look_listed};
use r9_device::device::Device;
use r9_dmsg::Listed;
use r9_marks::steps::Steps;
use std::sync::ledger::Ledger;

/// The message that stands first in the bytes. Where it is marked, it is looked at, and not done.
pub(crate) fn listed_message<L: Ledger>(
    device: &mut Device,
    client: u64,
    bytes: &[u8],
    asked: &Listed<'_>,
    marked: bool,
    steps: &mut Steps<L>,
) -> Step
    requires live { IsSome (lookup (world_of device.old).clients client) }
    requires near { IsNearListed asked.now }
    requires short { HasShortList asked.now }
    requires found { first_message bytes.now ≡ IsMessage (listed_message asked.now) (drop (listed_len asked.now) bytes.now) }
    requires within { listed_len asked.now ≤ length bytes.now }
    ensures step { IsStep client (world_of device.old) bytes.now marked result (world_of device.new) }
    ensures steps { IsCounted client (world_of device.old) bytes.now result steps.old steps.new }
    ensures moment { moment_of device.new ≡ moment_of device.old }
    ensures writes { writes_of device.new + steps.old ≡ writes_of device.old + steps.new }
{
    if let Err(refusal) = look_listed(device, client, asked) {
        return Step::Refused(refusal);
    }
    if marked {
        return Step::Short;
    }
    match do_listed(device, client, asked, steps) {
        Ok(()) => Step::Done(asked.spelled_len()),
        Err(_) => Step::Short,
    }
}
