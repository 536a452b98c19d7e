//! The messages that have lists. What they are refused for is found without memory.

ghost use Rattle.std.specs.Prelude.{◌≡◌, ◌≤◌, ◌+◌, [], true, Ok, Err, IfErr, OnOk, OnErr, IsSome, is_ok};
ghost use Rattle.model_text.specs.text.Map.{lookup};
ghost use Rattle.model_draw.specs.cost.Cost.{message_cost};
ghost use Rattle.model_draw.specs.draw.Act.{act};
ghost use Rattle.r9_dmsg.specs.Listed.{listed_message, HasShortList, IsNearListed};
ghost use Rattle.r9_device.specs.device.World.{moment_of, world_of, writes_of};

use crate::messages::naming::{look_name_use, look_naming, name_image, use_name};
use crate::messages::string::{lettering, write_string};
use crate::messages::window::{restack, restacking};
use r9_device::device::Device;
use r9_dmsg::Listed;
use r9_marks::steps::Steps;
use r9_memory::Memory;
use std::sync::ledger::Ledger;

/// The first refusal of a message that has a list.
#[tactic(auto, unfolding(model_draw::specs::draw::Act::act))]
pub fn look_listed(device: &Device, client: u64, asked: &Listed<'_>) -> Result<(), u8>
    requires live { IsSome (lookup (world_of device.now).clients client) }
    requires near { IsNearListed asked.now }
    ensures accepted { OnOk result (is_ok (act client (world_of device.now) (listed_message asked.now) []) ≡ true) }
    ensures refused { IfErr result (λ n. act client (world_of device.now) (listed_message asked.now) [] ≡ Err n) }
{
    match asked {
        Listed::Restack(asked) => restacking(device, client, asked),
        Listed::Name(asked) => look_naming(device, client, asked),
        Listed::UseName(asked) => look_name_use(device, client, asked),
        Listed::Write(asked) => {
            lettering(device, client, asked)?;
            Ok(())
        }
    }
}

/// Does what a message with a list asks for, which is not refused. After Memory all is as before. Each pixel that is written is
/// counted in `steps`.
#[tactic(auto, unfolding(model_draw::specs::draw::Act::act))]
pub fn do_listed<L: Ledger>(
    device: &mut Device,
    client: u64,
    asked: &Listed<'_>,
    steps: &mut Steps<L>,
) -> Result<(), Memory>
    requires live { IsSome (lookup (world_of device.old).clients client) }
    requires near { IsNearListed asked.now }
    requires short { HasShortList asked.now }
    requires accepted { is_ok (act client (world_of device.old) (listed_message asked.now) []) ≡ true }
    ensures done { OnOk result (act client (world_of device.old) (listed_message asked.now) [] ≡ Ok (world_of device.new)) }
    ensures kept { OnErr result (world_of device.new ≡ world_of device.old) }
    ensures steps { steps.new ≤ steps.old + message_cost client (world_of device.old) (listed_message asked.now) }
    ensures uncounted { OnErr result (steps.new ≡ steps.old) }
    ensures moment { moment_of device.new ≡ moment_of device.old }
    ensures writes { writes_of device.new + steps.old ≡ writes_of device.old + steps.new }
{
    match asked {
        Listed::Restack(asked) => restack(device, client, asked, steps),
        Listed::Name(asked) => name_image(device, client, asked),
        Listed::UseName(asked) => use_name(device, client, asked),
        Listed::Write(asked) => write_string(device, client, asked, steps),
    }
}
