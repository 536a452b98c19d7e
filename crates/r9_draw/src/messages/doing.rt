//! What a message does that has no list and is not refused.

ghost use Rattle.model_text.specs.text.Map.{lookup};
ghost use Rattle.r9_draw.specs.messages.Costs.{plan_cost};
ghost use Rattle.r9_draw.specs.messages.Plans.{IsReady, after, is_spare};
ghost use Rattle.r9_device.specs.device.World.{moment_of, world_of, writes_of};
ghost use Rattle.std.specs.Prelude.{IsOk, IsSome, OnErr, OnOk, true, ◌+◌, ◌≡◌, ◌≤◌};

use crate::messages::fonts::{load_cell, make_font};
use crate::messages::image::{clip, free_id, make_image};
use crate::messages::pixels::{draw, read_pixels, set_operator, write_pixels};
use crate::messages::plan::Plan;
use crate::messages::screen::{free_screen_id, make_screen, share_screen};
use crate::messages::window::move_window;
use r9_device::device::Device;
use r9_marks::steps::Steps;
use r9_memory::Memory;
use std::sync::ledger::Ledger;

/// Does what a message asks for, behind which these bytes stand. After Memory all is as before. Each pixel that is written is
/// counted in `steps`.
pub fn carry_out<L: Ledger>(
    device: &mut Device,
    client: u64,
    plan: &Plan,
    rest: &[u8],
    steps: &mut Steps<L>,
) -> Result<(), Memory>
    requires live { IsSome (lookup (world_of device.old).clients client) }
    requires ready { IsReady client (world_of device.old) plan.now rest.now }
    ensures done { OnOk result (world_of device.new ≡ after client (world_of device.old) plan.now rest.now) }
    ensures kept { OnErr result (world_of device.new ≡ world_of device.old) }
    ensures memory { is_spare (world_of device.old) plan.now ≡ true → IsOk result }
    ensures steps { steps.new ≤ steps.old + plan_cost client (world_of device.old) plan.now }
    ensures uncounted { OnErr result (steps.new ≡ steps.old) }
    ensures moment { moment_of device.new ≡ moment_of device.old }
    ensures writes { writes_of device.new + steps.old ≡ writes_of device.old + steps.new }
{
    match plan {
        Plan::Nothing => Ok(()),
        Plan::Make(making) => make_image(device, client, making, steps),
        Plan::SetClip { image, repl, clipr } => {
            clip(device, *image, *repl, *clipr);
            Ok(())
        }
        Plan::Draw(task) => draw(device, client, task, steps),
        Plan::Free { id } => free_id(device, client, *id, steps),
        Plan::FreeScreen { id } => free_screen_id(device, client, *id, steps),
        Plan::MakeFont { id, n, ascent } => make_font(device, client, *id, *n, *ascent),
        Plan::LoadCell(loading) => load_cell(device, client, loading, steps),
        Plan::MakeScreen(screening) => make_screen(device, client, screening),
        Plan::ShareScreen { id, screen } => share_screen(device, client, *id, *screen),
        Plan::Move { image, rmin, scr } => move_window(device, *image, *rmin, *scr, steps),
        Plan::SetOperator(op) => {
            set_operator(device, client, *op);
            Ok(())
        }
        Plan::Read { image, r } => read_pixels(device, client, *image, *r),
        Plan::Write { image, r, len } => write_pixels(device, *image, *r, &rest[..*len], steps),
    }
}
