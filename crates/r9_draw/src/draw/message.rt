//! One message of a write.

ghost use Rattle.model_draw_parts.specs.dmsg.Message.{Message};
ghost use Rattle.model_draw_parts.specs.dmsg.Reading.{IsMessage, first_message};
ghost use Rattle.model_draw.specs.draw.Memory.{takes_no_memory};
ghost use Rattle.model_draw.specs.draw.World.{World};
ghost use Rattle.model_text.specs.text.Map.{lookup};
ghost use Rattle.r9_dmsg.specs.Listed.{has_list};
ghost use Rattle.r9_dmsg.specs.View.{message_of};
ghost use Rattle.r9_draw.specs.draw.Steps.{HasRows, IsCounted, IsStep, rows_by};
ghost use Rattle.r9_device.specs.device.World.{moment_of, world_of, writes_of};
ghost use Rattle.r9_draw.specs.messages.Costs.{plan_cost};
ghost use Rattle.r9_draw.specs.messages.Plans.{IsReady, after, is_spare, rows_behind};
ghost use Rattle.std.specs.Prelude.{IsSome, ◌+◌, List, OnErr, OnOk, drop, false, length, ℕ, ◌++◌, ◌<◌, ◌^◌, ◌≡◌, ◌≤◌};

use crate::draw::listed::listed_message;
use crate::messages::{Plan, carry_out, plan_message};
use r9_device::device::Device;
use r9_dmsg::{Dmsg, DmsgFault, next_listed, next_msg};
use r9_marks::steps::Steps;
use r9_memory::Memory;
use r9_text::Numbers;
use std::sync::ledger::Ledger;

/// What became of one message.
#[derive(Clone, Copy)]
pub(crate) enum Step {
    /// It was done; it takes so many bytes.
    Done(usize),
    /// The number of its refusal.
    Refused(u8),
    /// It is not refused, and was not done.
    Short,
}

/// The bytes behind so many.
pub(crate) fn behind(bytes: &[u8], len: usize) -> &[u8]
    requires { len ≤ length bytes.now }
    ensures { result.now ≡ drop len bytes.now }
{
    &bytes[len..]
}

// Adds the length of a message's rows, where it is a `y`.
fn push_rows(rows: &mut Numbers, message: &Dmsg, len: u32) -> Result<(), Memory>
    ensures ok { OnOk result (rows.new ≡ rows.old ++ rows_by (message_of message.now) len) }
    ensures err { OnErr result (rows.new ≡ rows.old) }
    ensures memory { OnErr result ((k : ℕ) (world : World) → takes_no_memory k world (message_of message.now) ≡ false) }
{
    match message {
        Dmsg::LowY { .. } => rows.push(len),
        _ => Ok(()),
    }
}

// Does what a message without a list asks for, behind which these bytes stand, and adds the length of its rows where it is a `y`: the
// room for it is taken first. After Memory all is as before.
fn do_plan<L: Ledger>(
    device: &mut Device,
    client: u64,
    message: &Dmsg,
    plan: &Plan,
    rest: &[u8],
    rows: &mut Numbers,
    steps: &mut Steps<L>,
) -> Result<(), Memory>
    requires live { IsSome (lookup (world_of device.old).clients client) }
    requires ready { IsReady client (world_of device.old) plan.now rest.now }
    requires few { rows_behind plan.now < 2 ^ 32 }
    requires spare { takes_no_memory client (world_of device.old) (message_of message.now) ≡ is_spare (world_of device.old) plan.now }
    ensures done { OnOk result (world_of device.new ≡ after client (world_of device.old) plan.now rest.now) }
    ensures rows { OnOk result (rows.new ≡ rows.old ++ rows_by (message_of message.now) (rows_behind plan.now)) }
    ensures kept { OnErr result (world_of device.new ≡ world_of device.old) }
    ensures rows_kept { OnErr result (rows.new ≡ rows.old) }
    ensures memory { OnErr result (takes_no_memory client (world_of device.old) (message_of message.now) ≡ false) }
    ensures steps { steps.new ≤ steps.old + plan_cost client (world_of device.old) plan.now }
    ensures uncounted { OnErr result (steps.new ≡ steps.old) }
    ensures moment { moment_of device.new ≡ moment_of device.old }
    ensures writes { writes_of device.new + steps.old ≡ writes_of device.old + steps.new }
{
    let known = rows.len();
    push_rows(rows, message, plan.rows_behind() as u32)?;
    match carry_out(device, client, plan, rest, steps) {
        Ok(()) => Ok(()),
        Err(fault) => {
            rows.truncate(known);
            Err(fault)
        }
    }
}

// The first message of the bytes, which has no list. Where it is done, the length of its rows is added if it is a `y`.
pub(crate) fn plain_message<L: Ledger>(
    device: &mut Device,
    client: u64,
    bytes: &[u8],
    marked: bool,
    rows: &mut Numbers,
    steps: &mut Steps<L>,
) -> Step
    requires live { IsSome (lookup (world_of device.old).clients client) }
    requires few { length bytes.now < 2 ^ 32 }
    requires plain { (m : Message) (rest : List ℕ) → first_message bytes.now ≡ IsMessage m rest → has_list m ≡ false }
    ensures step { IsStep client (world_of device.old) bytes.now marked result (world_of device.new) }
    ensures rows { HasRows client (world_of device.old) bytes.now result rows.old rows.new }
    ensures steps { IsCounted client (world_of device.old) bytes.now result steps.old steps.new }
    ensures moment { moment_of device.new ≡ moment_of device.old }
    ensures writes { writes_of device.new + steps.old ≡ writes_of device.old + steps.new }
{
    let message = match next_msg(device.alloc, bytes) {
        Ok(message) => message,
        Err(DmsgFault::Short) => return Step::Refused(1),
        Err(DmsgFault::Unknown) => return Step::Refused(2),
        Err(DmsgFault::Unsupported) => return Step::Refused(3),
        // Only lists take memory.
        Err(DmsgFault::Memory) => unreachable!(),
    };
    let len = message.spelled_len();
    let rest = behind(bytes, len);
    let plan = match plan_message(device, client, &message, rest) {
        Ok(plan) => plan,
        Err(refusal) => return Step::Refused(refusal),
    };
    if marked {
        return Step::Short;
    }
    match do_plan(device, client, &message, &plan, rest, rows, steps) {
        Ok(()) => Step::Done(len + plan.rows_behind()),
        Err(_) => Step::Short,
    }
}

/// The first message of the bytes. Where it is marked, it is looked at, and not done. Where it is done, the length of its rows is
/// added if it is a `y`.
pub(crate) fn one_message<L: Ledger>(
    device: &mut Device,
    client: u64,
    bytes: &[u8],
    marked: bool,
    rows: &mut Numbers,
    steps: &mut Steps<L>,
) -> Step
    requires live { IsSome (lookup (world_of device.old).clients client) }
    requires few { length bytes.now < 2 ^ 32 }
    ensures step { IsStep client (world_of device.old) bytes.now marked result (world_of device.new) }
    ensures rows { HasRows client (world_of device.old) bytes.now result rows.old rows.new }
    ensures steps { IsCounted client (world_of device.old) bytes.now result steps.old steps.new }
    ensures moment { moment_of device.new ≡ moment_of device.old }
    ensures writes { writes_of device.new + steps.old ≡ writes_of device.old + steps.new }
{
    match next_listed(bytes) {
        Some(asked) => listed_message(device, client, bytes, &asked, marked, steps),
        None => plain_message(device, client, bytes, marked, rows, steps),
    }
}
