//! The names of images (draw(3)). What a message is refused for is found without memory.

ghost use Rattle.std.specs.Prelude.{◌≡◌, true, Ok, Err, IfErr, OnOk, OnErr, IsSome, is_ok};
ghost use Rattle.model_text.specs.text.Map.{lookup};
ghost use Rattle.model_draw.specs.draw.Making.{flag};
ghost use Rattle.model_draw.specs.draw.Naming.{name_image, use_name};
ghost use Rattle.r9_device.specs.device.World.{moment_of, world_of, writes_of};

use r9_device::client::describe;
use r9_device::device::Device;
use r9_dmsg::{NameUse, Naming};
use r9_memory::Memory;

// The first refusal of an `N`.
#[tactic(auto, unfolding(model_draw::specs::draw::Naming::name_image))]
pub(crate) fn look_naming(device: &Device, client: u64, asked: &Naming<'_>) -> Result<(), u8>
    ensures accepted { OnOk result (is_ok (name_image client (world_of device.now) asked.now.id (flag asked.now.tied) asked.now.name.now) ≡ true) }
    ensures refused { IfErr result (λ n. name_image client (world_of device.now) asked.now.id (flag asked.now.tied) asked.now.name.now ≡ Err n) }
{
    device.look(client, asked.id)?;
    if asked.name.is_empty() {
        return Err(23);
    }
    if asked.tied != 0 {
        device.book.can_tie(client, asked.id, asked.name)
    } else {
        device.book.can_untie(client, asked.id, asked.name)
    }
}

// `N`.
#[tactic(auto, unfolding(model_draw::specs::draw::Naming::name_image))]
pub(crate) fn name_image(device: &mut Device, client: u64, asked: &Naming<'_>) -> Result<(), Memory>
    requires { is_ok (name_image client (world_of device.old) asked.now.id (flag asked.now.tied) asked.now.name.now) ≡ true }
    ensures named { OnOk result (name_image client (world_of device.old) asked.now.id (flag asked.now.tied) asked.now.name.now ≡ Ok (world_of device.new)) }
    ensures kept { OnErr result (world_of device.new ≡ world_of device.old) }
    ensures moment { moment_of device.new ≡ moment_of device.old }
    ensures writes { writes_of device.new ≡ writes_of device.old }
{
    let named = if asked.tied != 0 {
        device.book.tie(client, asked.id, asked.name)
    } else {
        device.book.untie(client, asked.id, asked.name)
    };
    named.map_err(|_| Memory)
}

// The first refusal of an `n`.
#[tactic(auto, unfolding(model_draw::specs::draw::Naming::use_name))]
pub(crate) fn look_name_use(device: &Device, client: u64, asked: &NameUse<'_>) -> Result<(), u8>
    ensures accepted { OnOk result (is_ok (use_name client (world_of device.now) asked.now.id asked.now.name.now) ≡ true) }
    ensures refused { IfErr result (λ n. use_name client (world_of device.now) asked.now.id asked.now.name.now ≡ Err n) }
{
    device.book.can_add_named(client, asked.id, asked.name)
}

// `n`.
#[tactic(auto, unfolding(model_draw::specs::draw::Naming::use_name))]
pub(crate) fn use_name(device: &mut Device, client: u64, asked: &NameUse<'_>) -> Result<(), Memory>
    requires live { IsSome (lookup (world_of device.old).clients client) }
    requires accepted { is_ok (use_name client (world_of device.old) asked.now.id asked.now.name.now) ≡ true }
    ensures used { OnOk result (use_name client (world_of device.old) asked.now.id asked.now.name.now ≡ Ok (world_of device.new)) }
    ensures kept { OnErr result (world_of device.new ≡ world_of device.old) }
    ensures moment { moment_of device.new ≡ moment_of device.old }
    ensures writes { writes_of device.new ≡ writes_of device.old }
{
    if device.book.add_named(client, asked.id, asked.name).is_err() {
        return Err(Memory);
    }
    describe(&mut device.clients, client, asked.id);
    Ok(())
}
