//! Strings of the characters of a font (draw(3)): written whole, or not at all.

ghost use Rattle.std.specs.Prelude.{◌≡◌, ◌+◌, ◌/◌, ◌^◌, ◌≤◌, true, Ok, Err, IfOk, IfErr, IfSome, OnOk, OnErr, IsSome, is_ok, length};
ghost use Rattle.std.specs.List.{list_all, sum_by};
ghost use Rattle.std.specs.Option.{option_map};
ghost use Rattle.model_text.specs.text.Map.{lookup};
ghost use Rattle.model_draw_parts.specs.fonts.Font.{has_index};
ghost use Rattle.r9_geom.specs.Geometry.{IsNearBy};
ghost use Rattle.model_draw.specs.cost.Cost.{drawing_cost, of_found};
ghost use Rattle.model_draw.specs.draw.World.{client_of};
ghost use Rattle.model_draw.specs.draw.Writing.{look_background, string_drawings, write_string};
ghost use Rattle.r9_dmsg.specs.Listed.{indices_of, writing_in, IsNearWriting};
ghost use Rattle.r9_draw.specs.strings.Drawings.{drawings};
ghost use Rattle.r9_draw.specs.strings.Ready.{CanLetter};
ghost use Rattle.r9_draw.specs.messages.Fonts.{font_of_id};
ghost use Rattle.r9_device.specs.device.Live.{IsLiveIn};
ghost use Rattle.r9_draw.specs.messages.Strings.{background_of};
ghost use Rattle.r9_device.specs.device.World.{moment_of, world_of, writes_of};

use crate::strings::{Background, Lettering, draw_string};
use r9_chan::Op;
use r9_device::client::{font_of, op_of, set_op};
use r9_device::device::Device;
use r9_dmsg::Writing;
use r9_fonts::Font;
use r9_marks::steps::Steps;
use r9_memory::Memory;
use std::sync::ledger::Ledger;

// Whether the font has all of a string's characters.
fn has_all(font: &Font, asked: &Writing<'_>) -> bool
    ensures { result ≡ list_all (has_index font.now) (indices_of asked.now) }
{
    for k in 0..asked.len() {
        if !font.has(asked.index(k)) {
            return false;
        }
    }
    true
}

// The image under a string, and the point of it, where the string has a background.
fn background(device: &Device, client: u64, asked: &Writing<'_>) -> Result<Option<Background>, u8>
    requires { IsNearWriting asked.now }
    ensures found { IfOk result (λ b. look_background (world_of device.now) client (background_of asked.now) ≡ Ok (option_map (λ b. (b.image.0, b.p)) b)) }
    ensures live { IfOk result (λ b. IfSome b (λ b. IsLiveIn (world_of device.now) b.image.0)) }
    ensures point { IfOk result (λ b. IfSome b (λ b. IsNearBy (2 ^ 32) b.p)) }
    ensures refused { IfErr result (λ n. look_background (world_of device.now) client (background_of asked.now) ≡ Err n) }
{
    let Some(background) = asked.background else {
        return Ok(None);
    };
    let image = device.look(client, background.id)?;
    Ok(Some(Background {
        image,
        p: background.p,
    }))
}

// What an `s` or an `x` draws, or its first refusal.
#[tactic(auto, unfolding(model_draw::specs::draw::Writing::write_string, model_draw::specs::draw::Writing::string_drawings))]
pub(crate) fn lettering(device: &Device, client: u64, asked: &Writing<'_>) -> Result<Lettering, u8>
    requires live { IsSome (lookup (world_of device.now).clients client) }
    requires near { IsNearWriting asked.now }
    ensures ready { IfOk result (λ l. CanLetter (world_of device.now).images l) }
    ensures font { OnOk result (IsSome (lookup (client_of (world_of device.now) client).fonts asked.now.fontid)) }
    ensures all { OnOk result (list_all (has_index (font_of_id (world_of device.now) client asked.now.fontid)) (indices_of asked.now) ≡ true) }
    ensures drawn { IfOk result (λ l. string_drawings client (world_of device.now) (writing_in asked.now) (background_of asked.now) ≡ Ok (drawings (world_of device.now).images (font_of_id (world_of device.now) client asked.now.fontid) l (indices_of asked.now))) }
    ensures refused { IfErr result (λ n. write_string client (world_of device.now) (writing_in asked.now) (background_of asked.now) ≡ Err n) }
{
    let dst = device.look(client, asked.dstid)?;
    let src = device.look(client, asked.srcid)?;
    let font_image = device.look(client, asked.fontid)?;
    let Some(font) = font_of(&device.clients, client, asked.fontid) else {
        return Err(14);
    };
    let background = background(device, client, asked)?;
    let lettering = Lettering {
        dst,
        src,
        font_image,
        background,
        p: asked.p,
        clipr: asked.clipr,
        sp: asked.sp,
        op: op_of(&device.clients, client),
    };
    if !has_all(font, asked) {
        return Err(15);
    }
    Ok(lettering)
}

// The indices of a string.
fn indices(device: &Device, asked: &Writing<'_>) -> Result<Vec<u16>, Memory>
    ensures { IfOk result (λ indices. indices.items ≡ indices_of asked.now) }
{
    let mut indices = Vec::with_capacity(device.alloc, asked.len())?;
    for k in 0..asked.len() {
        indices.push(asked.index(k))?;
    }
    Ok(indices)
}

// `s` and `x`.
#[tactic(auto, unfolding(model_draw::specs::draw::Writing::write_string))]
pub(crate) fn write_string<L: Ledger>(
    device: &mut Device,
    client: u64,
    asked: &Writing<'_>,
    steps: &mut Steps<L>,
) -> Result<(), Memory>
    requires live { IsSome (lookup (world_of device.old).clients client) }
    requires near { IsNearWriting asked.now }
    requires few { length asked.now.indices.now / 2 ≤ 65535 }
    requires accepted { is_ok (write_string client (world_of device.old) (writing_in asked.now) (background_of asked.now)) ≡ true }
    ensures written { OnOk result (write_string client (world_of device.old) (writing_in asked.now) (background_of asked.now) ≡ Ok (world_of device.new)) }
    ensures kept { OnErr result (world_of device.new ≡ world_of device.old) }
    ensures steps { steps.new ≤ steps.old + of_found (sum_by (drawing_cost (world_of device.old).images)) (string_drawings client (world_of device.old) (writing_in asked.now) (background_of asked.now)) }
    ensures uncounted { OnErr result (steps.new ≡ steps.old) }
    ensures moment { moment_of device.new ≡ moment_of device.old }
    ensures writes { writes_of device.new + steps.old ≡ writes_of device.old + steps.new }
{
    let Ok(lettering) = lettering(device, client, asked) else {
        unreachable!()
    };
    let indices = indices(device, asked)?;
    let Some(font) = font_of(&device.clients, client, asked.fontid) else {
        unreachable!()
    };
    draw_string(&mut device.forest, font, &lettering, &indices, steps)?;
    set_op(&mut device.clients, client, Op::SoverD);
    Ok(())
}
