//! Drawing, and pixels that are read and written (draw(3)).

ghost use Rattle.model_draw.specs.cost.Cost.{drawing_cost};
ghost use Rattle.model_draw.specs.draw.Drawing as drawing;
ghost use Rattle.model_draw.specs.draw.Drawing.{drawing_of, with_operator, with_rows};
ghost use Rattle.model_draw.specs.draw.World.{at_number, client_of, look};
ghost use Rattle.model_draw.specs.imgfile.ImageFile.{rows_len};
ghost use Rattle.model_text.specs.text.Map.{lookup};
ghost use Rattle.r9_chan.specs.Op.{number};
ghost use Rattle.r9_draw.specs.messages.Plans.{CanDraw, CanWrite, IsPart, after_read, after_task, drawing_by, is_spare};
ghost use Rattle.r9_draw.specs.declared.messages.plan.Plan.TheVariants as plan;
ghost use Rattle.r9_device.specs.device.World.{moment_of, world_of, writes_of};
ghost use Rattle.r9_geom.specs.Geometry.{IsNearBy, IsRectNearBy, area_of};
ghost use Rattle.std.specs.Prelude.{Err, IfErr, IfNone, IfOk, IfSome, IsOk, IsSome, Ok, OnErr, OnOk, false, length, nat_lt, take, true, ◌+◌, ◌^◌, ◌≡◌, ◌≤◌};

use crate::messages::lookup::{part, rows_of_part};
use crate::messages::plan::Task;
use r9_chan::Op;
use r9_device::client::{op_of, replace_pending, set_op};
use r9_device::device::Device;
use r9_geom::{Point, Rect};
use r9_layers::ImageNo;
use r9_marks::steps::Steps;
use r9_memory::Memory;
use std::sync::ledger::Ledger;

// The images of a drawing.
#[derive(Clone, Copy)]
pub(crate) struct Ids {
    pub dst: u32,
    pub src: u32,
    pub mask: u32,
}

// Most bytes of one `r`.
const MOST_READ: u64 = 65536;

// The operator of a number; none above 11.
pub(crate) fn operator(byte: u8) -> Option<Op>
    ensures found { IfSome result (λ op. number op ≡ byte) }
    ensures within { IsSome result → nat_lt 11 byte ≡ false }
    ensures none { IfNone result (nat_lt 11 byte ≡ true) }
{
    Op::of_byte(byte)
}

// `d`.
#[tactic(auto, unfolding(model_draw::specs::draw::Drawing::draw, model_draw::specs::draw::Drawing::drawing_of, crate::specs::messages::Plans::after_task))]
pub(crate) fn task(
    device: &Device,
    client: u64,
    ids: &Ids,
    r: &Rect,
    sp: Point,
    mp: Point,
) -> Result<Task, u8>
    requires near { IsRectNearBy (2 ^ 34) r.now }
    requires source_near { IsNearBy (2 ^ 34) sp }
    requires mask_near { IsNearBy (2 ^ 34) mp }
    ensures drawn { IfOk result (λ t. drawing.draw client (world_of device.now) ids.now.dst ids.now.src ids.now.mask r.now sp mp ≡ Ok (after_task client (world_of device.now) t)) }
    ensures ready { IfOk result (λ t. CanDraw (world_of device.now) t) }
    ensures drawing { IfOk result (λ t. drawing_of client (world_of device.now) ids.now.dst ids.now.src ids.now.mask r.now sp mp ≡ Ok (drawing_by (client_of (world_of device.now) client).op t)) }
    ensures target { IfOk result (λ t. look (world_of device.now) client ids.now.dst ≡ Ok t.dst.0) }
    ensures rect { IfOk result (λ t. t.r ≡ r.now) }
    ensures refused { IfErr result (λ n. drawing.draw client (world_of device.now) ids.now.dst ids.now.src ids.now.mask r.now sp mp ≡ Err n) }
{
    let dst = device.look(client, ids.dst)?;
    let src = device.look(client, ids.src)?;
    let mask = device.look(client, ids.mask)?;
    Ok(Task {
        dst,
        src,
        mask,
        r: *r,
        sp,
        mp,
    })
}

// `r`.
#[tactic(auto, unfolding(model_draw::specs::draw::Drawing::read_pixels, crate::specs::messages::Plans::part_of, crate::specs::messages::Plans::after_read))]
pub(crate) fn read(device: &Device, client: u64, id: u32, r: &Rect) -> Result<ImageNo, u8>
    requires near { IsRectNearBy (2 ^ 33) r.now }
    ensures pending { IfOk result (λ i. drawing.read_pixels client (world_of device.now) id r.now ≡ Ok (after_read client (world_of device.now) i.0 r.now)) }
    ensures ready { IfOk result (λ i. IsPart (world_of device.now) i.0 r.now) }
    ensures refused { IfErr result (λ n. drawing.read_pixels client (world_of device.now) id r.now ≡ Err n) }
{
    let image = part(device, client, id, r, 12)?;
    match rows_of_part(device, image, r) {
        Some(len) if len <= MOST_READ => Ok(image),
        _ => Err(25),
    }
}

// `y`, with the bytes behind it: the image, and how many of them are its rows.
#[tactic(auto, unfolding(model_draw::specs::draw::Drawing::write_pixels, crate::specs::messages::Plans::part_of))]
pub(crate) fn write_rows(
    device: &Device,
    client: u64,
    id: u32,
    r: &Rect,
    rest: &[u8],
) -> Result<(ImageNo, usize), u8>
    requires near { IsRectNearBy (2 ^ 33) r.now }
    ensures written { IfOk result (λ w. drawing.write_pixels client (world_of device.now) id r.now rest.now ≡ Ok (with_rows (world_of device.now) w.0.0 r.now (take w.1 rest.now))) }
    ensures found { IfOk result (λ w. look (world_of device.now) client id ≡ Ok w.0.0) }
    ensures ready { IfOk result (λ w. CanWrite (world_of device.now) w.0.0 r.now w.1 rest.now) }
    ensures refused { IfErr result (λ n. drawing.write_pixels client (world_of device.now) id r.now rest.now ≡ Err n) }
{
    let image = part(device, client, id, r, 13)?;
    match rows_of_part(device, image, r) {
        Some(len) if len <= rest.len() as u64 => Ok((image, len as usize)),
        _ => Err(1),
    }
}

// `d`.
#[tactic(auto, unfolding(crate::specs::messages::Plans::after_task))]
pub(crate) fn draw<L: Ledger>(
    device: &mut Device,
    client: u64,
    task: &Task,
    steps: &mut Steps<L>,
) -> Result<(), Memory>
    requires live { IsSome (lookup (world_of device.old).clients client) }
    requires ready { CanDraw (world_of device.old) task.now }
    ensures drawn { OnOk result (world_of device.new ≡ after_task client (world_of device.old) task.now) }
    ensures kept { OnErr result (world_of device.new ≡ world_of device.old) }
    ensures memory { is_spare (world_of device.old) (plan.Draw task.now) ≡ true → IsOk result }
    ensures steps { steps.new ≤ steps.old + drawing_cost (world_of device.old).images (drawing_by (client_of (world_of device.old) client).op task.now) }
    ensures uncounted { OnErr result (steps.new ≡ steps.old) }
    ensures moment { moment_of device.new ≡ moment_of device.old }
    ensures writes { writes_of device.new + steps.old ≡ writes_of device.old + steps.new }
{
    let op = op_of(&device.clients, client);
    device.forest.draw(
        task.dst, task.r, task.r, task.src, task.sp, task.mask, task.mp, op, steps,
    )?;
    set_op(&mut device.clients, client, Op::SoverD);
    Ok(())
}

// `O`.
pub(crate) fn set_operator(device: &mut Device, client: u64, op: Op)
    requires { IsSome (lookup (world_of device.old).clients client) }
    ensures world { world_of device.new ≡ with_operator (world_of device.old) client (number op) }
    ensures moment { moment_of device.new ≡ moment_of device.old }
    ensures writes { writes_of device.new ≡ writes_of device.old }
{
    set_op(&mut device.clients, client, op);
}

// `r`.
#[tactic(auto, unfolding(crate::specs::messages::Plans::after_read))]
pub(crate) fn read_pixels(
    device: &mut Device,
    client: u64,
    image: ImageNo,
    r: Rect,
) -> Result<(), Memory>
    requires live { IsSome (lookup (world_of device.old).clients client) }
    requires part { IsPart (world_of device.old) image.0 r }
    ensures pending { OnOk result (world_of device.new ≡ after_read client (world_of device.old) image.0 r) }
    ensures kept { OnErr result (world_of device.new ≡ world_of device.old) }
    ensures moment { moment_of device.new ≡ moment_of device.old }
    ensures writes { writes_of device.new ≡ writes_of device.old }
{
    let rows = device.forest.unload(image, r)?;
    replace_pending(&mut device.clients, client, rows);
    Ok(())
}

// `y`.
pub(crate) fn write_pixels<L: Ledger>(
    device: &mut Device,
    image: ImageNo,
    r: Rect,
    rows: &[u8],
    steps: &mut Steps<L>,
) -> Result<(), Memory>
    requires part { IsPart (world_of device.old) image.0 r }
    requires whole { length rows.now ≡ rows_len (at_number (world_of device.old) image.0).chan r }
    ensures written { OnOk result (world_of device.new ≡ with_rows (world_of device.old) image.0 r rows.now) }
    ensures kept { OnErr result (world_of device.new ≡ world_of device.old) }
    ensures steps { steps.new ≤ steps.old + area_of r }
    ensures uncounted { OnErr result (steps.new ≡ steps.old) }
    ensures moment { moment_of device.new ≡ moment_of device.old }
    ensures writes { writes_of device.new + steps.old ≡ writes_of device.old + steps.new }
{
    device.forest.load(image, r, rows, steps)
}
