//! Fonts: images that hold characters (draw(3)).

ghost use Rattle.std.specs.Prelude.{◌≡◌, ◌≤◌, ◌+◌, ◌^◌, Ok, Err, IfOk, IfErr, IfSome, OnOk, OnErr, IsSome, is_some};
ghost use Rattle.r9_geom.specs.Geometry.{IsNearBy, IsRectNearBy, area_of, meet};
ghost use Rattle.model_text.specs.text.Map.{lookup};
ghost use Rattle.model_draw_parts.specs.fonts.Font.{new_font};
ghost use Rattle.model_draw.specs.cost.Cost.{drawing_cost};
ghost use Rattle.model_draw.specs.draw.World.{look};
ghost use Rattle.model_draw.specs.draw.Writing.{is_turned, load_cell, make_font, s_alone, unmasked, with_font};
ghost use Rattle.r9_draw.specs.messages.Fonts.{after_load_cell, CanLoad};
ghost use Rattle.r9_device.specs.device.World.{moment_of, world_of, writes_of};

use crate::messages::plan::Loading;
use r9_chan::Op;
use r9_device::client::{font_of, put_font, set_cell};
use r9_device::device::{DISPLAY, Device};
use r9_fonts::{Cell, Font};
use r9_geom::{Point, Rect};
use r9_marks::steps::Steps;
use r9_memory::Memory;
use std::sync::ledger::Ledger;

/// What `l` asks for.
#[derive(Clone, Copy)]
pub(crate) struct CellAsked {
    pub cacheid: u32,
    pub srcid: u32,
    pub index: u16,
    pub r: Rect,
    pub sp: Point,
    pub left: i8,
    pub width: u8,
}

// Most characters of a font.
const MOST_CELLS: u32 = 4096;

// Whether max is below min.
fn is_turned(r: &Rect) -> bool
    ensures { result ≡ is_turned r.now }
{
    r.max.x < r.min.x || r.max.y < r.min.y
}

// How many points both rectangles have, where that is below 2^64.
fn points_of_both(r: &Rect, other: &Rect) -> Option<u64>
    ensures { IfSome result (λ points. points ≡ area_of (meet r.now other.now)) }
{
    let both = r.meet(other);
    if both.is_empty() {
        return Some(0);
    }
    both.width().checked_mul(both.height())
}

// `i`.
#[tactic(auto, unfolding(model_draw::specs::draw::Writing::make_font))]
pub(crate) fn making_font(
    device: &Device,
    client: u64,
    id: u32,
    n: u32,
    ascent: u8,
) -> Result<(), u8>
    ensures made { OnOk result (make_font client (world_of device.now) id n ascent ≡ Ok (with_font (world_of device.now) client id (new_font n ascent))) }
    ensures refused { IfErr result (λ r. make_font client (world_of device.now) id n ascent ≡ Err r) }
{
    let image = device.look(client, id)?;
    if id == DISPLAY
        || device.book.screen_of(image.0).is_some()
        || device.book.by_name(client, id)
    {
        return Err(23);
    }
    if n == 0 || n > MOST_CELLS {
        return Err(23);
    }
    Ok(())
}

// `l`.
#[tactic(auto, unfolding(model_draw::specs::draw::Writing::load_cell, model_draw_parts::specs::fonts::Font::with_cell, crate::specs::messages::Fonts::after_load_cell))]
pub(crate) fn loading(device: &Device, client: u64, asked: &CellAsked) -> Result<Loading, u8>
    requires live { IsSome (lookup (world_of device.now).clients client) }
    requires near { IsRectNearBy (2 ^ 32) asked.now.r }
    requires source_near { IsNearBy (2 ^ 32) asked.now.sp }
    ensures loaded { IfOk result (λ l. load_cell client (world_of device.now) asked.now.cacheid asked.now.srcid asked.now.index asked.now.r asked.now.sp asked.now.left asked.now.width ≡ Ok (after_load_cell client (world_of device.now) l)) }
    ensures ready { IfOk result (λ l. CanLoad client (world_of device.now) l) }
    ensures cache { IfOk result (λ l. look (world_of device.now) client asked.now.cacheid ≡ Ok l.cache.0) }
    ensures source { IfOk result (λ l. look (world_of device.now) client asked.now.srcid ≡ Ok l.src.0) }
    ensures rect { IfOk result (λ l. l.r ≡ asked.now.r) }
    ensures point { IfOk result (λ l. l.sp ≡ asked.now.sp) }
    ensures refused { IfErr result (λ n. load_cell client (world_of device.now) asked.now.cacheid asked.now.srcid asked.now.index asked.now.r asked.now.sp asked.now.left asked.now.width ≡ Err n) }
{
    let cache = device.look(client, asked.cacheid)?;
    let Some(font) = font_of(&device.clients, client, asked.cacheid) else {
        return Err(14);
    };
    let src = device.look(client, asked.srcid)?;
    if !font.has(asked.index) {
        return Err(15);
    }
    let r = &asked.r;
    if is_turned(r) || !r.inside(&device.forest.info(cache).r) {
        return Err(9);
    }
    Ok(Loading {
        id: asked.cacheid,
        cache,
        src,
        index: asked.index,
        r: asked.r,
        sp: asked.sp,
        left: asked.left,
        width: asked.width,
    })
}

// `i`: the font that the id was goes.
pub(crate) fn make_font(
    device: &mut Device,
    client: u64,
    id: u32,
    n: u32,
    ascent: u8,
) -> Result<(), Memory>
    requires { IsSome (lookup (world_of device.old).clients client) }
    ensures made { OnOk result (world_of device.new ≡ with_font (world_of device.old) client id (new_font n ascent)) }
    ensures kept { OnErr result (world_of device.new ≡ world_of device.old) }
    ensures moment { moment_of device.new ≡ moment_of device.old }
    ensures writes { writes_of device.new ≡ writes_of device.old }
{
    let font = Font::new(device.alloc, n, ascent);
    put_font(&mut device.clients, client, id, font)
}

// `l`: the character is drawn on the font's image, and its place in it is kept. Room for the drawing is made first, so
// that nothing is half done.
#[tactic(auto, unfolding(crate::specs::messages::Fonts::after_load_cell))]
pub(crate) fn load_cell<L: Ledger>(
    device: &mut Device,
    client: u64,
    loading: &Loading,
    steps: &mut Steps<L>,
) -> Result<(), Memory>
    requires live { IsSome (lookup (world_of device.old).clients client) }
    requires ready { CanLoad client (world_of device.old) loading.now }
    ensures loaded { OnOk result (world_of device.new ≡ after_load_cell client (world_of device.old) loading.now) }
    ensures kept { OnErr result (world_of device.new ≡ world_of device.old) }
    ensures steps { steps.new ≤ steps.old + drawing_cost (world_of device.old).images (unmasked loading.now.cache.0 loading.now.r loading.now.r loading.now.src.0 loading.now.sp s_alone) }
    ensures uncounted { OnErr result (steps.new ≡ steps.old) }
    ensures moment { moment_of device.new ≡ moment_of device.old }
    ensures writes { writes_of device.new + steps.old ≡ writes_of device.old + steps.new }
{
    let Loading { cache, r, sp, .. } = *loading;
    device.forest.keeps();
    let Some(points) = points_of_both(&r, &device.forest.info(cache).r) else {
        return Err(Memory);
    };
    device.forest.room(points)?;
    let cell = Cell {
        r,
        left: loading.left,
        width: loading.width,
    };
    set_cell(&mut device.clients, client, loading.id, loading.index, cell)?;
    match device
        .forest
        .draw_unmasked(cache, r, r, loading.src, sp, Op::S, steps)
    {
        Ok(()) => Ok(()),
        Err(_) => unreachable!(),
    }
}
