//! Drawing on an image from a source through a mask (draw(2)): the points that change, and what they get. The source and
//! the mask are read through their windows; the target changes only where it is bare.

ghost use Rattle.std.specs.Prelude.{◌≡◌, ◌+◌, ◌*◌, ◌^◌, ◌<◌, ◌≤◌, false, true, int_le, length, IfSome, IsTrue};
ghost use Rattle.r9_geom.specs.declared.Point.{Point as Spot};
ghost use Rattle.r9_geom.specs.Geometry.{area_of, height, holds, is_empty, width, IsNearBy, IsOrdered, IsRectNear, IsRectNearBy};
ghost use Rattle.model_pixel.specs.Channels as channels;
ghost use Rattle.model_forest.specs.Cost as cost;
ghost use Rattle.model_forest.specs.Draw.{after_draw, drawn, in_area, with_canvas};
ghost use Rattle.model_forest.specs.View.{is_bare};
ghost use Rattle.model_forest.specs.World.{image_at, IsLive};
ghost use Rattle.r9_forest.specs.Images.{moment, numbers, world, writes};
ghost use Rattle.r9_layers.specs.Apart.{IsAhead, IsApart, IsSteady};
ghost use Rattle.r9_layers.specs.Area.{drawing_of, IsTaskOf};
ghost use Rattle.r9_layers.specs.Bands.{rows_of};
ghost use Rattle.r9_layers.specs.Moved.{IsMoved};
ghost use Rattle.r9_layers.specs.Over.{IsOver};
ghost use Rattle.r9_layers.specs.Way.{IsWayOf};

use super::composing::{Way, chan_of_mask, compose_area, is_apart, single_mask, way_of};
use super::task::Task;
use r9_forest::Images;
use r9_geom::{Point, Rect};
use r9_kern::Over;
use r9_locate::lists::carried_rect;
use r9_marks::steps::Steps;
use r9_mem::{Through, solid};
use std::sync::ledger::Ledger;

// How many pixels of a drawing stand beside the images at a time, where rows can be drawn one after the other.
const BAND: u64 = 4096;

// The points of r that an image gives a pixel to, where its point `from` stands at `to`.
fn reach(images: &Images, i: u32, from: Point, to: Point, r: &Rect) -> Rect
    requires live { IsLive (world images.now) i }
    requires from { IsNearBy (2 ^ 34) from }
    requires to { IsNearBy (2 ^ 34) to }
    ensures { result ≡ cost.reach (image_at (world images.now) i) from to r.now }
{
    images.keeps();
    let image = images.info(i);
    let clipped = r.meet(&carried_rect(&image.clipr, from, to));
    if image.repl {
        clipped
    } else {
        clipped.meet(&carried_rect(&image.r, from, to))
    }
}

/// The points that a drawing is about.
pub fn area(images: &Images, task: &Task) -> Rect
    requires { IsTaskOf (world images.now) task.now }
    ensures { result ≡ cost.area (world images.now) (drawing_of task.now) }
{
    let dst = images.info(task.dst);
    let within = task.r.meet(&dst.r);
    let cut = within.meet(&dst.clipr).meet(&task.clip);
    let sourced = reach(images, task.src, task.sp, task.r.min, &cut);
    match task.mask {
        Some(mask) => reach(images, mask, task.mp, task.r.min, &sourced),
        None => sourced,
    }
}

/// The one pixel that each point of the area gets, where source and mask are single pixels that hide the target.
pub fn solid_pixel(images: &Images, task: &Task) -> Option<u32>
    requires { IsTaskOf (world images.now) task.now }
    ensures value { IfSome result (λ raw. (p : Spot) → drawn (world images.now) (drawing_of task.now) p ≡ raw) }
    ensures range { IfSome result (λ raw. raw < 2 ^ channels.depth (image_at (world images.now) task.now.dst).chan) }
{
    images.keeps();
    let s = images.single(task.src)?;
    let m = single_mask(images, task)?;
    let dst = images.info(task.dst).chan;
    let src = images.info(task.src).chan;
    let mask = chan_of_mask(images, task.mask);
    solid(dst, src, mask, task.op, s, m)
}

/// Draws on the points of an area that all get one pixel. The target is not read.
pub fn draw_solid<L: Ledger>(
    images: &mut Images,
    task: &Task,
    area: &Rect,
    raw: u32,
    steps: &mut Steps<L>,
)
    requires live { IsTaskOf (world images.old) task.now }
    requires area { area.now ≡ cost.area (world images.old) (drawing_of task.now) }
    requires some { is_empty area.now ≡ false }
    requires drawn { (p : Spot) → drawn (world images.old) (drawing_of task.now) p ≡ raw }
    requires raw { raw < 2 ^ channels.depth (image_at (world images.old) task.now.dst).chan }
    ensures world { world images.new ≡ after_draw (world images.old) (drawing_of task.now) }
    ensures numbers { numbers images.new ≡ numbers images.old }
    ensures steps { steps.new ≤ steps.old + area_of area.now }
    ensures moment { moment images.new ≡ moment images.old }
    ensures writes { writes images.new + steps.old ≡ writes images.old + steps.new }
{
    images.fill(task.dst, *area, raw, steps);
}

// The bits of a pixel that stay where an image is drawn onto itself and the source alone decides.
fn moved_bits(images: &Images, task: &Task) -> Option<u32>
    requires { IsTaskOf (world images.now) task.now }
    ensures { IfSome result (IsMoved (world images.now) task.now) }
{
    if task.src != task.dst {
        return None;
    }
    let info = images.info(task.dst);
    if info.repl {
        return None;
    }
    let m = single_mask(images, task)?;
    let mask = chan_of_mask(images, task.mask);
    Through::of(info.chan, info.chan, mask, task.op, m).moved_bits()
}

// Draws an image onto itself on the points of an area, where the source alone decides and its pixels are only to be moved on one
// plane. Otherwise nothing is done, and it tells so. It takes no memory.
fn draw_moved<L: Ledger>(
    images: &mut Images,
    task: &Task,
    area: &Rect,
    steps: &mut Steps<L>,
) -> bool
    requires live { IsTaskOf (world images.old) task.now }
    requires area { area.now ≡ cost.area (world images.old) (drawing_of task.now) }
    requires some { is_empty area.now ≡ false }
    ensures world { result ≡ true → world images.new ≡ after_draw (world images.old) (drawing_of task.now) }
    ensures numbers { numbers images.new ≡ numbers images.old }
    ensures steps { result ≡ true → steps.new ≤ steps.old + area_of area.now }
    ensures unmoved { result ≡ false → world images.new ≡ world images.old }
    ensures uncounted { result ≡ false → steps.new ≡ steps.old }
    ensures moment { moment images.new ≡ moment images.old }
    ensures writes { writes images.new + steps.old ≡ writes images.old + steps.new }
{
    let Some(bits) = moved_bits(images, task) else {
        return false;
    };
    let from = area.min.carried(task.r.min, task.sp);
    images.move_within(task.dst, area, from, bits, steps)
}

// How pixels are composed where an image that does not repeat is drawn by SoverD through a full mask.
fn over_of(images: &Images, task: &Task) -> Option<Over>
    requires { IsTaskOf (world images.now) task.now }
    ensures { IfSome result (IsOver (world images.now) task.now) }
{
    let source = images.info(task.src);
    if source.repl {
        return None;
    }
    let m = single_mask(images, task)?;
    let dst = images.info(task.dst).chan;
    let mask = chan_of_mask(images, task.mask);
    Through::of(dst, source.chan, mask, task.op, m).over()
}

// Draws on the points of an area by SoverD through a full mask, where the pixels of two planes are composed where they stand.
// Otherwise nothing is done, and it tells so. It takes no memory.
fn draw_over<L: Ledger>(images: &mut Images, task: &Task, area: &Rect, steps: &mut Steps<L>) -> bool
    requires live { IsTaskOf (world images.old) task.now }
    requires area { area.now ≡ cost.area (world images.old) (drawing_of task.now) }
    requires some { is_empty area.now ≡ false }
    ensures world { result ≡ true → world images.new ≡ after_draw (world images.old) (drawing_of task.now) }
    ensures numbers { numbers images.new ≡ numbers images.old }
    ensures steps { result ≡ true → steps.new ≤ steps.old + area_of area.now }
    ensures unmoved { result ≡ false → world images.new ≡ world images.old }
    ensures uncounted { result ≡ false → steps.new ≡ steps.old }
    ensures moment { moment images.new ≡ moment images.old }
    ensures writes { writes images.new + steps.old ≡ writes images.old + steps.new }
{
    let Some(over) = over_of(images, task) else {
        return false;
    };
    let from = area.min.carried(task.r.min, task.sp);
    images.compose_over(task.dst, area, task.src, from, over, steps)
}

/// Draws on the points of an area where no pixel needs to stand beside the images: where those of one plane are only to be moved,
/// or those of two are composed by SoverD through a full mask. Otherwise nothing is done, and it tells so. It takes no memory.
pub fn draw_in_place<L: Ledger>(
    images: &mut Images,
    task: &Task,
    area: &Rect,
    steps: &mut Steps<L>,
) -> bool
    requires live { IsTaskOf (world images.old) task.now }
    requires area { area.now ≡ cost.area (world images.old) (drawing_of task.now) }
    requires some { is_empty area.now ≡ false }
    ensures world { result ≡ true → world images.new ≡ after_draw (world images.old) (drawing_of task.now) }
    ensures numbers { numbers images.new ≡ numbers images.old }
    ensures steps { result ≡ true → steps.new ≤ steps.old + area_of area.now }
    ensures unmoved { result ≡ false → world images.new ≡ world images.old }
    ensures uncounted { result ≡ false → steps.new ≡ steps.old }
    ensures moment { moment images.new ≡ moment images.old }
    ensures writes { writes images.new + steps.old ≡ writes images.old + steps.new }
{
    if draw_moved(images, task, area, steps) {
        return true;
    }
    draw_over(images, task, area, steps)
}

// Draws on the points of a rectangle of the area. What they get stands in `pixels` first, since the target may be the source.
fn draw_band<L: Ledger>(
    images: &mut Images,
    task: &Task,
    way: &Way,
    r: &Rect,
    pixels: &mut [u32],
    steps: &mut Steps<L>,
)
    requires live { IsTaskOf (world images.old) task.now }
    requires way { IsWayOf (world images.old) task.now way.now }
    requires near { IsRectNearBy (2 ^ 34) r.now }
    requires ordered { IsOrdered r.now }
    requires inside { (p : Spot) → IsTrue (holds r.now p) → IsTrue (in_area (world images.old) (drawing_of task.now) p) }
    requires pixels { length pixels.old ≡ height r.now * width r.now }
    ensures world { world images.new ≡ with_canvas (world images.old) task.now.dst (holds r.now) (drawn (world images.old) (drawing_of task.now)) }
    ensures numbers { numbers images.new ≡ numbers images.old }
    ensures steps { steps.new ≤ steps.old + area_of r.now }
    ensures moment { moment images.new ≡ moment images.old }
    ensures writes { writes images.new + steps.old ≡ writes images.old + steps.new }
{
    compose_area(images, task, way, r, pixels);
    images.put_pixels(task.dst, r, pixels, steps);
}

// Draws on all points of an area at once.
fn draw_by<L: Ledger>(
    images: &mut Images,
    task: &Task,
    way: &Way,
    area: &Rect,
    pixels: &mut [u32],
    steps: &mut Steps<L>,
)
    requires live { IsTaskOf (world images.old) task.now }
    requires way { IsWayOf (world images.old) task.now way.now }
    requires area { area.now ≡ cost.area (world images.old) (drawing_of task.now) }
    requires some { is_empty area.now ≡ false }
    requires pixels { length pixels.old ≡ height area.now * width area.now }
    ensures world { world images.new ≡ after_draw (world images.old) (drawing_of task.now) }
    ensures numbers { numbers images.new ≡ numbers images.old }
    ensures steps { steps.new ≤ steps.old + area_of area.now }
    ensures moment { moment images.new ≡ moment images.old }
    ensures writes { writes images.new + steps.old ≡ writes images.old + steps.new }
{
    draw_band(images, task, way, area, pixels, steps);
}

fn is_at_most(a: i64, b: i64) -> bool
    ensures { result ≡ int_le a b }
{
    a <= b
}

// Whether the target is the source, and each point takes a pixel of its own row or of one below.
fn is_ahead(images: &Images, task: &Task) -> bool
    requires { IsTaskOf (world images.now) task.now }
    ensures { result ≡ true → IsAhead (world images.now) task.now }
{
    let info = images.info(task.dst);
    if task.src != task.dst {
        return false;
    }
    if info.windows != 0 {
        return false;
    }
    if info.repl {
        return false;
    }
    is_at_most(task.r.min.y, task.sp.y)
}

// Whether no mask changes whatever is drawn.
fn is_mask_apart(images: &Images, task: &Task) -> bool
    requires { IsTaskOf (world images.now) task.now }
    ensures { result ≡ true → IfSome task.now.mask (IsApart (world images.now) task.now.dst) }
{
    match task.mask {
        Some(i) => is_apart(images, i, task.dst),
        None => true,
    }
}

// Whether rows can be drawn one after the other, from above.
fn is_steady(images: &Images, task: &Task) -> bool
    requires { IsTaskOf (world images.now) task.now }
    ensures { result ≡ true → IsSteady (world images.now) task.now }
{
    if !is_mask_apart(images, task) {
        return false;
    }
    if is_apart(images, task.src, task.dst) {
        return true;
    }
    is_ahead(images, task)
}

// The rows of an area from one on, up to another.
fn rows_of(area: &Rect, first: u64, end: u64) -> Rect
    requires near { IsRectNear area.now }
    requires first { first ≤ 2 ^ 41 }
    requires end { end ≤ 2 ^ 41 }
    ensures { result ≡ rows_of area.now first end }
{
    Rect {
        min: Point {
            x: area.min.x,
            y: area.min.y + first as i64,
        },
        max: Point {
            x: area.max.x,
            y: area.min.y + end as i64,
        },
    }
}

// Draws on the points of an area some rows at a time, from above, where those that are drawn do not change what later ones
// read. What they get stays in the first cache.
fn draw_bands<L: Ledger>(
    images: &mut Images,
    task: &Task,
    way: &Way,
    area: &Rect,
    pixels: &mut [u32],
    steps: &mut Steps<L>,
)
    requires live { IsTaskOf (world images.old) task.now }
    requires way { IsWayOf (world images.old) task.now way.now }
    requires steady { IsSteady (world images.old) task.now }
    requires area { area.now ≡ cost.area (world images.old) (drawing_of task.now) }
    requires some { is_empty area.now ≡ false }
    requires pixels { length pixels.old ≡ height area.now * width area.now }
    ensures world { world images.new ≡ after_draw (world images.old) (drawing_of task.now) }
    ensures numbers { numbers images.new ≡ numbers images.old }
    ensures steps { steps.new ≤ steps.old + area_of area.now }
    ensures moment { moment images.new ≡ moment images.old }
    ensures writes { writes images.new + steps.old ≡ writes images.old + steps.new }
{
    let width = area.width();
    let height = area.height();
    let rows = (BAND / width.max(1)).max(1);
    let mut row = 0;
    while row < height {
        let end = row + rows.min(height - row);
        let points = ((end - row) * width) as usize;
        let band = rows_of(area, row, end);
        draw_band(images, task, way, &band, &mut pixels[..points], steps);
        row = end;
    }
}

/// Draws on the points of an area, with a place for their pixels.
pub fn draw<L: Ledger>(
    images: &mut Images,
    task: &Task,
    area: &Rect,
    pixels: &mut [u32],
    steps: &mut Steps<L>,
)
    requires live { IsTaskOf (world images.old) task.now }
    requires area { area.now ≡ cost.area (world images.old) (drawing_of task.now) }
    requires some { is_empty area.now ≡ false }
    requires room { area_of area.now ≤ length pixels.old }
    ensures world { world images.new ≡ after_draw (world images.old) (drawing_of task.now) }
    ensures numbers { numbers images.new ≡ numbers images.old }
    ensures steps { steps.new ≤ steps.old + area_of area.now }
    ensures moment { moment images.new ≡ moment images.old }
    ensures writes { writes images.new + steps.old ≡ writes images.old + steps.new }
{
    let points = (area.width() * area.height()) as usize;
    let pixels = &mut pixels[..points];
    let way = way_of(images, task);
    if is_steady(images, task) {
        draw_bands(images, task, &way, area, pixels, steps);
    } else {
        draw_by(images, task, &way, area, pixels, steps);
    }
}
