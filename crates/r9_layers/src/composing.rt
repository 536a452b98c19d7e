//! How the pixels of a row are composed, from what a drawing is told once of its images.

ghost use Rattle.std.specs.Prelude.{◌≡◌, ◌+◌, ◌*◌, ◌^◌, ◌<◌, ◌≤◌, ℕ, true, length, slice_index, IfSome, IsTrue};
ghost use Rattle.r9_geom.specs.declared.Point.{Point as Spot};
ghost use Rattle.r9_geom.specs.Geometry.{carried, height, holds, point_at, strip, width, IsNear, IsNearBy, IsOrdered, IsRectNearBy};
ghost use Rattle.r9_plane.specs.Pixels.{along};
ghost use Rattle.model_pixel.specs.Channels as channels;
ghost use Rattle.model_forest.specs.Draw.{drawn, in_area, reaches};
ghost use Rattle.model_forest.specs.View as model;
ghost use Rattle.model_forest.specs.View.{is_bare};
ghost use Rattle.model_forest.specs.World.{image_at, IsLive};
ghost use Rattle.r9_forest.specs.Images.{world};
ghost use Rattle.r9_layers.specs.Apart.{IsApart};
ghost use Rattle.r9_layers.specs.Area.{drawing_of, drawn_on, mask_at, mask_chan, IsTaskOf};
ghost use Rattle.r9_layers.specs.Way.{AreMasksOf, IsChansOf, IsPlain, IsSingleOf, IsTint, IsWayOf};

use super::task::Task;
use r9_chan::Chan;
use r9_forest::Images;
use r9_geom::{Point, Rect};
use r9_locate::lists::carried_rect;
use r9_locate::locate::along;
use r9_mem::{Through, compose};

// How many pixels of a row are composed at a time.
const BLOCK: usize = 256;

// The word of `k8`, the channels of a full mask.
const FULL_CHAN: u32 = 0x38;

// The raw pixel that a full mask has everywhere.
const FULL: u32 = 255;

/// The channels of target, source and mask.
#[derive(Clone, Copy)]
pub struct Chans {
    pub dst: Chan,
    pub src: Chan,
    pub mask: Chan,
}

/// What a drawing goes through.
#[derive(Clone, Copy)]
pub enum Masks {
    /// One mask pixel.
    Single(Through),
    /// The pixels of an image.
    Image(Chans),
}

/// What a drawing is told once of its images.
#[derive(Clone, Copy)]
pub struct Way {
    pub masks: Masks,
    /// Whether the source stands nowhere and does not repeat, so that its plane has what it gives.
    pub plain: bool,
    /// The one pixel that the source gives everywhere, where it is another image than the target.
    pub tint: Option<u32>,
}

// Reads what an image gives side by side, from a point to the right.
fn read_from(images: &Images, i: u32, plain: bool, from: Point, raws: &mut [u32])
    requires live { IsLive (world images.now) i }
    requires plain { plain ≡ true → IsPlain (world images.now) i }
    requires near { IsNearBy (2 ^ 41) from }
    requires width { length raws.old ≤ 2 ^ 41 }
    requires inside { (p : Spot) → IsTrue (holds (strip from (length raws.old)) p) → IsTrue (reaches (image_at (world images.now) i) p) }
    ensures { (k : ℕ) → k < length raws.old → slice_index raws.new k ≡ model.at (world images.now) i (along from k) }
{
    if plain {
        images.plane(i).get_row(from, raws);
    } else {
        images.read_row(i, from, raws);
    }
}

// Reads what an image gives side by side where its point `start` stands at `corner`, from `at` to the right.
fn read_at(
    images: &Images,
    i: u32,
    plain: bool,
    at: Point,
    corner: Point,
    start: Point,
    raws: &mut [u32],
)
    requires live { IsLive (world images.now) i }
    requires plain { plain ≡ true → IsPlain (world images.now) i }
    requires near { IsNear at }
    requires corner { IsNearBy (2 ^ 34) corner }
    requires start { IsNearBy (2 ^ 34) start }
    requires width { length raws.old ≤ 2 ^ 41 }
    requires inside { (p : Spot) → IsTrue (holds (strip at (length raws.old)) p) → IsTrue (reaches (image_at (world images.now) i) (carried p corner start)) }
    ensures { (k : ℕ) → k < length raws.old → slice_index raws.new k ≡ model.at (world images.now) i (carried (along at k) corner start) }
{
    read_from(images, i, plain, at.carried(corner, start), raws);
}

// The channels of a full mask.
#[tactic(auto, unfolding(model_pixel::specs::Channels::channels))]
fn full_chan() -> Chan
    ensures { result ≡ 0x38 }
{
    match Chan::from_word(FULL_CHAN) {
        Ok(chan) => chan,
        Err(_) => unreachable!(),
    }
}

/// The channels of the mask.
pub(crate) fn chan_of_mask(images: &Images, mask: Option<u32>) -> Chan
    requires { IfSome mask (IsLive (world images.now)) }
    ensures { result ≡ mask_chan (world images.now) mask }
{
    match mask {
        Some(i) => images.info(i).chan,
        None => full_chan(),
    }
}

/// The one pixel that the mask has everywhere, where it is full or repeats a single one.
pub(crate) fn single_mask(images: &Images, task: &Task) -> Option<u32>
    requires { IsTaskOf (world images.now) task.now }
    ensures { IfSome result (λ raw. (p : Spot) → mask_at (world images.now) task.now p ≡ raw) }
{
    match task.mask {
        Some(i) => images.single(i),
        None => Some(FULL),
    }
}

// What a drawing goes through.
fn masks_of(images: &Images, task: &Task) -> Masks
    requires { IsTaskOf (world images.now) task.now }
    ensures { AreMasksOf (world images.now) task.now result }
{
    let dst = images.info(task.dst).chan;
    let src = images.info(task.src).chan;
    let mask = chan_of_mask(images, task.mask);
    match single_mask(images, task) {
        Some(m) => Masks::Single(Through::of(dst, src, mask, task.op, m)),
        None => Masks::Image(Chans { dst, src, mask }),
    }
}

// Whether an image stands nowhere and does not repeat.
fn is_plain(images: &Images, i: u32) -> bool
    requires { IsLive (world images.now) i }
    ensures { result ≡ true → IsPlain (world images.now) i }
{
    let info = images.info(i);
    if info.parent.is_some() {
        return false;
    }
    !info.repl
}

/// Whether what image i gives stays as it is whatever is drawn on image `dst`.
pub(crate) fn is_apart(images: &Images, i: u32, dst: u32) -> bool
    requires { IsLive (world images.now) i }
    ensures { result ≡ true → IsApart (world images.now) dst i }
{
    let info = images.info(i);
    if i == dst {
        return false;
    }
    info.windows == 0
}

// The one pixel that the source gives everywhere, where it is another image than the target.
fn tint_of(images: &Images, task: &Task) -> Option<u32>
    requires { IsTaskOf (world images.now) task.now }
    ensures { IfSome result (IsTint (world images.now) task.now) }
{
    if is_apart(images, task.src, task.dst) {
        images.single(task.src)
    } else {
        None
    }
}

/// What a drawing is told once.
pub(crate) fn way_of(images: &Images, task: &Task) -> Way
    requires { IsTaskOf (world images.now) task.now }
    ensures { IsWayOf (world images.now) task.now result }
{
    Way {
        masks: masks_of(images, task),
        plain: is_plain(images, task.src),
        tint: tint_of(images, task),
    }
}

// What a drawing goes through, where the source alone decides what the points get.
fn moved(masks: &Masks) -> Option<Through>
    ensures { IfSome result (λ through. (through.moved ≡ true) × (masks.now ≡ Masks.Single through)) }
{
    match masks {
        Masks::Single(through) => {
            if through.is_moved() {
                Some(*through)
            } else {
                None
            }
        }
        Masks::Image(_) => None,
    }
}

// Reads what the mask has over points of the area side by side, from `at` to the right.
fn read_masks(images: &Images, task: &Task, at: Point, masks: &mut [u32])
    requires live { IsTaskOf (world images.now) task.now }
    requires near { IsNear at }
    requires width { length masks.old ≤ 2 ^ 41 }
    requires inside { (p : Spot) → IsTrue (holds (strip at (length masks.old)) p) → IsTrue (in_area (world images.now) (drawing_of task.now) p) }
    ensures { (k : ℕ) → k < length masks.old → slice_index masks.new k ≡ mask_at (world images.now) task.now (along at k) }
{
    match task.mask {
        Some(i) => read_at(images, i, false, at, task.r.min, task.mp, masks),
        None => masks.fill(FULL),
    }
}

// The pixels that at most a block of points side by side get through a mask image, from `at` to the right. `row` has their own.
fn compose_masked(
    images: &Images,
    task: &Task,
    chans: &Chans,
    at: Point,
    row: &mut [u32],
    sources: &[u32],
)
    requires live { IsTaskOf (world images.now) task.now }
    requires chans { IsChansOf (world images.now) task.now chans.now }
    requires near { IsNear at }
    requires few { length row.old ≤ 256 }
    requires inside { (p : Spot) → IsTrue (holds (strip at (length row.old)) p) → IsTrue (in_area (world images.now) (drawing_of task.now) p) }
    requires sources { length sources.now ≡ length row.old }
    requires source { (k : ℕ) → k < length row.old → slice_index sources.now k ≡ model.at (world images.now) task.now.src (carried (along at k) task.now.r.min task.now.sp) }
    ensures { (k : ℕ) → k < length row.old → slice_index row.new k ≡ drawn_on (world images.now) task.now (along at k) (slice_index row.old k) }
{
    let len = row.len();
    let mut masks = [0; BLOCK];
    read_masks(images, task, at, &mut masks[..len]);
    compose(
        chans.dst,
        chans.src,
        chans.mask,
        task.op,
        row,
        sources,
        &masks[..len],
    );
}

// The pixels that at most a block of points side by side get, from `at` to the right. `row` has their own.
fn compose_block(images: &Images, task: &Task, way: &Way, at: Point, row: &mut [u32])
    requires live { IsTaskOf (world images.now) task.now }
    requires way { IsWayOf (world images.now) task.now way.now }
    requires near { IsNear at }
    requires few { length row.old ≤ 256 }
    requires inside { (p : Spot) → IsTrue (holds (strip at (length row.old)) p) → IsTrue (in_area (world images.now) (drawing_of task.now) p) }
    ensures { (k : ℕ) → k < length row.old → slice_index row.new k ≡ drawn_on (world images.now) task.now (along at k) (slice_index row.old k) }
{
    let len = row.len();
    let mut sources = [0; BLOCK];
    let corner = task.r.min;
    read_at(
        images,
        task.src,
        way.plain,
        at,
        corner,
        task.sp,
        &mut sources[..len],
    );
    match &way.masks {
        Masks::Single(through) => through.compose(row, &sources[..len]),
        Masks::Image(chans) => compose_masked(images, task, chans, at, row, &sources[..len]),
    }
}

// The same of any number of points, block by block.
fn compose_blocks(images: &Images, task: &Task, way: &Way, at: Point, row: &mut [u32])
    requires live { IsTaskOf (world images.now) task.now }
    requires way { IsWayOf (world images.now) task.now way.now }
    requires near { IsNear at }
    requires width { length row.old ≤ 2 ^ 41 }
    requires inside { (p : Spot) → IsTrue (holds (strip at (length row.old)) p) → IsTrue (in_area (world images.now) (drawing_of task.now) p) }
    ensures { (k : ℕ) → k < length row.old → slice_index row.new k ≡ drawn_on (world images.now) task.now (along at k) (slice_index row.old k) }
{
    let mut done = 0;
    while done < row.len() {
        let end = done + (row.len() - done).min(BLOCK);
        compose_block(images, task, way, along(at, done), &mut row[done..end]);
        done = end;
    }
}

// The pixels that the points of a rectangle of the area get, row by row, where the source alone decides.
fn move_area(images: &Images, task: &Task, through: &Through, area: &Rect, pixels: &mut [u32])
    requires live { IsTaskOf (world images.now) task.now }
    requires single { IsSingleOf (world images.now) task.now through.now }
    requires moved { through.now.moved ≡ true }
    requires near { IsRectNearBy (2 ^ 34) area.now }
    requires ordered { IsOrdered area.now }
    requires inside { (p : Spot) → IsTrue (holds area.now p) → IsTrue (in_area (world images.now) (drawing_of task.now) p) }
    requires pixels { length pixels.old ≡ height area.now * width area.now }
    ensures { (column row own : ℕ) → column < width area.now → row < height area.now → slice_index pixels.new (row * width area.now + column) ≡ drawn_on (world images.now) task.now (point_at area.now column row) own }
{
    let from = carried_rect(area, task.r.min, task.sp);
    images.read_area(task.src, &from, pixels);
    through.change(pixels);
}

// The same of pixels that are composed with those of the target, which `pixels` has.
fn compose_rows(images: &Images, task: &Task, way: &Way, area: &Rect, pixels: &mut [u32])
    requires live { IsTaskOf (world images.now) task.now }
    requires way { IsWayOf (world images.now) task.now way.now }
    requires near { IsRectNearBy (2 ^ 34) area.now }
    requires ordered { IsOrdered area.now }
    requires inside { (p : Spot) → IsTrue (holds area.now p) → IsTrue (in_area (world images.now) (drawing_of task.now) p) }
    requires pixels { length pixels.old ≡ height area.now * width area.now }
    ensures { (column row : ℕ) → column < width area.now → row < height area.now → slice_index pixels.new (row * width area.now + column) ≡ drawn_on (world images.now) task.now (point_at area.now column row) (slice_index pixels.old (row * width area.now + column)) }
{
    let width = area.width() as usize;
    for row in 0..area.height() {
        let start = row as usize * width;
        let pixels = &mut pixels[start..start + width];
        compose_blocks(images, task, way, area.point_at(0, row), pixels);
    }
}

// The same where the source and the mask may be one pixel each.
fn compose_points(images: &Images, task: &Task, way: &Way, area: &Rect, pixels: &mut [u32])
    requires live { IsTaskOf (world images.now) task.now }
    requires way { IsWayOf (world images.now) task.now way.now }
    requires near { IsRectNearBy (2 ^ 34) area.now }
    requires ordered { IsOrdered area.now }
    requires inside { (p : Spot) → IsTrue (holds area.now p) → IsTrue (in_area (world images.now) (drawing_of task.now) p) }
    requires pixels { length pixels.old ≡ height area.now * width area.now }
    ensures { (column row : ℕ) → column < width area.now → row < height area.now → slice_index pixels.new (row * width area.now + column) ≡ drawn_on (world images.now) task.now (point_at area.now column row) (slice_index pixels.old (row * width area.now + column)) }
{
    match (way.tint, &way.masks) {
        (Some(raw), Masks::Single(through)) => through.fill(pixels, raw),
        _ => compose_rows(images, task, way, area, pixels),
    }
}

/// The pixels that the points of a rectangle of the area get, row by row. Where a window stands, it is any pixel.
pub(crate) fn compose_area(images: &Images, task: &Task, way: &Way, area: &Rect, pixels: &mut [u32])
    requires live { IsTaskOf (world images.now) task.now }
    requires way { IsWayOf (world images.now) task.now way.now }
    requires near { IsRectNearBy (2 ^ 34) area.now }
    requires ordered { IsOrdered area.now }
    requires inside { (p : Spot) → IsTrue (holds area.now p) → IsTrue (in_area (world images.now) (drawing_of task.now) p) }
    requires pixels { length pixels.old ≡ height area.now * width area.now }
    ensures raws { (column row : ℕ) → column < width area.now → row < height area.now → is_bare (image_at (world images.now) task.now.dst).windows (point_at area.now column row) ≡ true → slice_index pixels.new (row * width area.now + column) ≡ drawn (world images.now) (drawing_of task.now) (point_at area.now column row) }
    ensures range { (column row : ℕ) → column < width area.now → row < height area.now → slice_index pixels.new (row * width area.now + column) < 2 ^ channels.depth (image_at (world images.now) task.now.dst).chan }
{
    images.keeps();
    match moved(&way.masks) {
        Some(through) => move_area(images, task, &through, area, pixels),
        None => {
            images.read_bare_area(task.dst, area, pixels);
            compose_points(images, task, way, area, pixels);
        }
    }
}
