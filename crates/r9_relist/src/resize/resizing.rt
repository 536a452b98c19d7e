//! An image that stands nowhere gets another size.

ghost use Rattle.std.specs.Prelude.{◌≡◌, ◌≢◌, ◌+◌, ◌*◌, ◌<◌, ◌≤◌, ◌^◌, Some, IfOk, OnErr, OnOk};
ghost use Rattle.r9_geom.specs.declared.Point.{Point as Spot};
ghost use Rattle.r9_geom.specs.Geometry.{area_of, holds};
ghost use Rattle.model_pixel.specs.Channels as channels;
ghost use Rattle.r9_plane.specs.Pixels.{chan_of, pixel_at, rect_of};
ghost use Rattle.model_forest.specs.World.{image_at, IsForest};
ghost use Rattle.model_kept.specs.Keeping.{own, with_kept, Place};
ghost use Rattle.model_kept.specs.Restack.{with_own};
ghost use Rattle.model_exchanged.specs.resize.Resize as spec;
ghost use Rattle.model_exchanged.specs.resize.Resize.{after_resize, CanResize};
ghost use Rattle.r9_locate.specs.locate.Forms.{forms_of};
ghost use Rattle.r9_locate.specs.locate.Table.{made, shape};
ghost use Rattle.r9_pixels.specs.Kept.{form_at, has_place, kept_at, moment, spare_in, wanted_in, writes};
ghost use Rattle.r9_pixels.specs.Places.{with_places, HasCells};
ghost use Rattle.r9_locate.specs.watched.Moments.{with_moment, IsFew};
ghost use Rattle.r9_locate.specs.watched.Watched.{count_of, moment_of};
ghost use Rattle.r9_relist.specs.resize.Sizes.{with_rects};

use super::framing::set_rects;
use super::moving::move_pixels;
use r9_geom::{Point, Rect};
use r9_locate::locate::Lists;
use r9_locate::watched::Watched;
use r9_marks::steps::Steps;
use r9_memory::Memory;
use r9_pixels::KeptPixels;
use r9_plane::Plane;
use std::alloc::Global;
use std::sync::ledger::Ledger;

// So many columns and rows from the point at 0.
fn sized(width: u32, height: u32) -> Rect
    ensures { result ≡ spec.sized width height }
{
    Rect {
        min: Point { x: 0, y: 0 },
        max: Point {
            x: i64::from(width),
            y: i64::from(height),
        },
    }
}

// Gives an image that stands nowhere the rectangle of a plane and that plane, for the one that it had, and makes room for the
// tiles of all cells of its windows that it hides then.
fn enter(
    alloc: Global,
    lists: &mut Lists,
    pixels: &mut KeptPixels,
    i: u32,
    watched: Watched,
) -> Result<Watched, Memory>
    requires can { CanResize (shape lists.old) i }
    requires before { IsForest (shape lists.old) }
    requires after { IsForest (with_rects (shape lists.old) i (rect_of watched.plane) (rect_of watched.plane)) }
    requires chan { chan_of watched.plane ≡ (image_at (shape lists.old) i).chan }
    requires forms { form_at pixels.old ≡ forms_of (shape lists.old) }
    requires few { IsFew (moment_of watched) (count_of watched) (writes pixels.old) }
    ensures lists { OnOk result (shape lists.new ≡ with_rects (shape lists.old) i (rect_of watched.plane) (rect_of watched.plane)) }
    ensures kept { OnOk result (kept_at pixels.new ≡ with_own i (pixel_at watched.plane) (kept_at pixels.old)) }
    ensures has { OnOk result (has_place pixels.new ≡ with_places i (holds (rect_of watched.plane)) (has_place pixels.old)) }
    ensures spare { OnOk result (wanted_in pixels.new (shape lists.new) i (image_at (shape lists.new) i).windows ≤ spare_in pixels.new) }
    ensures rect { IfOk result (λ had. rect_of had.plane ≡ (image_at (shape lists.old) i).r) }
    ensures had_chan { IfOk result (λ had. chan_of had.plane ≡ (image_at (shape lists.old) i).chan) }
    ensures had { IfOk result (λ had. (q : Spot) → kept_at pixels.old (own i q) ≡ pixel_at had.plane q) }
    ensures lists_err { OnErr result (shape lists.new ≡ shape lists.old) }
    ensures kept_err { OnErr result (kept_at pixels.new ≡ kept_at pixels.old) }
    ensures has_err { OnErr result ((place : Place) → place.image ≢ i → has_place pixels.new place ≡ has_place pixels.old place) }
    ensures made { made lists.new ≡ made lists.old }
    ensures forms { form_at pixels.new ≡ forms_of (shape lists.new) }
    ensures moment { OnOk result (moment pixels.new ≡ with_moment i (Some (moment_of watched)) (moment pixels.old)) }
    ensures had_moment { IfOk result (λ had. moment pixels.old i ≡ Some (moment_of had)) }
    ensures had_few { IfOk result (λ had. IsFew (moment_of had) (count_of had) (writes pixels.old)) }
    ensures moment_err { OnErr result (moment pixels.new ≡ moment pixels.old) }
    ensures writes { writes pixels.new ≡ writes pixels.old }
{
    let frame = lists.get(i);
    let (from, clipr) = (frame.r, frame.clipr);
    let to = watched.plane.rect();
    set_rects(alloc, lists, i, to, to);
    let had = pixels.replace_whole(i, watched);
    match pixels.reserve_hidden(lists, i, &lists.get(i).windows, 0, &[]) {
        Ok(()) => Ok(had),
        Err(memory) => {
            set_rects(alloc, lists, i, from, clipr);
            let _ = pixels.replace_whole(i, had);
            Err(memory)
        }
    }
}

/// Gives an image that stands nowhere another size while its windows stay where they stand. Points that it had keep their
/// pixels, and each other one has a raw pixel. Memory is taken, for a plane and for the tiles of what it shows no more, before
/// any pixel is written. At most two pixels are written for each point that it had, and two for each that it has then: all of
/// these, so that each cell is marked.
pub fn resize<L: Ledger>(
    alloc: Global,
    lists: &mut Lists,
    pixels: &mut KeptPixels,
    i: u32,
    width: u32,
    height: u32,
    raw: u32,
    steps: &mut Steps<L>,
) -> Result<(), Memory>
    requires can { CanResize (shape lists.old) i }
    requires raw { raw < 2 ^ channels.depth (image_at (shape lists.old) i).chan }
    requires before { IsForest (shape lists.old) }
    requires forms { form_at pixels.old ≡ forms_of (shape lists.old) }
    requires cells { HasCells (shape lists.old) (has_place pixels.old) }
    ensures lists { OnOk result (shape lists.new ≡ with_rects (shape lists.old) i (spec.sized width height) (spec.sized width height)) }
    ensures world { OnOk result (with_kept (shape lists.new) (kept_at pixels.new) ≡ after_resize (with_kept (shape lists.old) (kept_at pixels.old)) i width height raw) }
    ensures lists_err { OnErr result (shape lists.new ≡ shape lists.old) }
    ensures kept_err { OnErr result (kept_at pixels.new ≡ kept_at pixels.old) }
    ensures made { made lists.new ≡ made lists.old }
    ensures cells { HasCells (shape lists.new) (has_place pixels.new) }
    ensures forms { form_at pixels.new ≡ forms_of (shape lists.new) }
    ensures steps { steps.new ≤ steps.old + 2 * area_of (image_at (shape lists.old) i).r + 2 * (width * height) }
    ensures uncounted { OnErr result (steps.new ≡ steps.old) }
    ensures moment { moment pixels.new ≡ moment pixels.old }
    ensures writes { writes pixels.new + steps.old ≡ writes pixels.old + steps.new }
{
    let chan = lists.get(i).chan;
    let plane = Plane::new(alloc, sized(width, height), chan, raw)?;
    let watched = pixels.watch(plane);
    let had = enter(alloc, lists, pixels, i, watched)?;
    pixels.take_hidden(lists, i, &lists.get(i).windows, 0, &[]);
    let had = pixels.resume(i, had, raw, steps);
    move_pixels(lists, pixels, &had, i, steps);
    pixels.give_shown(lists, i, &lists.get(i).windows, 0, &[]);
    Ok(())
}
