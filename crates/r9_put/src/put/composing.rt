//! Pixels of one image that are composed onto those of another, where planes keep all of them.

ghost use Rattle.std.specs.Prelude.{◌≡◌, ◌≢◌, ◌+◌, ◌<◌, true, false, IfSome, IsTrue};
ghost use Rattle.r9_geom.specs.declared.Point.{Point as Spot};
ghost use Rattle.r9_geom.specs.Geometry.{area_of, carried, holds, is_empty, IsOrdered, IsRectNear};
ghost use Rattle.model_pixel.specs.Channels as channels;
ghost use Rattle.model_forest.specs.World.{image_at, IsLive};
ghost use Rattle.model_kept.specs.Keeping.{keeping};
ghost use Rattle.r9_kern.specs.Over.{over_of};
ghost use Rattle.r9_locate.specs.locate.Forms.{forms_of};
ghost use Rattle.r9_locate.specs.locate.Table.{shape};
ghost use Rattle.r9_pixels.specs.Kept.{form_at, kept_at, writes};
ghost use Rattle.r9_put.specs.put.Moved.{IsShift};
ghost use Rattle.r9_put.specs.put.Written.{IsStored, IsWritten};
ghost use Rattle.r9_shown.specs.Shown as spec;

use super::moving::{Shift, shift_of};
use r9_geom::{Point, Rect};
use r9_kern::Over;
use r9_locate::locate::Lists;
use r9_marks::steps::Steps;
use r9_pixels::KeptPixels;
use r9_shown::{Extent, block};
use std::sync::ledger::Ledger;

// Whether the pixels of an image have 32 bits.
fn is_deep(lists: &Lists, i: u32) -> bool
    requires { IsLive (shape lists.now) i }
    ensures { result ≡ true → channels.depth (image_at (shape lists.now) i).chan ≡ 32 }
{
    lists.get(i).chan.depth() == 32
}

// Where two planes of 32 bits keep the points of an image from one on, so many columns and rows, on which nothing stands, and those
// of another image from one on.
fn planes_of(
    lists: &Lists,
    i: u32,
    at: Point,
    source: u32,
    from: Point,
    size: Extent,
) -> Option<Shift>
    requires live { IsLive (shape lists.now) i }
    requires live_from { IsLive (shape lists.now) source }
    requires columns { 0 < size.columns }
    requires rows { 0 < size.rows }
    requires inside { (p : Spot) → IsTrue (holds (spec.block at size.columns size.rows) p) → IsTrue (holds (image_at (shape lists.now) i).r p) }
    requires inside_from { (p : Spot) → IsTrue (holds (spec.block from size.columns size.rows) p) → IsTrue (holds (image_at (shape lists.now) source).r p) }
    ensures found { IfSome result (IsShift (shape lists.now) i at source from size) }
    ensures apart { IfSome result (λ found. found.image ≢ found.source) }
    ensures depth { IfSome result (λ found. channels.depth (image_at (shape lists.now) i).chan ≡ 32) }
    ensures depth_from { IfSome result (λ found. channels.depth (image_at (shape lists.now) source).chan ≡ 32) }
{
    if !is_deep(lists, i) {
        return None;
    }
    if !is_deep(lists, source) {
        return None;
    }
    let found = shift_of(lists, i, at, source, from, size)?;
    if found.image == found.source {
        return None;
    }
    Some(found)
}

/// Composes what one image shows onto a rectangle of another by SoverD through a full mask, where the source's point `from` stands
/// at the rectangle's min, at most one pixel for each point, where two planes of 32 bits keep them and nothing stands on the
/// rectangle. Otherwise nothing is done, and it tells so.
pub fn compose_area<L: Ledger>(
    lists: &Lists,
    pixels: &mut KeptPixels,
    i: u32,
    r: &Rect,
    source: u32,
    from: Point,
    over: Over,
    steps: &mut Steps<L>,
) -> bool
    requires live { IsLive (shape lists.now) i }
    requires live_from { IsLive (shape lists.now) source }
    requires near { IsRectNear r.now }
    requires ordered { IsOrdered r.now }
    requires some { is_empty r.now ≡ false }
    requires inside { (p : Spot) → IsTrue (holds r.now p) → IsTrue (holds (image_at (shape lists.now) i).r p) }
    requires inside_from { (p : Spot) → IsTrue (holds r.now p) → IsTrue (holds (image_at (shape lists.now) source).r (carried p r.now.min from)) }
    requires stored { IsStored (shape lists.now) pixels.old }
    requires forms { form_at pixels.old ≡ forms_of (shape lists.now) }
    ensures written { result ≡ true → IsWritten (shape lists.now) i (holds r.now) (λ p. over_of over (kept_at pixels.old (keeping (shape lists.now) source (carried p r.now.min from))) (kept_at pixels.old (keeping (shape lists.now) i p))) pixels.old pixels.new }
    ensures depth { result ≡ true → channels.depth (image_at (shape lists.now) i).chan ≡ 32 }
    ensures steps { result ≡ true → steps.new ≡ steps.old + area_of r.now }
    ensures unmoved { result ≡ false → pixels.new ≡ pixels.old }
    ensures uncounted { result ≡ false → steps.new ≡ steps.old }
    ensures writes { writes pixels.new + steps.old ≡ writes pixels.old + steps.new }
{
    let size = Extent {
        columns: r.width() as usize,
        rows: r.height(),
    };
    match planes_of(lists, i, r.min, source, from, size) {
        Some(found) => {
            let there = block(found.at, size.columns, size.rows);
            pixels.compose_whole(found.image, there, found.source, found.from, over, steps);
            true
        }
        None => false,
    }
}
