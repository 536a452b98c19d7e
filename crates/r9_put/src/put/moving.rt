//! Pixels that are moved within an image, where one plane keeps all of them.

ghost use Rattle.std.specs.Prelude.{◌≡◌, ◌+◌, ◌<◌, true, false, IfSome, IsTrue};
ghost use Rattle.std.specs.Int.Bits.{bit_and};
ghost use Rattle.r9_geom.specs.declared.Point.{Point as Spot};
ghost use Rattle.r9_geom.specs.Geometry.{area_of, carried, height, holds, is_empty, width, IsOrdered, IsRectNear};
ghost use Rattle.model_forest.specs.View.{is_bare};
ghost use Rattle.model_forest.specs.World.{image_at, IsLive};
ghost use Rattle.model_kept.specs.Keeping.{keeping, own};
ghost use Rattle.r9_locate.specs.locate.Forms.{forms_of};
ghost use Rattle.r9_locate.specs.locate.Table.{shape};
ghost use Rattle.r9_pixels.specs.Kept.{form_at, kept_at, writes};
ghost use Rattle.r9_put.specs.put.Moved.{IsKeptOn, IsShift};
ghost use Rattle.r9_put.specs.put.Written.{IsStored, IsWritten};
ghost use Rattle.r9_shown.specs.Shown as spec;

use r9_geom::{Point, Rect};
use r9_locate::locate::Lists;
use r9_marks::steps::Steps;
use r9_pixels::KeptPixels;
use r9_shown::{Block, Extent, block, block_of, cover_over};
use std::sync::ledger::Ledger;

// Where the planes of two images, or of one, keep the points of two blocks: those that pixels are put on, and those that they are
// made of.
#[derive(Clone, Copy)]
pub(crate) struct Shift {
    pub image: u32,
    pub at: Point,
    pub source: u32,
    pub from: Point,
}

fn is_all(size: Extent, most: Extent) -> bool
    ensures columns { result ≡ true → size.columns ≡ most.columns }
    ensures rows { result ≡ true → size.rows ≡ most.rows }
{
    if size.columns != most.columns {
        return false;
    }
    size.rows == most.rows
}

// Whether no window of an image stands on the points from one on, so many columns and rows.
fn is_bare_over(lists: &Lists, i: u32, at: Point, size: Extent) -> bool
    requires live { IsLive (shape lists.now) i }
    requires columns { 0 < size.columns }
    requires rows { 0 < size.rows }
    ensures { result ≡ true → (p : Spot) → IsTrue (holds (spec.block at size.columns size.rows) p) → is_bare (image_at (shape lists.now) i).windows p ≡ true }
{
    let cover = cover_over(&lists.get(i).windows, at, size);
    if !cover.bare {
        return false;
    }
    is_all(cover.extent, size)
}

// Where one image keeps the points of an image from one on, so many columns and rows.
fn keeper_of(lists: &Lists, i: u32, at: Point, size: Extent) -> Option<Block>
    requires live { IsLive (shape lists.now) i }
    requires columns { 0 < size.columns }
    requires rows { 0 < size.rows }
    requires inside { (p : Spot) → IsTrue (holds (spec.block at size.columns size.rows) p) → IsTrue (holds (image_at (shape lists.now) i).r p) }
    ensures live { IfSome result (λ kept. IsLive (shape lists.now) kept.image) }
    ensures kept { IfSome result (λ kept. (p : Spot) → IsTrue (holds (spec.block at size.columns size.rows) p) → keeping (shape lists.now) i p ≡ own kept.image (carried p at kept.at)) }
{
    let kept = block_of(lists, i, at, size);
    if is_all(kept.extent, size) {
        Some(kept)
    } else {
        None
    }
}

// Where the plane of one image keeps the points of an image from one on, so many columns and rows.
fn plane_of(lists: &Lists, i: u32, at: Point, size: Extent) -> Option<Block>
    requires live { IsLive (shape lists.now) i }
    requires columns { 0 < size.columns }
    requires rows { 0 < size.rows }
    requires inside { (p : Spot) → IsTrue (holds (spec.block at size.columns size.rows) p) → IsTrue (holds (image_at (shape lists.now) i).r p) }
    ensures { IfSome result (λ kept. IsKeptOn (shape lists.now) i at size kept.image kept.at) }
{
    let kept = keeper_of(lists, i, at, size)?;
    if lists.get(kept.image).standing.is_some() {
        return None;
    }
    Some(kept)
}

// Where planes keep the points of an image from one on, so many columns and rows, on which nothing stands, and those of another
// image from one on.
pub(crate) fn shift_of(
    lists: &Lists,
    i: u32,
    at: Point,
    source: u32,
    from: Point,
    size: Extent,
) -> Option<Shift>
    requires live { IsLive (shape lists.now) i }
    requires live_from { IsLive (shape lists.now) source }
    requires columns { 0 < size.columns }
    requires rows { 0 < size.rows }
    requires inside { (p : Spot) → IsTrue (holds (spec.block at size.columns size.rows) p) → IsTrue (holds (image_at (shape lists.now) i).r p) }
    requires inside_from { (p : Spot) → IsTrue (holds (spec.block from size.columns size.rows) p) → IsTrue (holds (image_at (shape lists.now) source).r p) }
    ensures { IfSome result (IsShift (shape lists.now) i at source from size) }
{
    if !is_bare_over(lists, i, at, size) {
        return None;
    }
    let to = plane_of(lists, i, at, size)?;
    let taken = plane_of(lists, source, from, size)?;
    Some(Shift {
        image: to.image,
        at: to.at,
        source: taken.image,
        from: taken.at,
    })
}

/// Moves pixels within an image: a rectangle takes these bits of what the image shows in the one of its size whose min stands at
/// `from`, at most one pixel for each point, where one plane keeps both and nothing stands on the first one. Otherwise nothing is
/// done, and it tells so.
pub fn move_area<L: Ledger>(
    lists: &Lists,
    pixels: &mut KeptPixels,
    i: u32,
    r: &Rect,
    from: Point,
    bits: u32,
    steps: &mut Steps<L>,
) -> bool
    requires live { IsLive (shape lists.now) i }
    requires near { IsRectNear r.now }
    requires ordered { IsOrdered r.now }
    requires some { is_empty r.now ≡ false }
    requires inside { (p : Spot) → IsTrue (holds r.now p) → IsTrue (holds (image_at (shape lists.now) i).r p) }
    requires inside_from { (p : Spot) → IsTrue (holds r.now p) → IsTrue (holds (image_at (shape lists.now) i).r (carried p r.now.min from)) }
    requires stored { IsStored (shape lists.now) pixels.old }
    requires forms { form_at pixels.old ≡ forms_of (shape lists.now) }
    ensures written { result ≡ true → IsWritten (shape lists.now) i (holds r.now) (λ p. bit_and (kept_at pixels.old (keeping (shape lists.now) i (carried p r.now.min from))) bits) pixels.old pixels.new }
    ensures steps { result ≡ true → steps.new ≡ steps.old + area_of r.now }
    ensures unmoved { result ≡ false → pixels.new ≡ pixels.old }
    ensures uncounted { result ≡ false → steps.new ≡ steps.old }
    ensures writes { writes pixels.new + steps.old ≡ writes pixels.old + steps.new }
{
    let size = Extent {
        columns: r.width() as usize,
        rows: r.height(),
    };
    match shift_of(lists, i, r.min, i, from, size) {
        Some(found) if found.image == found.source => {
            let there = block(found.at, size.columns, size.rows);
            pixels.move_whole(found.image, there, found.from, bits, steps);
            true
        }
        _ => false,
    }
}
