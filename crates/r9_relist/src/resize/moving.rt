//! Pixels moved when an image that stands nowhere got another rectangle.

ghost use Rattle.std.specs.Prelude.{◌≡◌, ◌≢◌, ◌+◌, ◌*◌, ◌<◌, ◌≤◌, ◌^◌, ℕ, Bool, None, true, length, IsTrue};
ghost use Rattle.r9_geom.specs.declared.Point.{Point as Spot};
ghost use Rattle.r9_geom.specs.Geometry.{area_of, holds, strip, IsNear, IsOrdered, IsRectNear};
ghost use Rattle.r9_plane.specs.Pixels.{along, chan_of, pixel_at, rect_of};
ghost use Rattle.model_forest.specs.View.{top_window};
ghost use Rattle.model_forest.specs.World.{image_at, parent_of, IsForest, IsLive};
ghost use Rattle.model_kept.specs.Keeping.{own, Place};
ghost use Rattle.r9_locate.specs.locate.Forms.{forms_of};
ghost use Rattle.r9_locate.specs.locate.Table.{shape};
ghost use Rattle.r9_pixels.specs.Kept.{form_at, has_place, kept_at, moment, writes};
ghost use Rattle.r9_restack.specs.Moving.{more, IsFresh};
ghost use Rattle.r9_relist.specs.resize.Moves.{HasPlacesFor, IsMovedFor, IsResized};

use crate::relist::common;
use r9_geom::{Point, Rect};
use r9_locate::locate::{Lists, Pixels, along, inward, steady, steady_top, top};
use r9_marks::steps::Steps;
use r9_pixels::KeptPixels;
use r9_plane::Plane;
use std::sync::ledger::Ledger;

// How many pixels of a row are moved at a time.
const BLOCK: usize = 256;

// Moves the pixels of points side by side over which the same window is topmost, and that the image had and has alike.
fn move_part<L: Ledger>(
    lists: &Lists,
    pixels: &mut KeptPixels,
    had: &Plane,
    i: u32,
    q: Point,
    raws: &mut [u32],
    steps: &mut Steps<L>,
)
    requires live { IsLive (shape lists.now) i }
    requires forest { IsForest (shape lists.now) }
    requires near { IsNear q }
    requires tops { (k : ℕ) → k < length raws.old → top_window (image_at (shape lists.now) i).windows (along q k) ≡ top_window (image_at (shape lists.now) i).windows q }
    requires before { (k : ℕ) → k < length raws.old → holds (rect_of had.now) (along q k) ≡ holds (rect_of had.now) q }
    requires here { (k : ℕ) → k < length raws.old → holds (image_at (shape lists.now) i).r (along q k) ≡ holds (image_at (shape lists.now) i).r q }
    requires forms { form_at pixels.old ≡ forms_of (shape lists.now) }
    requires chan { chan_of had.now ≡ (image_at (shape lists.now) i).chan }
    requires places { HasPlacesFor (shape lists.now) i (rect_of had.now) (has_place pixels.old) }
    ensures moved { (before : Place → ℕ) (done : Spot → Bool) → IsFresh q (length raws.old) done → IsMovedFor (shape lists.now) i (rect_of had.now) (pixel_at had.now) before (kept_at pixels.old) done → IsMovedFor (shape lists.now) i (rect_of had.now) (pixel_at had.now) before (kept_at pixels.new) (more q (length raws.old) done) }
    ensures has { has_place pixels.new ≡ has_place pixels.old }
    ensures forms { form_at pixels.new ≡ form_at pixels.old }
    ensures steps { steps.new ≤ steps.old + length raws.old }
    ensures moment { moment pixels.new ≡ moment pixels.old }
    ensures writes { writes pixels.new + steps.old ≡ writes pixels.old + steps.new }
{
    let frame = lists.get(i);
    let Some(v) = top(&frame.windows, q) else {
        return;
    };
    let x = inward(lists, &v, q);
    if had.rect().holds(q) {
        if !frame.r.holds(q) {
            had.get_row(q, raws);
            pixels.write(v.image, x, raws, steps);
        }
    } else if frame.r.holds(q) {
        pixels.read(v.image, x, raws);
        pixels.write(i, q, raws, steps);
    }
}

// The same of a row.
fn move_row<L: Ledger>(
    lists: &Lists,
    pixels: &mut KeptPixels,
    had: &Plane,
    i: u32,
    at: Point,
    n: usize,
    steps: &mut Steps<L>,
)
    requires live { IsLive (shape lists.now) i }
    requires forest { IsForest (shape lists.now) }
    requires start { IsNear at }
    requires near { (z : Spot) → IsTrue (holds (strip at n) z) → IsNear z }
    requires width { n ≤ 2 ^ 41 }
    requires forms { form_at pixels.old ≡ forms_of (shape lists.now) }
    requires chan { chan_of had.now ≡ (image_at (shape lists.now) i).chan }
    requires places { HasPlacesFor (shape lists.now) i (rect_of had.now) (has_place pixels.old) }
    ensures moved { (before : Place → ℕ) (done : Spot → Bool) → IsFresh at n done → IsMovedFor (shape lists.now) i (rect_of had.now) (pixel_at had.now) before (kept_at pixels.old) done → IsMovedFor (shape lists.now) i (rect_of had.now) (pixel_at had.now) before (kept_at pixels.new) (more at n done) }
    ensures has { has_place pixels.new ≡ has_place pixels.old }
    ensures forms { form_at pixels.new ≡ form_at pixels.old }
    ensures steps { steps.new ≤ steps.old + n }
    ensures moment { moment pixels.new ≡ moment pixels.old }
    ensures writes { writes pixels.new + steps.old ≡ writes pixels.old + steps.new }
{
    let mut block = [0; BLOCK];
    let frame = lists.get(i);
    let from = had.rect();
    let mut done = 0;
    while done < n {
        let q = along(at, done);
        let alike = steady(&from, q, steady(&frame.r, q, (n - done).min(BLOCK)));
        let len = steady_top(&frame.windows, q, alike);
        move_part(lists, pixels, had, i, q, &mut block[..len], steps);
        done += len;
    }
}

// The same of the rows of an area.
fn move_area<L: Ledger>(
    lists: &Lists,
    pixels: &mut KeptPixels,
    had: &Plane,
    i: u32,
    area: &Rect,
    steps: &mut Steps<L>,
)
    requires live { IsLive (shape lists.now) i }
    requires forest { IsForest (shape lists.now) }
    requires near { IsRectNear area.now }
    requires ordered { IsOrdered area.now }
    requires forms { form_at pixels.old ≡ forms_of (shape lists.now) }
    requires chan { chan_of had.now ≡ (image_at (shape lists.now) i).chan }
    requires places { HasPlacesFor (shape lists.now) i (rect_of had.now) (has_place pixels.old) }
    ensures moved { IsMovedFor (shape lists.now) i (rect_of had.now) (pixel_at had.now) (kept_at pixels.old) (kept_at pixels.new) (holds area.now) }
    ensures has { has_place pixels.new ≡ has_place pixels.old }
    ensures forms { form_at pixels.new ≡ form_at pixels.old }
    ensures steps { steps.new ≤ steps.old + area_of area.now }
    ensures moment { moment pixels.new ≡ moment pixels.old }
    ensures writes { writes pixels.new + steps.old ≡ writes pixels.old + steps.new }
{
    let width = area.width() as usize;
    for row in 0..area.height() {
        move_row(lists, pixels, had, i, area.point_at(0, row), width, steps);
    }
}

/// Puts the pixels where they are kept once an image that stands nowhere got another rectangle and a plane of that: what it had
/// of them on its plane before, or its windows in their tiles.
pub(crate) fn move_pixels<L: Ledger>(
    lists: &Lists,
    pixels: &mut KeptPixels,
    had: &Plane,
    i: u32,
    steps: &mut Steps<L>,
)
    requires live { IsLive (shape lists.now) i }
    requires nowhere { parent_of (shape lists.now) i ≡ None }
    requires forest { IsForest (shape lists.now) }
    requires forms { form_at pixels.old ≡ forms_of (shape lists.now) }
    requires chan { chan_of had.now ≡ (image_at (shape lists.now) i).chan }
    requires places { HasPlacesFor (shape lists.now) i (rect_of had.now) (has_place pixels.old) }
    ensures resized { (before : Place → ℕ) (raw : ℕ) → ((q : Spot) → holds (image_at (shape lists.now) i).r q ≡ true → kept_at pixels.old (own i q) ≡ raw) → ((q : Spot) → before (own i q) ≡ pixel_at had.now q) → ((place : Place) → place.image ≢ i → kept_at pixels.old place ≡ before place) → IsResized (shape lists.now) i (rect_of had.now) raw before (kept_at pixels.new) }
    ensures has { has_place pixels.new ≡ has_place pixels.old }
    ensures forms { form_at pixels.new ≡ form_at pixels.old }
    ensures steps { steps.new ≤ steps.old + 2 * area_of (rect_of had.now) + area_of (image_at (shape lists.now) i).r }
    ensures moment { moment pixels.new ≡ moment pixels.old }
    ensures writes { writes pixels.new + steps.old ≡ writes pixels.old + steps.new }
{
    let from = had.rect();
    let to = lists.get(i).r;
    pixels.copy_whole(i, common(&from, &to), had, steps);
    move_area(lists, pixels, had, i, &from, steps);
    move_area(lists, pixels, had, i, &to, steps);
}
