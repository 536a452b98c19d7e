//! The planes of images that stand nowhere.

ghost use Rattle.std.specs.Prelude.{◌≡◌, ◌≢◌, ◌+◌, ◌*◌, ◌<◌, true, false, Some, length, option_and_then, option_map, IsTrue};
ghost use Rattle.std.specs.Int.Bits.{bit_and};
ghost use Rattle.r9_geom.specs.declared.Point.{Point as Spot};
ghost use Rattle.r9_geom.specs.Geometry.{area_of, carried, height, holds, IsNear, IsOrdered, IsRectNear};
ghost use Rattle.model_pixel.specs.Rows.{row_bytes, row_pixel};
ghost use Rattle.r9_kern.specs.Over.{over_of};
ghost use Rattle.r9_plane.specs.Pixels.{chan_of, pixel_at, rect_of};
ghost use Rattle.model_kept.specs.Keeping.{own, Place};
ghost use Rattle.model_kept.specs.Restack.{with_own};
ghost use Rattle.r9_locate.specs.locate.Forms.{bits_in};
ghost use Rattle.r9_pixels.specs.Owns.{form_in, plane_form, plane_in};
ghost use Rattle.r9_pixels.specs.Places.{with_form, with_places};
ghost use Rattle.r9_locate.specs.watched.Moments.{with_moment, IsFew};
ghost use Rattle.r9_locate.specs.watched.Watched.{count_of, moment_of};

use super::counted::Area;
use super::keeping::KeptPixels;
use super::own::Own;
use r9_geom::{Point, Rect};
use r9_kern::Over;
use r9_locate::watched::Watched;
use r9_marks::steps::Steps;
use r9_plane::Plane;
use std::mem;
use std::sync::ledger::Ledger;

// The plane of a slot that has one.
fn plane_of(slot: &Option<Own>) -> &Plane
    requires { option_map (λ form. form.is_window) (option_map form_in slot.now) ≡ Some false }
    ensures { option_and_then plane_in slot.now ≡ Some result.now }
{
    match slot {
        Some(Own::Whole(watched)) => &watched.plane,
        _ => unreachable!(),
    }
}

impl KeptPixels {
    ghost use Rattle.r9_pixels.specs.Kept.{form_at, has_place, kept_at, moment, spare_in, writes};

    /// The plane of an image that stands nowhere.
    pub fn plane(&self, i: u32) -> &Plane
        requires { option_map (λ form. form.is_window) (form_at self.now i) ≡ Some false }
        ensures form { form_at self.now i ≡ Some (plane_form result.now) }
        ensures pixels { (p : Spot) → kept_at self.now (own i p) ≡ pixel_at result.now p }
    {
        plane_of(&self.owns[i as usize])
    }

    /// Takes the pixels of a rectangle of an image that stands nowhere from its rows (image(6)), a step for each.
    pub fn load_whole<L: Ledger>(&mut self, i: u32, r: Rect, rows: &[u8], steps: &mut Steps<L>)
        requires whole { option_map (λ form. form.is_window) (form_at self.old i) ≡ Some false }
        requires near { IsRectNear r }
        requires ordered { IsOrdered r }
        requires has { (p : Spot) → IsTrue (holds r p) → has_place self.old (own i p) ≡ true }
        requires rows { length rows.now ≡ row_bytes r (bits_in (form_at self.old) i) * height r }
        ensures at { (p : Spot) → IsTrue (holds r p) → kept_at self.new (own i p) ≡ row_pixel r (bits_in (form_at self.old) i) rows.now p }
        ensures others { (place : Place) → ((p : Spot) → IsTrue (holds r p) → place ≢ own i p) → kept_at self.new place ≡ kept_at self.old place }
        ensures has { has_place self.new ≡ has_place self.old }
        ensures forms { form_at self.new ≡ form_at self.old }
        ensures moment { moment self.new ≡ moment self.old }
        ensures steps { steps.new ≡ steps.old + area_of r }
        ensures writes { writes self.new + steps.old ≡ writes self.old + steps.new }
    {
        self.writes = self.writes.and(&Area(r));
        match &mut self.owns[i as usize] {
            Some(Own::Whole(watched)) => watched.load(r, rows, steps),
            _ => unreachable!(),
        }
    }

    /// Moves pixels of an image that stands nowhere: a rectangle takes these bits of those of the one of its size whose min stands
    /// at `from`, a step for each pixel. It takes no memory.
    pub fn move_whole<L: Ledger>(
        &mut self,
        i: u32,
        r: Rect,
        from: Point,
        bits: u32,
        steps: &mut Steps<L>,
    )
        requires whole { option_map (λ form. form.is_window) (form_at self.old i) ≡ Some false }
        requires near { IsRectNear r }
        requires ordered { IsOrdered r }
        requires near_from { IsNear from }
        requires has { (p : Spot) → IsTrue (holds r p) → has_place self.old (own i p) ≡ true }
        requires had { (p : Spot) → IsTrue (holds r p) → has_place self.old (own i (carried p r.min from)) ≡ true }
        ensures at { (p : Spot) → IsTrue (holds r p) → kept_at self.new (own i p) ≡ bit_and (kept_at self.old (own i (carried p r.min from))) bits }
        ensures others { (place : Place) → ((p : Spot) → IsTrue (holds r p) → place ≢ own i p) → kept_at self.new place ≡ kept_at self.old place }
        ensures has { has_place self.new ≡ has_place self.old }
        ensures forms { form_at self.new ≡ form_at self.old }
        ensures moment { moment self.new ≡ moment self.old }
        ensures steps { steps.new ≡ steps.old + area_of r }
        ensures writes { writes self.new + steps.old ≡ writes self.old + steps.new }
    {
        self.writes = self.writes.and(&Area(r));
        match &mut self.owns[i as usize] {
            Some(Own::Whole(watched)) => watched.move_kept(r, from, bits, steps),
            _ => unreachable!(),
        }
    }

    /// Composes pixels of one image onto those of a rectangle of another by SoverD through a full mask, where both stand nowhere and
    /// have pixels of 32 bits, and the source's point `from` stands at the rectangle's min, a step for each pixel. It takes no
    /// memory.
    pub fn compose_whole<L: Ledger>(
        &mut self,
        i: u32,
        r: Rect,
        other: u32,
        from: Point,
        over: Over,
        steps: &mut Steps<L>,
    )
        requires apart { i ≢ other }
        requires whole { option_map (λ form. form.is_window) (form_at self.old i) ≡ Some false }
        requires whole_from { option_map (λ form. form.is_window) (form_at self.old other) ≡ Some false }
        requires depth { bits_in (form_at self.old) i ≡ 32 }
        requires depth_from { bits_in (form_at self.old) other ≡ 32 }
        requires near { IsRectNear r }
        requires ordered { IsOrdered r }
        requires near_from { IsNear from }
        requires has { (p : Spot) → IsTrue (holds r p) → has_place self.old (own i p) ≡ true }
        requires had { (p : Spot) → IsTrue (holds r p) → has_place self.old (own other (carried p r.min from)) ≡ true }
        ensures at { (p : Spot) → IsTrue (holds r p) → kept_at self.new (own i p) ≡ over_of over (kept_at self.old (own other (carried p r.min from))) (kept_at self.old (own i p)) }
        ensures others { (place : Place) → ((p : Spot) → IsTrue (holds r p) → place ≢ own i p) → kept_at self.new place ≡ kept_at self.old place }
        ensures has { has_place self.new ≡ has_place self.old }
        ensures forms { form_at self.new ≡ form_at self.old }
        ensures moment { moment self.new ≡ moment self.old }
        ensures steps { steps.new ≡ steps.old + area_of r }
        ensures writes { writes self.new + steps.old ≡ writes self.old + steps.new }
    {
        self.writes = self.writes.and(&Area(r));
        let Some(Own::Whole(mut watched)) = mem::replace(&mut self.owns[i as usize], None) else {
            unreachable!()
        };
        let source = plane_of(&self.owns[other as usize]);
        watched.compose_over(r, source, from, over, steps);
        self.owns[i as usize] = Some(Own::Whole(watched));
    }

    /// Gives an image that stands nowhere another plane with a moment, for the one that it had. It takes no memory.
    pub fn replace_whole(&mut self, i: u32, watched: Watched) -> Watched
        requires whole { option_map (λ form. form.is_window) (form_at self.old i) ≡ Some false }
        requires few { IsFew (moment_of watched) (count_of watched) (writes self.old) }
        ensures form { form_at self.old i ≡ Some (plane_form result.plane) }
        ensures pixels { (p : Spot) → kept_at self.old (own i p) ≡ pixel_at result.plane p }
        ensures had_moment { moment self.old i ≡ Some (moment_of result) }
        ensures had_few { IsFew (moment_of result) (count_of result) (writes self.old) }
        ensures kept { kept_at self.new ≡ with_own i (pixel_at watched.plane) (kept_at self.old) }
        ensures has { has_place self.new ≡ with_places i (holds (rect_of watched.plane)) (has_place self.old) }
        ensures forms { form_at self.new ≡ with_form i (Some (plane_form watched.plane)) (form_at self.old) }
        ensures spare { spare_in self.new ≡ spare_in self.old }
        ensures moment { moment self.new ≡ with_moment i (Some (moment_of watched)) (moment self.old) }
        ensures writes { writes self.new ≡ writes self.old }
    {
        match mem::replace(&mut self.owns[i as usize], Some(Own::Whole(watched))) {
            Some(Own::Whole(had)) => had,
            _ => unreachable!(),
        }
    }

    /// Takes the pixels of a rectangle of an image that stands nowhere from those of another plane at the same points, a step for
    /// each.
    pub fn copy_whole<L: Ledger>(&mut self, i: u32, r: Rect, other: &Plane, steps: &mut Steps<L>)
        requires whole { option_map (λ form. form.is_window) (form_at self.old i) ≡ Some false }
        requires near { IsRectNear r }
        requires ordered { IsOrdered r }
        requires has { (p : Spot) → IsTrue (holds r p) → has_place self.old (own i p) ≡ true }
        requires other { (p : Spot) → IsTrue (holds r p) → IsTrue (holds (rect_of other.now) p) }
        requires chan { option_map (λ form. form.chan) (form_at self.old i) ≡ Some (chan_of other.now) }
        ensures at { (p : Spot) → IsTrue (holds r p) → kept_at self.new (own i p) ≡ pixel_at other.now p }
        ensures others { (place : Place) → ((p : Spot) → IsTrue (holds r p) → place ≢ own i p) → kept_at self.new place ≡ kept_at self.old place }
        ensures has { has_place self.new ≡ has_place self.old }
        ensures forms { form_at self.new ≡ form_at self.old }
        ensures moment { moment self.new ≡ moment self.old }
        ensures steps { steps.new ≡ steps.old + area_of r }
        ensures writes { writes self.new + steps.old ≡ writes self.old + steps.new }
    {
        self.writes = self.writes.and(&Area(r));
        match &mut self.owns[i as usize] {
            Some(Own::Whole(watched)) => watched.copy(r, other, r.min, steps),
            _ => unreachable!(),
        }
    }
}
