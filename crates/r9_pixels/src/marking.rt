//! The cells of planes that were written, and the moment that proofs look back to.

ghost use Rattle.std.specs.Prelude.{◌≡◌, ◌≢◌, ◌+◌, ◌^◌, ◌<◌, ℕ, Some, None, true, false, option_map, IsTrue};
ghost use Rattle.r9_geom.specs.declared.Point.{Point as Spot};
ghost use Rattle.r9_geom.specs.Geometry.{area_of, height, holds, point_at, width};
ghost use Rattle.r9_marks.specs.marks.Cells.{cells_over, count_cells};
ghost use Rattle.model_kept.specs.Keeping.{own, Place};
ghost use Rattle.r9_locate.specs.locate.Forms.{bits_in};
ghost use Rattle.r9_locate.specs.watched.Moments.{moment_at, with_moment, IsFew, IsSince, Moment};
ghost use Rattle.r9_locate.specs.watched.Watched.{count_of, moment_of};

use super::counted::Area;
use super::keeping::KeptPixels;
use super::own::Own;
use r9_locate::watched::Watched;
use r9_marks::steps::Steps;
use r9_plane::Plane;
use std::mem;
use std::sync::ledger::Ledger;

impl KeptPixels {
    ghost use Rattle.r9_pixels.specs.Kept.{form_at, has_place, kept_at, mark_count, marked, moment, moment_now, plane_at, rect_at, room_of, spare_in, writes};

    // Whether an image has a plane.
    fn is_whole(&self, i: u32) -> bool
        ensures whole { result ≡ true → option_map (λ form. form.is_window) (form_at self.now i) ≡ Some false }
        ensures none { result ≡ false → plane_at self.now i ≡ None }
    {
        if self.owns.len() <= i as usize {
            return false;
        }
        match &self.owns[i as usize] {
            Some(Own::Whole(_)) => true,
            _ => false,
        }
    }

    /// Whether a cell of an image is marked: whether a point of it was written since its marks were cleared. One without a plane
    /// has no marks.
    pub fn marked(&self, i: u32, column: u32, row: u32) -> bool
        requires column { column < cells_over (width (rect_at self.now i)) }
        requires row { row < cells_over (height (rect_at self.now i)) }
        ensures { result ≡ marked self.now i column row }
    {
        if self.owns.len() <= i as usize {
            return false;
        }
        match &self.owns[i as usize] {
            Some(Own::Whole(watched)) => watched.plane.marked(column, row),
            _ => false,
        }
    }

    /// Clears the marks of an image with a plane, whose moment is this one then.
    pub fn clear_marks(&mut self, i: u32)
        ensures kept { kept_at self.new ≡ kept_at self.old }
        ensures has { has_place self.new ≡ has_place self.old }
        ensures forms { form_at self.new ≡ form_at self.old }
        ensures room { room_of self.new ≡ room_of self.old }
        ensures spare { spare_in self.new ≡ spare_in self.old }
        ensures marks { (column row : ℕ) → marked self.new i column row ≡ false }
        ensures count { mark_count self.new i ≡ 0 }
        ensures moment { moment self.new ≡ with_moment i (moment_now self.new i) (moment self.old) }
        ensures writes { writes self.new ≡ writes self.old }
    {
        if !self.is_whole(i) {
            return;
        }
        match &mut self.owns[i as usize] {
            Some(Own::Whole(watched)) => watched.clear_marks(&self.writes),
            _ => unreachable!(),
        }
    }

    /// The moment of an image with a plane is this one. Nothing is done.
    pub fn look(&mut self, i: u32)
        ensures kept { kept_at self.new ≡ kept_at self.old }
        ensures has { has_place self.new ≡ has_place self.old }
        ensures forms { form_at self.new ≡ form_at self.old }
        ensures room { room_of self.new ≡ room_of self.old }
        ensures spare { spare_in self.new ≡ spare_in self.old }
        ensures marks { marked self.new i ≡ marked self.old i }
        ensures count { mark_count self.new i ≡ mark_count self.old i }
        ensures moment { moment self.new ≡ with_moment i (moment_now self.old i) (moment self.old) }
        ensures writes { writes self.new ≡ writes self.old }
    {
        if !self.is_whole(i) {
            return;
        }
        match &mut self.owns[i as usize] {
            Some(Own::Whole(watched)) => watched.look(&self.writes),
            _ => unreachable!(),
        }
    }

    /// What was marked and what has changed of an image with a plane since its moment. Nothing is done.
    pub fn since(&self, i: u32)
        ensures since { (then : Moment) → moment self.now i ≡ Some then → IsSince then (rect_at self.now i) (λ column row. kept_at self.now (own i (point_at (rect_at self.now i) column row))) (marked self.now i) }
        ensures few { (then : Moment) → moment self.now i ≡ Some then → IsFew then (mark_count self.now i) (writes self.now) }
        ensures most { mark_count self.now i < 2 ^ 64 }
        ensures counted { (then : Moment) → moment self.now i ≡ Some then → mark_count self.now i ≡ count_cells (cells_over (width (rect_at self.now i))) (cells_over (height (rect_at self.now i))) (marked self.now i) }
        ensures fits { (then : Moment) → moment self.now i ≡ Some then → (p : Spot) → kept_at self.now (own i p) < 2 ^ bits_in (form_at self.now) i }
    {
        if self.owns.len() <= i as usize {
            return;
        }
        if let Some(Own::Whole(watched)) = &self.owns[i as usize] {
            watched.since();
        }
    }

    /// A plane whose moment is this one.
    pub fn watch(&self, plane: Plane) -> Watched
        ensures plane { result.plane ≡ plane }
        ensures moment { moment_of result ≡ moment_at plane (writes self.now) }
        ensures few { IsFew (moment_of result) (count_of result) (writes self.now) }
    {
        Watched::new(plane, &self.writes)
    }

    /// Writes one raw pixel at all points of an image that stands nowhere, a step for each, so that each cell of it is marked, and
    /// gives it the moment of a plane that it had before. That plane is given back.
    pub fn resume<L: Ledger>(
        &mut self,
        i: u32,
        had: Watched,
        raw: u32,
        steps: &mut Steps<L>,
    ) -> Plane
        requires whole { option_map (λ form. form.is_window) (form_at self.old i) ≡ Some false }
        requires raw { raw < 2 ^ bits_in (form_at self.old) i }
        requires few { IsFew (moment_of had) (count_of had) (writes self.old) }
        ensures had { result ≡ had.plane }
        ensures at { (p : Spot) → IsTrue (holds (rect_at self.old i) p) → kept_at self.new (own i p) ≡ raw }
        ensures others { (place : Place) → place.image ≢ i → kept_at self.new place ≡ kept_at self.old place }
        ensures has { has_place self.new ≡ has_place self.old }
        ensures forms { form_at self.new ≡ form_at self.old }
        ensures spare { spare_in self.new ≡ spare_in self.old }
        ensures moment { moment self.new ≡ with_moment i (Some (moment_of had)) (moment self.old) }
        ensures steps { steps.new ≡ steps.old + area_of (rect_at self.old i) }
        ensures writes { writes self.new + steps.old ≡ writes self.old + steps.new }
    {
        let Some(Own::Whole(watched)) = mem::replace(&mut self.owns[i as usize], None) else {
            unreachable!()
        };
        let mut plane = watched.into_plane();
        let r = plane.rect();
        plane.clear_marks();
        plane.fill(r, raw, steps);
        let (now, plane) = had.resumed(plane);
        self.owns[i as usize] = Some(Own::Whole(now));
        self.writes = self.writes.and(&Area(r));
        plane
    }
}
