// Pixels that are composed where they stand.

ghost use Rattle.std.specs.Prelude.{◌≡◌, ◌+◌, ◌≤◌, ◌||◌, ℕ, IsTrue, if◌then◌else◌};
ghost use Rattle.r9_geom.specs.Geometry.{IsNear, IsOrdered, IsRectNear};
ghost use Rattle.model_pixel.specs.Channels as channels;
ghost use Rattle.r9_kern.specs.Over.{over_of};

use super::Plane;
use crate::composing::over_run;
use r9_geom::{Point, Rect};
use r9_kern::Over;
use r9_marks::steps::Steps;
use std::sync::ledger::Ledger;

impl Plane {
    ghost use Rattle.r9_geom.specs.declared.Point.{Point};
    ghost use Rattle.r9_geom.specs.Geometry.{area_of, carried, distance, holds, strip};
    ghost use Rattle.r9_plane.specs.Pixels.{along, chan_of, pixel_at, rect_of};
    ghost use Rattle.r9_plane.specs.Marks.{mark_count, marked_at, marks_of, touched};

    // Composes pixels side by side of another plane, there from `from` to the right, onto those from `at` to the right.
    fn over_row(&mut self, at: Point, width: usize, other: &Plane, from: Point, over: Over)
        requires inside { (p : Point) → IsTrue (holds (strip at width) p) → IsTrue (holds (rect_of self.old) p) }
        requires inside_from { (p : Point) → IsTrue (holds (strip from width) p) → IsTrue (holds (rect_of other.now) p) }
        requires depth { channels.depth (chan_of self.old) ≡ 32 }
        requires depth_from { channels.depth (chan_of other.now) ≡ 32 }
        ensures rect { rect_of self.new ≡ rect_of self.old }
        ensures chan { chan_of self.new ≡ chan_of self.old }
        ensures pixels { (q : Point) → pixel_at self.new q ≡ (if holds (strip at width) q then over_of over (pixel_at other.now (along from (distance at.x q.x))) (pixel_at self.old q) else pixel_at self.old q) }
        ensures marks { marks_of self.new ≡ marks_of self.old }
    {
        if width == 0 {
            return;
        }
        let first = self.number(at);
        let from_first = other.number(from);
        over_run(
            over,
            &mut self.bytes,
            first,
            width,
            &other.bytes,
            from_first,
        );
    }

    // Composes the rows of a rectangle.
    fn over_rows(&mut self, r: Rect, other: &Plane, from: Point, over: Over)
        requires near { IsRectNear r }
        requires ordered { IsOrdered r }
        requires near_from { IsNear from }
        requires inside { (p : Point) → IsTrue (holds r p) → IsTrue (holds (rect_of self.old) p) }
        requires inside_from { (p : Point) → IsTrue (holds r p) → IsTrue (holds (rect_of other.now) (carried p r.min from)) }
        requires depth { channels.depth (chan_of self.old) ≡ 32 }
        requires depth_from { channels.depth (chan_of other.now) ≡ 32 }
        ensures rect { rect_of self.new ≡ rect_of self.old }
        ensures chan { chan_of self.new ≡ chan_of self.old }
        ensures pixels { (q : Point) → pixel_at self.new q ≡ (if holds r q then over_of over (pixel_at other.now (carried q r.min from)) (pixel_at self.old q) else pixel_at self.old q) }
        ensures marks { marks_of self.new ≡ marks_of self.old }
    {
        let width = r.width() as usize;
        for row in 0..r.height() {
            let at = r.point_at(0, row);
            self.over_row(at, width, other, at.carried(r.min, from), over);
        }
    }

    /// Composes pixels of another plane onto those of a rectangle by SoverD through a full mask, where that plane's point `from` stands
    /// at its min, a step for each pixel. Both have 32 bits. It takes no memory.
    pub fn compose_over<L: Ledger>(
        &mut self,
        r: Rect,
        other: &Plane,
        from: Point,
        over: Over,
        steps: &mut Steps<L>,
    )
        requires near { IsRectNear r }
        requires ordered { IsOrdered r }
        requires near_from { IsNear from }
        requires inside { (p : Point) → IsTrue (holds r p) → IsTrue (holds (rect_of self.old) p) }
        requires inside_from { (p : Point) → IsTrue (holds r p) → IsTrue (holds (rect_of other.now) (carried p r.min from)) }
        requires depth { channels.depth (chan_of self.old) ≡ 32 }
        requires depth_from { channels.depth (chan_of other.now) ≡ 32 }
        ensures rect { rect_of self.new ≡ rect_of self.old }
        ensures chan { chan_of self.new ≡ chan_of self.old }
        ensures pixels { (q : Point) → pixel_at self.new q ≡ (if holds r q then over_of over (pixel_at other.now (carried q r.min from)) (pixel_at self.old q) else pixel_at self.old q) }
        ensures marks { (column row : ℕ) → marked_at self.new column row ≡ (touched (rect_of self.old) r column row || marked_at self.old column row) }
        ensures few { mark_count self.new ≤ mark_count self.old + area_of r }
        ensures steps { steps.new ≡ steps.old + area_of r }
    {
        self.mark(&r, steps);
        self.over_rows(r, other, from, over);
    }
}
