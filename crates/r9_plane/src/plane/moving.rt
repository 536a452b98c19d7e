// Pixels that are moved within a plane.

ghost use Rattle.std.specs.Prelude.{◌≡◌, ◌+◌, ◌≤◌, ◌≤ℤ◌, ◌||◌, ℕ, length, IsTrue, if◌then◌else◌};
ghost use Rattle.std.specs.Int.Bits.{bit_and};
ghost use Rattle.r9_geom.specs.Geometry.{IsNear, IsOrdered, IsRectNear};

use super::Plane;
use crate::moves::{ROOM_BYTES, move_run};
use r9_geom::{Point, Rect};
use r9_marks::steps::Steps;
use std::sync::ledger::Ledger;

impl Plane {
    ghost use Rattle.r9_geom.specs.declared.Point.{Point};
    ghost use Rattle.r9_geom.specs.Geometry.{area_of, carried, distance, holds, strip};
    ghost use Rattle.r9_plane.specs.Pixels.{along, chan_of, pixel_at, rect_of};
    ghost use Rattle.r9_plane.specs.Marks.{mark_count, marked_at, marks_of, touched};

    // Moves pixels side by side within the plane, from a point to the right: these bits come there of those that stand from
    // another point to the right.
    fn move_row(&mut self, at: Point, width: usize, from: Point, bits: u32, room: &mut [u8])
        requires inside { (p : Point) → IsTrue (holds (strip at width) p) → IsTrue (holds (rect_of self.old) p) }
        requires inside_from { (p : Point) → IsTrue (holds (strip from width) p) → IsTrue (holds (rect_of self.old) p) }
        requires room { length room.old ≡ ROOM_BYTES }
        ensures rect { rect_of self.new ≡ rect_of self.old }
        ensures chan { chan_of self.new ≡ chan_of self.old }
        ensures pixels { (q : Point) → pixel_at self.new q ≡ (if holds (strip at width) q then bit_and (pixel_at self.old (along from (distance at.x q.x))) bits else pixel_at self.old q) }
        ensures marks { marks_of self.new ≡ marks_of self.old }
    {
        if width == 0 {
            return;
        }
        let first = self.number(at);
        let from_first = self.number(from);
        move_run(
            &mut self.bytes,
            self.depth,
            first,
            width,
            from_first,
            bits,
            room,
        );
    }

    // Moves rows to where they stand above themselves or beside, the upper rows first.
    fn move_up(&mut self, r: Rect, from: Point, bits: u32)
        requires near { IsRectNear r }
        requires ordered { IsOrdered r }
        requires near_from { IsNear from }
        requires order { r.min.y ≤ℤ from.y }
        requires inside { (p : Point) → IsTrue (holds r p) → IsTrue (holds (rect_of self.old) p) }
        requires inside_from { (p : Point) → IsTrue (holds r p) → IsTrue (holds (rect_of self.old) (carried p r.min from)) }
        ensures rect { rect_of self.new ≡ rect_of self.old }
        ensures chan { chan_of self.new ≡ chan_of self.old }
        ensures pixels { (q : Point) → pixel_at self.new q ≡ (if holds r q then bit_and (pixel_at self.old (carried q r.min from)) bits else pixel_at self.old q) }
        ensures marks { marks_of self.new ≡ marks_of self.old }
    {
        let mut room = [0; ROOM_BYTES];
        let width = r.width() as usize;
        for row in 0..r.height() {
            let at = r.point_at(0, row);
            self.move_row(at, width, at.carried(r.min, from), bits, &mut room);
        }
    }

    // Moves rows to where they stand below themselves, the lower rows first.
    fn move_down(&mut self, r: Rect, from: Point, bits: u32)
        requires near { IsRectNear r }
        requires ordered { IsOrdered r }
        requires near_from { IsNear from }
        requires order { from.y ≤ℤ r.min.y }
        requires inside { (p : Point) → IsTrue (holds r p) → IsTrue (holds (rect_of self.old) p) }
        requires inside_from { (p : Point) → IsTrue (holds r p) → IsTrue (holds (rect_of self.old) (carried p r.min from)) }
        ensures rect { rect_of self.new ≡ rect_of self.old }
        ensures chan { chan_of self.new ≡ chan_of self.old }
        ensures pixels { (q : Point) → pixel_at self.new q ≡ (if holds r q then bit_and (pixel_at self.old (carried q r.min from)) bits else pixel_at self.old q) }
        ensures marks { marks_of self.new ≡ marks_of self.old }
    {
        let mut room = [0; ROOM_BYTES];
        let width = r.width() as usize;
        let mut row = r.height();
        while row > 0 {
            row -= 1;
            let at = r.point_at(0, row);
            self.move_row(at, width, at.carried(r.min, from), bits, &mut room);
        }
    }

    fn move_rows(&mut self, r: Rect, from: Point, bits: u32)
        requires near { IsRectNear r }
        requires ordered { IsOrdered r }
        requires near_from { IsNear from }
        requires inside { (p : Point) → IsTrue (holds r p) → IsTrue (holds (rect_of self.old) p) }
        requires inside_from { (p : Point) → IsTrue (holds r p) → IsTrue (holds (rect_of self.old) (carried p r.min from)) }
        ensures rect { rect_of self.new ≡ rect_of self.old }
        ensures chan { chan_of self.new ≡ chan_of self.old }
        ensures pixels { (q : Point) → pixel_at self.new q ≡ (if holds r q then bit_and (pixel_at self.old (carried q r.min from)) bits else pixel_at self.old q) }
        ensures marks { marks_of self.new ≡ marks_of self.old }
    {
        if r.min.y <= from.y {
            self.move_up(r, from, bits);
        } else {
            self.move_down(r, from, bits);
        }
    }

    /// Moves pixels within the plane: a rectangle takes these bits of those of the one of its size whose min stands at `from`, a
    /// step for each pixel. It takes no memory.
    pub fn move_kept<L: Ledger>(&mut self, r: Rect, from: Point, bits: u32, steps: &mut Steps<L>)
        requires near { IsRectNear r }
        requires ordered { IsOrdered r }
        requires near_from { IsNear from }
        requires inside { (p : Point) → IsTrue (holds r p) → IsTrue (holds (rect_of self.old) p) }
        requires inside_from { (p : Point) → IsTrue (holds r p) → IsTrue (holds (rect_of self.old) (carried p r.min from)) }
        ensures rect { rect_of self.new ≡ rect_of self.old }
        ensures chan { chan_of self.new ≡ chan_of self.old }
        ensures pixels { (q : Point) → pixel_at self.new q ≡ (if holds r q then bit_and (pixel_at self.old (carried q r.min from)) bits else pixel_at self.old q) }
        ensures marks { (column row : ℕ) → marked_at self.new column row ≡ (touched (rect_of self.old) r column row || marked_at self.old column row) }
        ensures few { mark_count self.new ≤ mark_count self.old + area_of r }
        ensures steps { steps.new ≡ steps.old + area_of r }
    {
        self.mark(&r, steps);
        self.move_rows(r, from, bits);
    }
}
