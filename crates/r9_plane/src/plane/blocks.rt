// Pixels of a rectangle, among rows of others.

ghost use Rattle.std.specs.Prelude.{◌≡◌, ◌≢◌, ◌+◌, ◌^◌, ◌<◌, ◌≤◌, ◌||◌, ℕ, length, slice_index, IsTrue, if◌then◌else◌};
ghost use Rattle.r9_geom.specs.Geometry.{IsOrdered, IsRectNear};
ghost use Rattle.model_pixel.specs.Channels as channels;

use super::Plane;
use crate::blocks::{fill_packed, read_packed, write_packed};
use r9_geom::Rect;
use r9_marks::steps::Steps;
use std::sync::ledger::Ledger;

impl Plane {
    ghost use Rattle.r9_geom.specs.declared.Point.{Point};
    ghost use Rattle.r9_geom.specs.Geometry.{area_of, distance, holds, strip};
    ghost use Rattle.r9_plane.specs.Blocks.{number_in, HasRows};
    ghost use Rattle.r9_plane.specs.Pixels.{chan_of, pixel_at, rect_of};
    ghost use Rattle.r9_plane.specs.Marks.{mark_count, marked_at, marks_of, touched};

    /// Reads the raw pixels of a rectangle among rows of so many: its first one comes to number `first`.
    pub fn get_block(&self, r: &Rect, raws: &mut [u32], first: usize, width: usize)
        requires near { IsRectNear r.now }
        requires ordered { IsOrdered r.now }
        requires inside { (p : Point) → IsTrue (holds r.now p) → IsTrue (holds (rect_of self.now) p) }
        requires rows { HasRows r.now first width (length raws.old) }
        ensures pixels { (p : Point) → IsTrue (holds r.now p) → slice_index raws.new (number_in r.now first width p) ≡ pixel_at self.now p }
        ensures range { (p : Point) → IsTrue (holds r.now p) → pixel_at self.now p < 2 ^ channels.depth (chan_of self.now) }
        ensures others { (n : ℕ) → ((p : Point) → IsTrue (holds r.now p) → n ≢ number_in r.now first width p) → slice_index raws.new n ≡ slice_index raws.old n }
    {
        if r.is_empty() {
            return;
        }
        let from_first = self.number(r.min);
        read_packed(
            &self.bytes,
            self.depth,
            from_first,
            self.columns,
            r,
            raws,
            first,
            width,
        );
    }

    // Writes the raw pixels of a rectangle, which stand among rows of so many, and marks nothing.
    fn write_block(&mut self, r: &Rect, raws: &[u32], first: usize, width: usize)
        requires ordered { IsOrdered r.now }
        requires inside { (p : Point) → IsTrue (holds r.now p) → IsTrue (holds (rect_of self.old) p) }
        requires rows { HasRows r.now first width (length raws.now) }
        requires raws { (p : Point) → IsTrue (holds r.now p) → slice_index raws.now (number_in r.now first width p) < 2 ^ channels.depth (chan_of self.old) }
        ensures rect { rect_of self.new ≡ rect_of self.old }
        ensures chan { chan_of self.new ≡ chan_of self.old }
        ensures pixels { (q : Point) → pixel_at self.new q ≡ (if holds r.now q then slice_index raws.now (number_in r.now first width q) else pixel_at self.old q) }
        ensures marks { marks_of self.new ≡ marks_of self.old }
    {
        if r.is_empty() {
            return;
        }
        let to_first = self.number(r.min);
        write_packed(
            &mut self.bytes,
            self.depth,
            to_first,
            self.columns,
            r,
            raws,
            first,
            width,
        );
    }

    // Writes one raw pixel at all points of a rectangle, and marks nothing.
    pub(crate) fn fill_block(&mut self, r: &Rect, raw: u32)
        requires ordered { IsOrdered r.now }
        requires inside { (p : Point) → IsTrue (holds r.now p) → IsTrue (holds (rect_of self.old) p) }
        requires raw { raw < 2 ^ channels.depth (chan_of self.old) }
        ensures rect { rect_of self.new ≡ rect_of self.old }
        ensures chan { chan_of self.new ≡ chan_of self.old }
        ensures pixels { (q : Point) → pixel_at self.new q ≡ (if holds r.now q then raw else pixel_at self.old q) }
        ensures marks { marks_of self.new ≡ marks_of self.old }
    {
        if r.is_empty() {
            return;
        }
        let first = self.number(r.min);
        fill_packed(&mut self.bytes, self.depth, first, self.columns, r, raw);
    }

    /// Writes the raw pixels of a rectangle, a step for each, which stand among rows of so many: its first one is number `first`.
    pub fn put_block<L: Ledger>(
        &mut self,
        r: &Rect,
        raws: &[u32],
        first: usize,
        width: usize,
        steps: &mut Steps<L>,
    )
        requires near { IsRectNear r.now }
        requires ordered { IsOrdered r.now }
        requires inside { (p : Point) → IsTrue (holds r.now p) → IsTrue (holds (rect_of self.old) p) }
        requires rows { HasRows r.now first width (length raws.now) }
        requires raws { (p : Point) → IsTrue (holds r.now p) → slice_index raws.now (number_in r.now first width p) < 2 ^ channels.depth (chan_of self.old) }
        ensures rect { rect_of self.new ≡ rect_of self.old }
        ensures chan { chan_of self.new ≡ chan_of self.old }
        ensures pixels { (q : Point) → pixel_at self.new q ≡ (if holds r.now q then slice_index raws.now (number_in r.now first width q) else pixel_at self.old q) }
        ensures marks { (column row : ℕ) → marked_at self.new column row ≡ (touched (rect_of self.old) r.now column row || marked_at self.old column row) }
        ensures few { mark_count self.new ≤ mark_count self.old + area_of r.now }
        ensures steps { steps.new ≡ steps.old + area_of r.now }
    {
        self.write_block(r, raws, first, width);
        self.mark(r, steps);
    }
}
