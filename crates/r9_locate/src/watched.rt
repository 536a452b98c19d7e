//! A plane with what it was at a moment, which proofs alone look back to: it takes no byte more than the plane.
#![tactic(auto)]

ghost use Rattle.std.specs.Prelude.{◌≡◌, ◌+◌, ◌*◌, ◌^◌, ◌<◌, ◌≤◌, ℕ, true, false, length, slice_index, IsTrue, if◌then◌else◌};
ghost use Rattle.std.specs.Int.Bits.{bit_and};
ghost use Rattle.r9_geom.specs.declared.Point.{Point as Spot};
ghost use Rattle.r9_geom.specs.Geometry.{area_of, at_min, carried, distance, height, holds, strip, width, IsNear, IsOrdered, IsRectNear};
ghost use Rattle.model_pixel.specs.Channels as channels;
ghost use Rattle.model_pixel.specs.Rows.{row_bytes, row_pixel};
ghost use Rattle.r9_kern.specs.Over.{over_of};
ghost use Rattle.r9_marks.specs.marks.Cells.{cells_over, count_cells};
ghost use Rattle.r9_plane.specs.Blocks.{number_in, HasRows};
ghost use Rattle.r9_plane.specs.Marks.{mark_count, marked_at};
ghost use Rattle.r9_plane.specs.Pixels.{chan_of, pixel_at, rect_of};
ghost use Rattle.r9_locate.specs.watched.Moments.{moment_at, pixel_in, IsSince};

use crate::tally::Tally;
use r9_geom::{Point, Rect};
use r9_kern::Over;
use r9_marks::steps::Steps;
use r9_plane::Plane;
use std::snapshot::Snapshot;
use std::sync::ledger::Ledger;

/// A plane, and what it was at a moment, with how many pixels had been written by then. Since that moment each cell in which a
/// pixel has changed was marked, and none has lost its mark.
#[derive(Drop)]
pub struct Watched {
    pub plane: Plane,
    pub was: Snapshot<Plane>,
    pub before: Snapshot<Tally>,
    ghost since: { IsSince (moment_at was.value before.value.sum) (rect_of plane) (pixel_in plane) (marked_at plane) },
}

impl Watched {
    ghost use Rattle.r9_locate.specs.watched.Watched.{count_of, moment_of};

    /// A plane whose moment is this one, when so many pixels have been written.
    pub fn new(plane: Plane, writes: &Tally) -> Self
        ensures plane { result.plane ≡ plane }
        ensures moment { moment_of result ≡ moment_at plane writes.now.sum }
    {
        let was = Snapshot::of(&plane);
        let before = Snapshot::of(writes);
        Watched { plane, was, before }
    }

    /// What was marked and what has changed since the moment. Nothing is done.
    pub fn since(&self)
        ensures since { IsSince (moment_of self.now) (rect_of self.now.plane) (pixel_in self.now.plane) (marked_at self.now.plane) }
        ensures most { count_of self.now < 2 ^ 64 }
        ensures counted { count_of self.now ≡ count_cells (cells_over (width (rect_of self.now.plane))) (cells_over (height (rect_of self.now.plane))) (marked_at self.now.plane) }
        ensures fits { (p : Spot) → pixel_at self.now.plane p < 2 ^ channels.depth (chan_of self.now.plane) }
    {
        self.plane.sound();
    }

    /// The plane, whose moment is forgotten.
    pub fn into_plane(self) -> Plane
        ensures { result ≡ self.plane }
    {
        let Watched {
            plane,
            was: _,
            before: _,
        } = self;
        plane
    }

    /// Another plane with the moment of this one, where each cell of that is marked; and the plane of this one.
    pub fn resumed(self, plane: Plane) -> (Watched, Plane)
        requires { (column row : ℕ) → column < cells_over (width (rect_of plane)) → row < cells_over (height (rect_of plane)) → marked_at plane column row ≡ true }
        ensures plane { result.0.plane ≡ plane }
        ensures moment { moment_of result.0 ≡ moment_of self }
        ensures had { result.1 ≡ self.plane }
    {
        let Watched {
            plane: had,
            was,
            before,
        } = self;
        (Watched { plane, was, before }, had)
    }

    /// Its moment is this one, when so many pixels have been written.
    pub fn look(&mut self, writes: &Tally)
        ensures plane { self.new.plane ≡ self.old.plane }
        ensures moment { moment_of self.new ≡ moment_at self.old.plane writes.now.sum }
    {
        self.was = Snapshot::of(&self.plane);
        self.before = Snapshot::of(writes);
    }

    /// Clears all marks, and its moment is this one, when so many pixels have been written.
    pub fn clear_marks(&mut self, writes: &Tally)
        ensures rect { rect_of self.new.plane ≡ rect_of self.old.plane }
        ensures chan { chan_of self.new.plane ≡ chan_of self.old.plane }
        ensures pixels { pixel_at self.new.plane ≡ pixel_at self.old.plane }
        ensures marks { (column row : ℕ) → marked_at self.new.plane column row ≡ false }
        ensures count { count_of self.new ≡ 0 }
        ensures moment { moment_of self.new ≡ moment_at self.new.plane writes.now.sum }
    {
        self.plane.clear_marks();
        self.was = Snapshot::of(&self.plane);
        self.before = Snapshot::of(writes);
    }

    /// Gives the rectangle another min. Each pixel and each mark stays where it is in it.
    pub fn shift(&mut self, min: Point)
        requires min { IsNear min }
        requires near { IsRectNear (at_min (rect_of self.old.plane) min) }
        ensures rect { rect_of self.new.plane ≡ at_min (rect_of self.old.plane) min }
        ensures chan { chan_of self.new.plane ≡ chan_of self.old.plane }
        ensures pixels { (q : Spot) → pixel_at self.new.plane q ≡ pixel_at self.old.plane (carried q min (rect_of self.old.plane).min) }
        ensures moment { moment_of self.new ≡ moment_of self.old }
        ensures count { count_of self.new ≡ count_of self.old }
    {
        self.plane.shift(min);
    }

    /// Writes raw pixels side by side, from a point to the right, a step for each.
    pub fn put_row<L: Ledger>(&mut self, at: Point, raws: &[u32], steps: &mut Steps<L>)
        requires inside { (p : Spot) → IsTrue (holds (strip at (length raws.now)) p) → IsTrue (holds (rect_of self.old.plane) p) }
        requires raws { (i : ℕ) → i < length raws.now → slice_index raws.now i < 2 ^ channels.depth (chan_of self.old.plane) }
        ensures rect { rect_of self.new.plane ≡ rect_of self.old.plane }
        ensures chan { chan_of self.new.plane ≡ chan_of self.old.plane }
        ensures pixels { (q : Spot) → pixel_at self.new.plane q ≡ (if holds (strip at (length raws.now)) q then slice_index raws.now (distance at.x q.x) else pixel_at self.old.plane q) }
        ensures moment { moment_of self.new ≡ moment_of self.old }
        ensures few { count_of self.new ≤ count_of self.old + length raws.now }
        ensures steps { steps.new ≡ steps.old + length raws.now }
    {
        self.plane.put_row(at, raws, steps);
    }

    /// Writes the raw pixels of a rectangle, a step for each, which stand among rows of so many: its first one is number `first`.
    pub fn put_block<L: Ledger>(
        &mut self,
        r: &Rect,
        raws: &[u32],
        first: usize,
        width: usize,
        steps: &mut Steps<L>,
    )
        requires near { IsRectNear r.now }
        requires ordered { IsOrdered r.now }
        requires inside { (p : Spot) → IsTrue (holds r.now p) → IsTrue (holds (rect_of self.old.plane) p) }
        requires rows { HasRows r.now first width (length raws.now) }
        requires raws { (p : Spot) → IsTrue (holds r.now p) → slice_index raws.now (number_in r.now first width p) < 2 ^ channels.depth (chan_of self.old.plane) }
        ensures rect { rect_of self.new.plane ≡ rect_of self.old.plane }
        ensures chan { chan_of self.new.plane ≡ chan_of self.old.plane }
        ensures pixels { (q : Spot) → pixel_at self.new.plane q ≡ (if holds r.now q then slice_index raws.now (number_in r.now first width q) else pixel_at self.old.plane q) }
        ensures moment { moment_of self.new ≡ moment_of self.old }
        ensures few { count_of self.new ≤ count_of self.old + area_of r.now }
        ensures steps { steps.new ≡ steps.old + area_of r.now }
    {
        self.plane.put_block(r, raws, first, width, steps);
    }

    /// Writes one raw pixel at all points of a rectangle, a step for each.
    pub fn fill<L: Ledger>(&mut self, r: Rect, raw: u32, steps: &mut Steps<L>)
        requires near { IsRectNear r }
        requires ordered { IsOrdered r }
        requires inside { (p : Spot) → IsTrue (holds r p) → IsTrue (holds (rect_of self.old.plane) p) }
        requires raw { raw < 2 ^ channels.depth (chan_of self.old.plane) }
        ensures rect { rect_of self.new.plane ≡ rect_of self.old.plane }
        ensures chan { chan_of self.new.plane ≡ chan_of self.old.plane }
        ensures pixels { (q : Spot) → pixel_at self.new.plane q ≡ (if holds r q then raw else pixel_at self.old.plane q) }
        ensures moment { moment_of self.new ≡ moment_of self.old }
        ensures few { count_of self.new ≤ count_of self.old + area_of r }
        ensures steps { steps.new ≡ steps.old + area_of r }
    {
        self.plane.fill(r, raw, steps);
    }

    /// Takes the pixels of a rectangle from another plane of the same channels, where its min stands at `from`, a step for each.
    pub fn copy<L: Ledger>(&mut self, r: Rect, other: &Plane, from: Point, steps: &mut Steps<L>)
        requires near { IsRectNear r }
        requires ordered { IsOrdered r }
        requires near_from { IsNear from }
        requires inside { (p : Spot) → IsTrue (holds r p) → IsTrue (holds (rect_of self.old.plane) p) }
        requires inside_from { (p : Spot) → IsTrue (holds r p) → IsTrue (holds (rect_of other.now) (carried p r.min from)) }
        requires chan { chan_of other.now ≡ chan_of self.old.plane }
        ensures rect { rect_of self.new.plane ≡ rect_of self.old.plane }
        ensures chan { chan_of self.new.plane ≡ chan_of self.old.plane }
        ensures pixels { (q : Spot) → pixel_at self.new.plane q ≡ (if holds r q then pixel_at other.now (carried q r.min from) else pixel_at self.old.plane q) }
        ensures moment { moment_of self.new ≡ moment_of self.old }
        ensures few { count_of self.new ≤ count_of self.old + area_of r }
        ensures steps { steps.new ≡ steps.old + area_of r }
    {
        self.plane.copy(r, other, from, steps);
    }

    /// Moves pixels within the plane: a rectangle takes these bits of those of the one of its size whose min stands at `from`, a
    /// step for each pixel.
    pub fn move_kept<L: Ledger>(&mut self, r: Rect, from: Point, bits: u32, steps: &mut Steps<L>)
        requires near { IsRectNear r }
        requires ordered { IsOrdered r }
        requires near_from { IsNear from }
        requires inside { (p : Spot) → IsTrue (holds r p) → IsTrue (holds (rect_of self.old.plane) p) }
        requires inside_from { (p : Spot) → IsTrue (holds r p) → IsTrue (holds (rect_of self.old.plane) (carried p r.min from)) }
        ensures rect { rect_of self.new.plane ≡ rect_of self.old.plane }
        ensures chan { chan_of self.new.plane ≡ chan_of self.old.plane }
        ensures pixels { (q : Spot) → pixel_at self.new.plane q ≡ (if holds r q then bit_and (pixel_at self.old.plane (carried q r.min from)) bits else pixel_at self.old.plane q) }
        ensures moment { moment_of self.new ≡ moment_of self.old }
        ensures few { count_of self.new ≤ count_of self.old + area_of r }
        ensures steps { steps.new ≡ steps.old + area_of r }
    {
        self.plane.move_kept(r, from, bits, steps);
    }

    /// Composes pixels of another plane onto those of a rectangle by SoverD through a full mask, where that plane's point `from` stands
    /// at its min, a step for each pixel. Both have 32 bits. It takes no memory.
    pub fn compose_over<L: Ledger>(
        &mut self,
        r: Rect,
        other: &Plane,
        from: Point,
        over: Over,
        steps: &mut Steps<L>,
    )
        requires near { IsRectNear r }
        requires ordered { IsOrdered r }
        requires near_from { IsNear from }
        requires inside { (p : Spot) → IsTrue (holds r p) → IsTrue (holds (rect_of self.old.plane) p) }
        requires inside_from { (p : Spot) → IsTrue (holds r p) → IsTrue (holds (rect_of other.now) (carried p r.min from)) }
        requires depth { channels.depth (chan_of self.old.plane) ≡ 32 }
        requires depth_from { channels.depth (chan_of other.now) ≡ 32 }
        ensures rect { rect_of self.new.plane ≡ rect_of self.old.plane }
        ensures chan { chan_of self.new.plane ≡ chan_of self.old.plane }
        ensures pixels { (q : Spot) → pixel_at self.new.plane q ≡ (if holds r q then over_of over (pixel_at other.now (carried q r.min from)) (pixel_at self.old.plane q) else pixel_at self.old.plane q) }
        ensures moment { moment_of self.new ≡ moment_of self.old }
        ensures few { count_of self.new ≤ count_of self.old + area_of r }
        ensures steps { steps.new ≡ steps.old + area_of r }
    {
        self.plane.compose_over(r, other, from, over, steps);
    }

    /// Takes the pixels of a rectangle from its rows, a step for each. Bits outside it are not looked at.
    pub fn load<L: Ledger>(&mut self, r: Rect, rows: &[u8], steps: &mut Steps<L>)
        requires near { IsRectNear r }
        requires ordered { IsOrdered r }
        requires inside { (p : Spot) → IsTrue (holds r p) → IsTrue (holds (rect_of self.old.plane) p) }
        requires rows { length rows.now ≡ row_bytes r (channels.depth (chan_of self.old.plane)) * height r }
        ensures rect { rect_of self.new.plane ≡ rect_of self.old.plane }
        ensures chan { chan_of self.new.plane ≡ chan_of self.old.plane }
        ensures pixels { (q : Spot) → pixel_at self.new.plane q ≡ (if holds r q then row_pixel r (channels.depth (chan_of self.old.plane)) rows.now q else pixel_at self.old.plane q) }
        ensures moment { moment_of self.new ≡ moment_of self.old }
        ensures few { count_of self.new ≤ count_of self.old + area_of r }
        ensures steps { steps.new ≡ steps.old + area_of r }
    {
        self.plane.load(r, rows, steps);
    }
}
