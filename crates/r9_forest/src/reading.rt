//! What images show, read where it is kept.

ghost use Rattle.std.specs.Prelude.{◌≡◌, ◌++◌, ◌*◌, ◌^◌, ◌<◌, ◌≤◌, ℕ, None, true, length, slice_index, IfOk, IfSome, IsTrue};
ghost use Rattle.r9_geom.specs.declared.Point.{Point as Spot};
ghost use Rattle.r9_geom.specs.Geometry as geometry;
ghost use Rattle.r9_geom.specs.Geometry.{height, holds, reduced, strip, width, IsNearBy, IsOrdered, IsRectNear, IsRectNearBy};
ghost use Rattle.r9_plane.specs.Pixels.{along, chan_of, number_of, pixel_at, rect_of};
ghost use Rattle.model_pixel.specs.Channels as channels;
ghost use Rattle.model_pixel.specs.Rows.{rows_of};
ghost use Rattle.model_forest.specs.World.{image_at, parent_of, IsLive};
ghost use Rattle.model_forest.specs.View as model;
ghost use Rattle.model_forest.specs.View.{at, is_bare};
ghost use Rattle.model_forest.specs.Paint.{paint};
ghost use Rattle.model_forest.specs.Draw.{reaches};

use super::images::Images;
use r9_geom::{Point, Rect, distance};
use r9_locate::locate::{along, read_view};
use r9_marks::steps::Steps;
use r9_memory::Memory;
use r9_plane::Plane;
use r9_shown::read_area;
use r9_text::Bytes;
use std::marker::Brand;
use std::sync::ledger::{Blank, Ledger};

// How many columns a rectangle has from a point of it on.
fn columns_left(p: Point, r: &Rect) -> usize
    requires { IsTrue (holds r.now p) }
    ensures value { result ≡ geometry.distance p.x r.now.max.x }
    ensures some { 0 < result }
{
    distance(p.x, r.max.x) as usize
}

impl Images {
    ghost use Rattle.r9_forest.specs.Images.{world};
    ghost use Rattle.r9_forest.specs.Keeping.{on_plane};

    /// Reads what an image shows side by side, from a point of it to the right.
    pub(crate) fn read_view(&self, i: u32, from: Point, raws: &mut [u32])
        requires live { IsLive (world self.now) i }
        requires inside { (p : Spot) → IsTrue (holds (strip from (length raws.old)) p) → IsTrue (holds (image_at (world self.now) i).r p) }
        ensures { (k : ℕ) → k < length raws.old → slice_index raws.new k ≡ model.view (world self.now) i (along from k) }
    {
        if raws.is_empty() {
            return;
        }
        read_view(&self.lists, &self.pixels, i, from, raws);
    }

    /// The one pixel that an image gives everywhere, where it repeats a single one.
    pub fn single(&self, i: u32) -> Option<u32>
        requires { IsLive (world self.now) i }
        ensures { IfSome result (λ raw. (p : Spot) → at (world self.now) i p ≡ raw) }
    {
        let frame = self.lists.get(i);
        let r = frame.r;
        if frame.repl && r.width() == 1 && r.height() == 1 {
            Some(self.view(i, r.min))
        } else {
            None
        }
    }

    /// Reads what an image gives where it is drawn from, side by side, from a point to the right.
    pub fn read_row(&self, i: u32, from: Point, raws: &mut [u32])
        requires live { IsLive (world self.now) i }
        requires near { IsNearBy (2 ^ 41) from }
        requires width { length raws.old ≤ 2 ^ 41 }
        requires inside { (p : Spot) → IsTrue (holds (strip from (length raws.old)) p) → IsTrue (reaches (image_at (world self.now) i) p) }
        ensures raws { (k : ℕ) → k < length raws.old → slice_index raws.new k ≡ at (world self.now) i (along from k) }
        ensures range { (k : ℕ) → k < length raws.old → slice_index raws.new k < 2 ^ channels.depth (image_at (world self.now) i).chan }
    {
        if let Some(raw) = self.single(i) {
            raws.fill(raw);
        } else if self.lists.get(i).repl {
            self.read_repeated(i, from, raws);
        } else {
            self.read_view(i, from, raws);
        }
    }

    // The same of an image that repeats: one run of each copy of it after the other.
    fn read_repeated(&self, i: u32, from: Point, raws: &mut [u32])
        requires live { IsLive (world self.now) i }
        requires near { IsNearBy (2 ^ 41) from }
        requires width { length raws.old ≤ 2 ^ 41 }
        requires repl { (image_at (world self.now) i).repl ≡ true }
        ensures { (k : ℕ) → k < length raws.old → slice_index raws.new k ≡ model.view (world self.now) i (reduced (image_at (world self.now) i).r (along from k)) }
    {
        let r = self.lists.get(i).r;
        let mut done = 0;
        while done < raws.len() {
            let p = along(from, done).reduced(r);
            let end = done + columns_left(p, &r).min(raws.len() - done);
            self.read_view(i, p, &mut raws[done..end]);
            done = end;
        }
    }

    // Reads what an image gives at the points of a rectangle, one row after the other.
    fn read_rows(&self, i: u32, r: &Rect, raws: &mut [u32])
        requires live { IsLive (world self.now) i }
        requires near { IsRectNear r.now }
        requires ordered { IsOrdered r.now }
        requires inside { (p : Spot) → IsTrue (holds r.now p) → IsTrue (reaches (image_at (world self.now) i) p) }
        requires raws { length raws.old ≡ height r.now * width r.now }
        ensures { (p : Spot) → IsTrue (holds r.now p) → slice_index raws.new (number_of r.now p) ≡ at (world self.now) i p }
    {
        let width = r.width() as usize;
        for row in 0..r.height() {
            let first = row as usize * width;
            self.read_row(i, r.point_at(0, row), &mut raws[first..first + width]);
        }
    }

    /// Reads what an image gives where it is drawn from, at the points of a rectangle, row by row.
    pub fn read_area(&self, i: u32, r: &Rect, raws: &mut [u32])
        requires live { IsLive (world self.now) i }
        requires near { IsRectNear r.now }
        requires ordered { IsOrdered r.now }
        requires inside { (p : Spot) → IsTrue (holds r.now p) → IsTrue (reaches (image_at (world self.now) i) p) }
        requires raws { length raws.old ≡ height r.now * width r.now }
        ensures { (p : Spot) → IsTrue (holds r.now p) → slice_index raws.new (number_of r.now p) ≡ at (world self.now) i p }
    {
        if self.lists.get(i).repl {
            self.read_rows(i, r, raws);
        } else {
            read_area(&self.lists, &self.pixels, i, r, raws);
        }
    }

    /// Reads an image's own pixels at the points of a rectangle of it, row by row. Where a window stands there, what is read is any
    /// pixel.
    pub fn read_bare_area(&self, i: u32, r: &Rect, raws: &mut [u32])
        requires live { IsLive (world self.now) i }
        requires near { IsRectNear r.now }
        requires ordered { IsOrdered r.now }
        requires inside { (p : Spot) → IsTrue (holds r.now p) → IsTrue (holds (image_at (world self.now) i).r p) }
        requires raws { length raws.old ≡ height r.now * width r.now }
        ensures { (p : Spot) → IsTrue (holds r.now p) → is_bare (image_at (world self.now) i).windows p ≡ true → slice_index raws.new (number_of r.now p) ≡ model.view (world self.now) i p }
    {
        read_area(&self.lists, &self.pixels, i, r, raws);
    }

    /// The raw pixel that an image shows at a point of it.
    pub fn view(&self, i: u32, p: Point) -> u32
        requires live { IsLive (world self.now) i }
        requires inside { IsTrue (holds (image_at (world self.now) i).r p) }
        ensures value { result ≡ model.view (world self.now) i p }
        ensures range { result < 2 ^ channels.depth (image_at (world self.now) i).chan }
    {
        let mut raws = [0];
        self.read_view(i, p, &mut raws);
        raws[0]
    }

    /// The plane of an image that stands nowhere: what the image shows, with all windows on it.
    pub fn plane(&self, i: u32) -> &Plane
        requires live { IsLive (world self.now) i }
        requires nowhere { parent_of (world self.now) i ≡ None }
        ensures rect { rect_of result.now ≡ (image_at (world self.now) i).r }
        ensures chan { chan_of result.now ≡ (image_at (world self.now) i).chan }
        ensures pixels { (p : Spot) → IsTrue (holds (image_at (world self.now) i).r p) → pixel_at result.now p ≡ model.view (world self.now) i p }
        ensures kept { (p : Spot) → pixel_at result.now p ≡ on_plane self.now i p }
    {
        self.pixels.plane(i)
    }

    // What an image shows in a rectangle of it, as a plane. Its pixels are no image's: they have a count of their own.
    fn shown<L: Ledger>(&self, i: u32, r: Rect, blank: Blank) -> Result<Plane, Memory>
        requires name { blank.name ≡ L.name }
        requires parts { blank.parts ≡ L.parts }
        requires some { 0 < L.parts }
        requires live { IsLive (world self.now) i }
        requires near { IsRectNearBy (2 ^ 36) r }
        requires ordered { IsOrdered r }
        requires inside { (p : Spot) → IsTrue (holds r p) → IsTrue (holds (image_at (world self.now) i).r p) }
        ensures rect { IfOk result (λ plane. rect_of plane ≡ r) }
        ensures chan { IfOk result (λ plane. chan_of plane ≡ (image_at (world self.now) i).chan) }
        ensures pixels { IfOk result (λ plane. (p : Spot) → IsTrue (holds r p) → pixel_at plane p ≡ model.view (world self.now) i p) }
    {
        let mut steps = Steps::<L>::new(blank);
        let mut plane = Plane::new(self.alloc, r, self.lists.get(i).chan, 0)?;
        let mut raws = vec![in self.alloc; 0; r.width() as usize]?;
        for row in 0..r.height() {
            let at = r.point_at(0, row);
            self.read_view(i, at, &mut raws);
            plane.put_row(at, &raws, &mut steps);
        }
        Ok(plane)
    }

    // Bytes with the rows of what an image shows in a rectangle behind them.
    fn with_view(&self, i: u32, r: Rect, front: Vec<u8>) -> Result<Vec<u8>, Memory>
        requires live { IsLive (world self.now) i }
        requires near { IsRectNearBy (2 ^ 36) r }
        requires ordered { IsOrdered r }
        requires inside { (p : Spot) → IsTrue (holds r p) → IsTrue (holds (image_at (world self.now) i).r p) }
        ensures { IfOk result (λ all. all.items ≡ front.items ++ rows_of r (channels.depth (image_at (world self.now) i).chan) (model.view (world self.now) i)) }
    {
        if self.lists.get(i).standing.is_none() {
            self.plane(i).with_rows(r, front)
        } else {
            self.shown::<Brand>(i, r, Blank::new(1))?
                .with_rows(r, front)
        }
    }

    /// Bytes with the rows of what an image shows in a rectangle behind them (image(6)): of the picture that is painted from back to
    /// front, too. For want of memory there are none.
    pub fn with_rows(&self, i: u32, r: Rect, front: Vec<u8>) -> Result<Vec<u8>, Memory>
        requires live { IsLive (world self.now) i }
        requires near { IsRectNearBy (2 ^ 36) r }
        requires ordered { IsOrdered r }
        requires inside { (p : Spot) → IsTrue (holds r p) → IsTrue (holds (image_at (world self.now) i).r p) }
        ensures view { IfOk result (λ all. all.items ≡ front.items ++ rows_of r (channels.depth (image_at (world self.now) i).chan) (model.view (world self.now) i)) }
        ensures paint { IfOk result (λ all. all.items ≡ front.items ++ rows_of r (channels.depth (image_at (world self.now) i).chan) (paint (world self.now) i)) }
    {
        self.with_view(i, r, front)
    }

    /// The rows of what an image shows in a rectangle (image(6)): the picture that is painted from back to front, too.
    pub fn unload(&self, i: u32, r: Rect) -> Result<Bytes, Memory>
        requires live { IsLive (world self.now) i }
        requires near { IsRectNearBy (2 ^ 36) r }
        requires ordered { IsOrdered r }
        requires inside { (p : Spot) → IsTrue (holds r p) → IsTrue (holds (image_at (world self.now) i).r p) }
        ensures view { IfOk result (λ rows. rows ≡ rows_of r (channels.depth (image_at (world self.now) i).chan) (model.view (world self.now) i)) }
        ensures paint { IfOk result (λ rows. rows ≡ rows_of r (channels.depth (image_at (world self.now) i).chan) (paint (world self.now) i)) }
    {
        let rows = self.with_rows(i, r, Vec::new(self.alloc))?;
        Ok(Bytes::from(rows))
    }
}
