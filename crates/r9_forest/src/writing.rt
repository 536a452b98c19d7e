//! Pixels that are put on an image.

ghost use Rattle.std.specs.Prelude.{◌≡◌, ◌+◌, ◌*◌, ◌^◌, ◌<◌, ◌≤◌, true, false, length, slice_index, EachIndex, IsTrue};
ghost use Rattle.std.specs.Int.Bits.{bit_and};
ghost use Rattle.r9_geom.specs.declared.Point.{Point as Spot};
ghost use Rattle.r9_geom.specs.Geometry.{area_of, carried, height, holds, is_empty, width, IsOrdered, IsRectNear};
ghost use Rattle.model_pixel.specs.Channels as channels;
ghost use Rattle.model_pixel.specs.Rows.{row_bytes, row_pixel};
ghost use Rattle.r9_kern.specs.Over.{over_of};
ghost use Rattle.r9_plane.specs.Pixels.{number_of};
ghost use Rattle.model_forest.specs.Draw.{after_fill, after_load, with_canvas};
ghost use Rattle.model_forest.specs.View.{view};
ghost use Rattle.model_forest.specs.World.{image_at, IsLive};

use super::images::Images;
use r9_geom::{Point, Rect};
use r9_kern::Over;
use r9_marks::steps::Steps;
use r9_put::put::{compose_area, fill_area, load_area, move_area, put_rows};
use std::sync::ledger::Ledger;

impl Images {
    ghost use Rattle.r9_forest.specs.Images.{moment, numbers, world, writes};

    /// Writes the pixels of a rectangle of an image, row by row. At most one is written for each.
    pub fn put_pixels<L: Ledger>(&mut self, i: u32, r: &Rect, pixels: &[u32], steps: &mut Steps<L>)
        requires live { IsLive (world self.old) i }
        requires near { IsRectNear r.now }
        requires ordered { IsOrdered r.now }
        requires inside { (p : Spot) → IsTrue (holds r.now p) → IsTrue (holds (image_at (world self.old) i).r p) }
        requires pixels { length pixels.now ≡ height r.now * width r.now }
        requires raws { EachIndex pixels.now (λ k. slice_index pixels.now k < 2 ^ channels.depth (image_at (world self.old) i).chan) }
        ensures world { world self.new ≡ with_canvas (world self.old) i (holds r.now) (λ p. slice_index pixels.now (number_of r.now p)) }
        ensures numbers { numbers self.new ≡ numbers self.old }
        ensures steps { steps.new ≤ steps.old + area_of r.now }
        ensures moment { moment self.new ≡ moment self.old }
        ensures writes { writes self.new + steps.old ≡ writes self.old + steps.new }
    {
        put_rows(&self.lists, &mut self.pixels, i, r, pixels, steps);
    }

    /// Writes one raw pixel at all points of a rectangle of an image, at most one for each. It takes no memory.
    pub fn fill<L: Ledger>(&mut self, i: u32, r: Rect, raw: u32, steps: &mut Steps<L>)
        requires live { IsLive (world self.old) i }
        requires near { IsRectNear r }
        requires ordered { IsOrdered r }
        requires inside { (p : Spot) → IsTrue (holds r p) → IsTrue (holds (image_at (world self.old) i).r p) }
        requires raw { raw < 2 ^ channels.depth (image_at (world self.old) i).chan }
        ensures world { world self.new ≡ after_fill (world self.old) i r raw }
        ensures numbers { numbers self.new ≡ numbers self.old }
        ensures steps { steps.new ≤ steps.old + area_of r }
        ensures moment { moment self.new ≡ moment self.old }
        ensures writes { writes self.new + steps.old ≡ writes self.old + steps.new }
    {
        fill_area(&self.lists, &mut self.pixels, i, &r, raw, steps);
    }

    /// Moves pixels within an image: a rectangle takes these bits of what the image shows in the one of its size whose min
    /// stands at `from`, at most one pixel for each point, where one plane keeps both and nothing stands on the first one.
    /// Otherwise nothing is done, and it tells so. It takes no memory.
    pub fn move_within<L: Ledger>(
        &mut self,
        i: u32,
        r: &Rect,
        from: Point,
        bits: u32,
        steps: &mut Steps<L>,
    ) -> bool
        requires live { IsLive (world self.old) i }
        requires near { IsRectNear r.now }
        requires ordered { IsOrdered r.now }
        requires some { is_empty r.now ≡ false }
        requires inside { (p : Spot) → IsTrue (holds r.now p) → IsTrue (holds (image_at (world self.old) i).r p) }
        requires inside_from { (p : Spot) → IsTrue (holds r.now p) → IsTrue (holds (image_at (world self.old) i).r (carried p r.now.min from)) }
        ensures world { result ≡ true → world self.new ≡ with_canvas (world self.old) i (holds r.now) (λ p. bit_and (view (world self.old) i (carried p r.now.min from)) bits) }
        ensures numbers { numbers self.new ≡ numbers self.old }
        ensures steps { result ≡ true → steps.new ≤ steps.old + area_of r.now }
        ensures unmoved { result ≡ false → world self.new ≡ world self.old }
        ensures uncounted { result ≡ false → steps.new ≡ steps.old }
        ensures moment { moment self.new ≡ moment self.old }
        ensures writes { writes self.new + steps.old ≡ writes self.old + steps.new }
    {
        move_area(&self.lists, &mut self.pixels, i, r, from, bits, steps)
    }

    /// Composes what one image shows onto a rectangle of another by SoverD through a full mask, where the source's point `from`
    /// stands at the rectangle's min, at most one pixel for each point, where two planes of 32 bits keep them and nothing stands on
    /// the rectangle. Otherwise nothing is done, and it tells so. It takes no memory.
    pub fn compose_over<L: Ledger>(
        &mut self,
        i: u32,
        r: &Rect,
        source: u32,
        from: Point,
        over: Over,
        steps: &mut Steps<L>,
    ) -> bool
        requires live { IsLive (world self.old) i }
        requires live_from { IsLive (world self.old) source }
        requires near { IsRectNear r.now }
        requires ordered { IsOrdered r.now }
        requires some { is_empty r.now ≡ false }
        requires inside { (p : Spot) → IsTrue (holds r.now p) → IsTrue (holds (image_at (world self.old) i).r p) }
        requires inside_from { (p : Spot) → IsTrue (holds r.now p) → IsTrue (holds (image_at (world self.old) source).r (carried p r.now.min from)) }
        ensures world { result ≡ true → world self.new ≡ with_canvas (world self.old) i (holds r.now) (λ p. over_of over (view (world self.old) source (carried p r.now.min from)) (view (world self.old) i p)) }
        ensures numbers { numbers self.new ≡ numbers self.old }
        ensures steps { result ≡ true → steps.new ≤ steps.old + area_of r.now }
        ensures unmoved { result ≡ false → world self.new ≡ world self.old }
        ensures uncounted { result ≡ false → steps.new ≡ steps.old }
        ensures moment { moment self.new ≡ moment self.old }
        ensures writes { writes self.new + steps.old ≡ writes self.old + steps.new }
    {
        compose_area(
            &self.lists,
            &mut self.pixels,
            i,
            r,
            source,
            from,
            over,
            steps,
        )
    }

    /// Takes the pixels of a rectangle of an image from its rows (image(6)). At most one is written for each.
    pub fn load<L: Ledger>(&mut self, i: u32, r: Rect, rows: &[u8], steps: &mut Steps<L>)
        requires live { IsLive (world self.old) i }
        requires near { IsRectNear r }
        requires ordered { IsOrdered r }
        requires inside { (p : Spot) → IsTrue (holds r p) → IsTrue (holds (image_at (world self.old) i).r p) }
        requires rows { length rows.now ≡ row_bytes r (channels.depth (image_at (world self.old) i).chan) * height r }
        ensures world { world self.new ≡ after_load (world self.old) i r (row_pixel r (channels.depth (image_at (world self.old) i).chan) rows.now) }
        ensures numbers { numbers self.new ≡ numbers self.old }
        ensures steps { steps.new ≤ steps.old + area_of r }
        ensures moment { moment self.new ≡ moment self.old }
        ensures writes { writes self.new + steps.old ≡ writes self.old + steps.new }
    {
        load_area(&self.lists, &mut self.pixels, i, r, rows, steps);
    }
}
