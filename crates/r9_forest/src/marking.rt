//! The cells of images that were written, and the moment that proofs look back to.

ghost use Rattle.std.specs.Prelude.{◌≡◌, ◌≢◌, ◌^◌, ◌<◌, ℕ, Some, None, false, IsSome};
ghost use Rattle.r9_geom.specs.Geometry.{height, width};
ghost use Rattle.model_pixel.specs.Channels.{depth};
ghost use Rattle.r9_marks.specs.marks.Cells.{cells_over, count_cells};
ghost use Rattle.model_forest.specs.World.{image_at, parent_of, IsLive};
ghost use Rattle.r9_locate.specs.watched.Moments.{IsFew, IsSince, Moment};

use super::images::Images;

impl Images {
    ghost use Rattle.r9_forest.specs.Images.{moment, numbers, world, writes};
    ghost use Rattle.r9_forest.specs.Marks.{mark_count, marked, shown_in, IsMoment};

    /// Whether a cell of an image, of 32 by 32 points counted from its min, is marked: whether a point of it was written since its
    /// marks were cleared. A window has no marks.
    pub fn marked(&self, i: u32, column: u32, row: u32) -> bool
        requires live { IsLive (world self.now) i }
        requires column { column < cells_over (width (image_at (world self.now) i).r) }
        requires row { row < cells_over (height (image_at (world self.now) i).r) }
        ensures { result ≡ marked self.now i column row }
    {
        self.pixels.marked(i, column, row)
    }

    /// Clears the marks of an image that stands nowhere, whose moment is this one then.
    pub fn clear_marks(&mut self, i: u32)
        requires live { IsLive (world self.old) i }
        ensures world { world self.new ≡ world self.old }
        ensures numbers { numbers self.new ≡ numbers self.old }
        ensures marks { (column row : ℕ) → marked self.new i column row ≡ false }
        ensures count { mark_count self.new i ≡ 0 }
        ensures here { (then : Moment) → moment self.new i ≡ Some then → IsMoment then (image_at (world self.old) i).r (shown_in (world self.old) i) (marked self.new i) 0 (writes self.old) }
        ensures nowhere { parent_of (world self.old) i ≡ None → IsSome (moment self.new i) }
        ensures elsewhere { (j : ℕ) → j ≢ i → moment self.new j ≡ moment self.old j }
        ensures writes { writes self.new ≡ writes self.old }
    {
        self.pixels.clear_marks(i);
    }

    /// The moment of an image that stands nowhere is this one. Nothing is done.
    pub fn look(&mut self, i: u32)
        requires live { IsLive (world self.old) i }
        ensures world { world self.new ≡ world self.old }
        ensures numbers { numbers self.new ≡ numbers self.old }
        ensures marks { marked self.new i ≡ marked self.old i }
        ensures count { mark_count self.new i ≡ mark_count self.old i }
        ensures here { (then : Moment) → moment self.new i ≡ Some then → IsMoment then (image_at (world self.old) i).r (shown_in (world self.old) i) (marked self.old i) (mark_count self.old i) (writes self.old) }
        ensures nowhere { parent_of (world self.old) i ≡ None → IsSome (moment self.new i) }
        ensures elsewhere { (j : ℕ) → j ≢ i → moment self.new j ≡ moment self.old j }
        ensures writes { writes self.new ≡ writes self.old }
    {
        self.pixels.look(i);
    }

    /// Since the moment of an image each cell of it in which a pixel has changed was marked, none has lost its mark, and no more
    /// were marked than pixels were written. Nothing is done.
    pub fn since(&self, i: u32)
        requires live { IsLive (world self.now) i }
        ensures since { (then : Moment) → moment self.now i ≡ Some then → IsSince then (image_at (world self.now) i).r (shown_in (world self.now) i) (marked self.now i) }
        ensures few { (then : Moment) → moment self.now i ≡ Some then → IsFew then (mark_count self.now i) (writes self.now) }
        ensures most { mark_count self.now i < 2 ^ 64 }
        ensures nowhere { parent_of (world self.now) i ≡ None → IsSome (moment self.now i) }
        ensures counted { (then : Moment) → moment self.now i ≡ Some then → mark_count self.now i ≡ count_cells (cells_over (width (image_at (world self.now) i).r)) (cells_over (height (image_at (world self.now) i).r)) (marked self.now i) }
        ensures fits { (then : Moment) → moment self.now i ≡ Some then → (column row : ℕ) → column < width (image_at (world self.now) i).r → row < height (image_at (world self.now) i).r → shown_in (world self.now) i column row < 2 ^ depth (image_at (world self.now) i).chan }
    {
        self.pixels.since(i);
    }
}
