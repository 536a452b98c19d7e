//! The cells of the display that were written, and the moment that proofs look back to.

ghost use Rattle.std.specs.Prelude.{◌≡◌, ◌^◌, ◌<◌, ℕ, Some, None, false, IsSome};
ghost use Rattle.r9_geom.specs.Geometry.{height, width};
ghost use Rattle.model_pixel.specs.Channels.{depth};
ghost use Rattle.r9_marks.specs.marks.Cells.{cells_over, count_cells};
ghost use Rattle.model_draw.specs.draw.World.{at_number};
ghost use Rattle.model_forest.specs.World.{parent_of, IsForest};
ghost use Rattle.r9_device.specs.device.Marks.{shown_in, IsMoment};
ghost use Rattle.r9_locate.specs.watched.Moments.{IsFew, IsSince, Moment};

use crate::draw::draw::Draw;
use r9_device::device::{DISPLAY, ImageNo};

impl Draw {
    ghost use Rattle.r9_draw.specs.draw.World.{marked_in, marks_of, moment_of, world_of, writes_of};

    /// Whether a cell of the display, of 32 by 32 pixels, is marked: whether a pixel of it was written since its marks were cleared.
    pub fn marked(&self, column: u32, row: u32) -> bool
        requires column { column < cells_over (width (at_number (world_of self.now) 0).r) }
        requires row { row < cells_over (height (at_number (world_of self.now) 0).r) }
        ensures { result ≡ marked_in self.now column row }
    {
        self.device.forest.marked(ImageNo(DISPLAY), column, row)
    }

    /// Clears the marks of the display, whose moment is this one then.
    pub fn clear_marks(&mut self)
        ensures world { world_of self.new ≡ world_of self.old }
        ensures marks { (column row : ℕ) → marked_in self.new column row ≡ false }
        ensures count { marks_of self.new ≡ 0 }
        ensures here { (then : Moment) → moment_of self.new ≡ Some then → IsMoment then (at_number (world_of self.old) 0).r (shown_in (world_of self.old).images 0) (marked_in self.new) 0 (writes_of self.old) }
        ensures nowhere { parent_of (world_of self.old).images 0 ≡ None → IsSome (moment_of self.new) }
        ensures writes { writes_of self.new ≡ writes_of self.old }
    {
        self.device.forest.clear_marks(ImageNo(DISPLAY));
    }

    /// The moment of the display is this one. Nothing is done.
    pub fn look(&mut self)
        ensures world { world_of self.new ≡ world_of self.old }
        ensures marks { marked_in self.new ≡ marked_in self.old }
        ensures count { marks_of self.new ≡ marks_of self.old }
        ensures here { (then : Moment) → moment_of self.new ≡ Some then → IsMoment then (at_number (world_of self.old) 0).r (shown_in (world_of self.old).images 0) (marked_in self.old) (marks_of self.old) (writes_of self.old) }
        ensures nowhere { parent_of (world_of self.old).images 0 ≡ None → IsSome (moment_of self.new) }
        ensures writes { writes_of self.new ≡ writes_of self.old }
    {
        self.device.forest.look(ImageNo(DISPLAY));
    }

    /// Since its moment each cell of the display in which a pixel has changed was marked, none has lost its mark, and no more were
    /// marked than pixels were written. Nothing is done.
    pub fn since(&self)
        ensures since { (then : Moment) → moment_of self.now ≡ Some then → IsSince then (at_number (world_of self.now) 0).r (shown_in (world_of self.now).images 0) (marked_in self.now) }
        ensures few { (then : Moment) → moment_of self.now ≡ Some then → IsFew then (marks_of self.now) (writes_of self.now) }
        ensures most { marks_of self.now < 2 ^ 64 }
        ensures forest { IsForest (world_of self.now).images }
        ensures nowhere { parent_of (world_of self.now).images 0 ≡ None → IsSome (moment_of self.now) }
        ensures counted { (then : Moment) → moment_of self.now ≡ Some then → marks_of self.now ≡ count_cells (cells_over (width (at_number (world_of self.now) 0).r)) (cells_over (height (at_number (world_of self.now) 0).r)) (marked_in self.now) }
        ensures fits { (then : Moment) → moment_of self.now ≡ Some then → (column row : ℕ) → column < width (at_number (world_of self.now) 0).r → row < height (at_number (world_of self.now) 0).r → shown_in (world_of self.now).images 0 column row < 2 ^ depth (at_number (world_of self.now) 0).chan }
    {
        self.device.forest.keeps();
        self.device.forest.since(ImageNo(DISPLAY));
    }
}
