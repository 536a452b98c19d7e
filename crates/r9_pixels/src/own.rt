//! What an image keeps its pixels in.

ghost use Rattle.std.specs.Prelude.{◌≡◌, ℕ};
ghost use Rattle.r9_geom.specs.declared.Point.{Point as Spot};
ghost use Rattle.r9_geom.specs.Geometry.{at_min, carried, IsNear, IsRectNear};
ghost use Rattle.r9_cells.specs.declared.table.Cells.{Cells};

use r9_chan::Chan;
use r9_geom::{Point, Rect};
use r9_locate::watched::Watched;

/// The rectangle of a window, and the channels of its pixels.
#[derive(Clone, Copy)]
pub struct Extent {
    pub r: Rect,
    pub chan: Chan,
}

/// What an image keeps its pixels in.
#[derive(Drop)]
pub enum Own {
    /// The plane of an image that stands nowhere, which shows it with its windows.
    Whole(Watched),
    /// The tiles of the hidden cells of a window.
    Hidden(Extent),
}

impl Own {
    ghost use Rattle.r9_pixels.specs.Owns.{form_in, has_in, kept_in, moment_in, IsFewIn};
    ghost use Rattle.r9_pixels.specs.Places.{shifted_form};

    /// Gives it another min, where its pixels move along. None is written.
    pub(crate) fn shift(&mut self, min: Point)
        requires rect { IsRectNear (form_in self.old).r }
        requires min { IsNear min }
        requires near { IsRectNear (at_min (form_in self.old).r min) }
        ensures form { form_in self.new ≡ shifted_form min (form_in self.old) }
        ensures kept { (cells : Cells) (i : ℕ) (p : Spot) → kept_in cells i p self.new ≡ kept_in cells i (carried p min (form_in self.old).r.min) self.old }
        ensures has { (cells : Cells) (i : ℕ) (p : Spot) → has_in cells i p self.new ≡ has_in cells i (carried p min (form_in self.old).r.min) self.old }
        ensures moment { moment_in self.new ≡ moment_in self.old }
        ensures few { (writes : ℕ) → IsFewIn writes self.old → IsFewIn writes self.new }
    {
        match self {
            Own::Whole(watched) => watched.shift(min),
            Own::Hidden(extent) => extent.r = extent.r.at_min(min),
        }
    }
}
