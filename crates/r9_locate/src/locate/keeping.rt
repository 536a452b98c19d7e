//! Where the pixels of a row are kept.

ghost use Rattle.std.specs.Prelude.{◌≡◌, ◌+◌, ◌^◌, ◌<◌, ◌≤◌, ℕ, IsTrue};
ghost use Rattle.r9_geom.specs.declared.Point.{Point as Spot};
ghost use Rattle.r9_geom.specs.Geometry.{holds, strip};
ghost use Rattle.r9_plane.specs.Pixels.{along};
ghost use Rattle.model_forest.specs.World.{image_at, parent_of, IsLive};
ghost use Rattle.model_kept.specs.Keeping.{is_shown, keeping, own};
ghost use Rattle.r9_locate.specs.locate.Lists.{shows};

use super::lists::{Frame, Lists, place_among};
use super::runs::{steady, steady_top, top};
use r9_geom::Point;

/// Points side by side, where an image keeps them itself.
#[derive(Clone, Copy, Debug)]
pub struct Run {
    pub image: u32,
    pub at: Point,
    pub len: usize,
}

// Whether an image shows a window, and for how many points side by side that is so.
#[derive(Clone, Copy)]
struct Shown {
    is: bool,
    len: usize,
}

fn shown_run(frame: &Frame, i: u32, q: Point, n: usize) -> Shown
    requires { 0 < n }
    ensures some { 0 < result.len }
    ensures most { result.len ≤ n }
    ensures same { (k : ℕ) → k < result.len → shows frame.now i (along q k) ≡ result.is }
{
    let len = steady_top(&frame.windows, q, steady(&frame.r, q, n));
    let is = frame.r.holds(q)
        && match top(&frame.windows, q) {
            Some(w) => w.image == i,
            None => false,
        };
    Shown { is, len }
}

impl Lists {
    ghost use Rattle.r9_locate.specs.locate.Table.{shape};

    /// Where the first of points side by side are kept, of n points of an image to the right.
    pub fn locate(&self, i: u32, at: Point, n: usize) -> Run
        requires live { IsLive (shape self.now) i }
        requires some { 0 < n }
        requires inside { (p : Spot) → IsTrue (holds (strip at n) p) → IsTrue (holds (image_at (shape self.now) i).r p) }
        ensures some { 0 < result.len }
        ensures most { result.len ≤ n }
        ensures kept { (k : ℕ) → k < result.len → keeping (shape self.now) i (along at k) ≡ own result.image (along result.at k) }
    {
        let mut run = Run {
            image: i,
            at,
            len: n,
        };
        while let Some(standing) = self.get(run.image).standing {
            let below = self.get(standing.parent);
            let from = self.get(run.image).r.min;
            let to = place_among(&below.windows, run.image).min;
            let q = run.at.carried(from, to);
            let shown = shown_run(below, run.image, q, run.len);
            run.len = shown.len;
            if !shown.is {
                return run;
            }
            run.image = standing.parent;
            run.at = q;
        }
        run
    }
}
