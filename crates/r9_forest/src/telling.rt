//! What images tell of themselves, and are told beside their pixels.

ghost use Rattle.std.specs.Prelude.{◌≡◌, ◌^◌, true};
ghost use Rattle.r9_geom.specs.Geometry.{HasPoints, IsRectNearBy};
ghost use Rattle.model_forest.specs.World.{image_at, IsLive};
ghost use Rattle.model_forest.specs.Steps.{after_set};
ghost use Rattle.r9_forest.specs.Told.{info_of};

use super::images::Images;
use r9_geom::Rect;
use r9_locate::info::{ImageNo, Info};

impl Images {
    ghost use Rattle.r9_forest.specs.Images.{moment, numbers, world, writes};

    /// Makes an image repeat or not, and gives it another clip rectangle.
    pub fn set(&mut self, i: u32, repl: bool, clipr: Rect)
        requires live { IsLive (world self.old) i }
        requires points { repl ≡ true → HasPoints (image_at (world self.old) i).r }
        requires near { IsRectNearBy (2 ^ 34) clipr }
        ensures world { world self.new ≡ after_set (world self.old) i repl clipr }
        ensures numbers { numbers self.new ≡ numbers self.old }
        ensures moment { moment self.new ≡ moment self.old }
        ensures writes { writes self.new ≡ writes self.old }
    {
        self.lists.set(i, repl, clipr);
    }

    /// What an image tells of itself.
    pub fn info(&self, i: u32) -> Info
        requires { IsLive (world self.now) i }
        ensures { result ≡ info_of (image_at (world self.now) i) }
    {
        let frame = self.lists.get(i);
        Info {
            r: frame.r,
            clipr: frame.clipr,
            repl: frame.repl,
            chan: frame.chan,
            parent: frame.standing.map(|s| ImageNo(s.parent)),
            depth: frame.depth,
            windows: frame.windows.len() as u32,
        }
    }
}
