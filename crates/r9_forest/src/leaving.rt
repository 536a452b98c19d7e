//! Images that go.

ghost use Rattle.std.specs.Prelude.{◌≡◌, ◌+◌, ◌*◌, ◌≤◌, ℕ, None, Some};
ghost use Rattle.r9_geom.specs.Geometry.{area_of};
ghost use Rattle.model_forest.specs.Numbers.{given_back};
ghost use Rattle.model_forest.specs.World.{image_at, parent_of, CanGo, IsLive};
ghost use Rattle.model_forest.specs.Steps.{after_release};

use super::coming::content;
use super::images::Images;
use model_forest::Standing;
use r9_marks::steps::Steps;
use r9_put::fills::{Content, Gathered};
use r9_relist::relist::{take_away, take_whole};
use std::sync::ledger::Ledger;

impl Images {
    ghost use Rattle.r9_forest.specs.Images.{moment, numbers, world, writes};

    /// Takes an image away on which nothing stands and which fills for no window: first from the list that it stands in,
    /// where the fill then shows, as it was before. It takes no memory. At most two pixels are written for each point of the
    /// image.
    pub fn release<L: Ledger>(&mut self, i: u32, steps: &mut Steps<L>)
        requires { CanGo (world self.old) i }
        ensures world { world self.new ≡ after_release (world self.old) i }
        ensures back { numbers self.new ≡ given_back (numbers self.old) i }
        ensures steps { steps.new ≤ steps.old + 2 * area_of (image_at (world self.old) i).r }
        ensures bare { parent_of (world self.old) i ≡ None → steps.new ≡ steps.old }
        ensures moment { (j : ℕ) → IsLive (world self.new) j → moment self.new j ≡ moment self.old j }
        ensures writes { writes self.new + steps.old ≡ writes self.old + steps.new }
    {
        match self.lists.get(i).standing {
            Some(standing) => self.take_out(i, standing, steps),
            None => self.take_root(i),
        }
    }

    // Takes a window away, where its fill then shows.
    fn take_out<L: Ledger>(&mut self, i: u32, standing: Standing, steps: &mut Steps<L>)
        requires can { CanGo (world self.old) i }
        requires stands { (image_at (world self.old) i).standing ≡ Some standing }
        ensures world { world self.new ≡ after_release (world self.old) i }
        ensures back { numbers self.new ≡ given_back (numbers self.old) i }
        ensures steps { steps.new ≤ steps.old + 2 * area_of (image_at (world self.old) i).r }
        ensures moment { moment self.new ≡ moment self.old }
        ensures writes { writes self.new + steps.old ≡ writes self.old + steps.new }
    {
        let left = self.place_of(i, &standing);
        let chan = self.lists.get(standing.parent).chan;
        let fill = self.gather_left(standing.fill, &chan, &left);
        // Nothing asks for its own pixels.
        let gathered = Gathered {
            given: Content::Plain(0),
            fill: content(fill, left, &self.room),
        };
        take_away(
            self.alloc,
            &mut self.lists,
            &mut self.pixels,
            &gathered,
            standing.parent,
            i,
            &left,
            steps,
        );
        let _ = self.spare.push(i);
    }

    // Takes an image away that stands nowhere.
    fn take_root(&mut self, i: u32)
        requires can { CanGo (world self.old) i }
        requires nowhere { parent_of (world self.old) i ≡ None }
        ensures world { world self.new ≡ after_release (world self.old) i }
        ensures back { numbers self.new ≡ given_back (numbers self.old) i }
        ensures moment { (j : ℕ) → IsLive (world self.new) j → moment self.new j ≡ moment self.old j }
        ensures writes { writes self.new ≡ writes self.old }
    {
        take_whole(&mut self.lists, &mut self.pixels, i);
        let _ = self.spare.push(i);
    }
}
