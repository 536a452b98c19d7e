//! Windows that change their order.

ghost use Rattle.std.specs.Prelude.{◌≡◌, ◌*◌, ◌+◌, ◌<◌, ◌≤◌, [], map, All, IfNone, IfSome, IsSome, IsTrue, IfOk, OnErr, OnOk, ◌&&◌, false, sum_by};
ghost use Rattle.r9_geom.specs.declared.Point.{Point as Spot};
ghost use Rattle.r9_geom.specs.Geometry.{area_of, holds};
ghost use Rattle.model_forest.specs.World.{image_at, parent_of, IsForest, IsLive};
ghost use Rattle.model_forest.specs.Stack.{after_lower, after_raise, with_windows};
ghost use Rattle.r9_forest.specs.Groups.{group_area, places_of, IsGroupOn};
ghost use Rattle.r9_region.specs.Region.{covers};
ghost use Rattle.r9_restack.specs.Areas.{AreApartIn};
ghost use Rattle.r9_locate.specs.locate.Table.{shape};
ghost use Rattle.r9_restack.specs.Moving.{IsReordering, IsSameTop};

use super::images::Images;
use model_forest::Window;
use r9_geom::Rect;
use r9_locate::info::ImageNo;
use r9_locate::lists::{lowered, raised};
use r9_locate::locate::place_among;
use r9_marks::steps::Steps;
use r9_memory::Memory;
use r9_region::Region;
use r9_relist::relist::reorder_windows;
use std::sync::ledger::Ledger;

impl Images {
    ghost use Rattle.r9_forest.specs.Images.{moment, numbers, world, writes};

    /// Raises windows of one image above its others, in their order. At most two pixels are written for each point of
    /// these windows.
    pub fn raise<L: Ledger>(
        &mut self,
        group: &[ImageNo],
        steps: &mut Steps<L>,
    ) -> Result<(), Memory>
        requires windows { All (λ i. IsSome (parent_of (world self.old) i.0)) group.now }
        ensures raised { OnOk result (world self.new ≡ after_raise (world self.old) (map (λ i. i.0) group.now)) }
        ensures numbers { numbers self.new ≡ numbers self.old }
        ensures err { OnErr result (world self.new ≡ world self.old) }
        ensures steps { steps.new ≤ steps.old + 2 * group_area (world self.old) (map (λ i. i.0) group.now) }
        ensures uncounted { OnErr result (steps.new ≡ steps.old) }
        ensures moment { moment self.new ≡ moment self.old }
        ensures writes { writes self.new + steps.old ≡ writes self.old + steps.new }
    {
        let Some(parent) = self.parent_of_first(group) else {
            return Ok(());
        };
        let list = raised(self.alloc, &self.lists.get(parent).windows, group)?;
        let places = self.places_of(parent, group)?;
        self.set_order(parent, list, places.parts(), steps)
    }

    /// Lowers windows of one image below its others, in their order. At most two pixels are written for each point of
    /// these windows.
    pub fn lower<L: Ledger>(
        &mut self,
        group: &[ImageNo],
        steps: &mut Steps<L>,
    ) -> Result<(), Memory>
        requires windows { All (λ i. IsSome (parent_of (world self.old) i.0)) group.now }
        ensures lowered { OnOk result (world self.new ≡ after_lower (world self.old) (map (λ i. i.0) group.now)) }
        ensures numbers { numbers self.new ≡ numbers self.old }
        ensures err { OnErr result (world self.new ≡ world self.old) }
        ensures steps { steps.new ≤ steps.old + 2 * group_area (world self.old) (map (λ i. i.0) group.now) }
        ensures uncounted { OnErr result (steps.new ≡ steps.old) }
        ensures moment { moment self.new ≡ moment self.old }
        ensures writes { writes self.new + steps.old ≡ writes self.old + steps.new }
    {
        let Some(parent) = self.parent_of_first(group) else {
            return Ok(());
        };
        let list = lowered(self.alloc, &self.lists.get(parent).windows, group)?;
        let places = self.places_of(parent, group)?;
        self.set_order(parent, list, places.parts(), steps)
    }

    // The image on which the first of a group stands, if there is a first.
    fn parent_of_first(&self, group: &[ImageNo]) -> Option<u32>
        requires windows { All (λ i. IsSome (parent_of (world self.now) i.0)) group.now }
        ensures none { IfNone result (group.now ≡ []) }
        ensures parent { IfSome result (λ p. IsGroupOn (world self.now) (map (λ i. i.0) group.now) p) }
    {
        let first = group.first()?;
        let standing = self.lists.get(first.0).standing?;
        Some(standing.parent)
    }

    // The points of an image where windows of a group of its windows stand.
    fn places_of(&self, parent: u32, group: &[ImageNo]) -> Result<Region, Memory>
        requires { IsLive (shape self.now.lists) parent }
        ensures { IfOk result (λ places. (z : Spot) → covers places z ≡ (covers (places_of (shape self.now.lists) parent (map (λ i. i.0) group.now)) z && holds (image_at (shape self.now.lists) parent).r z)) }
    {
        let below = self.lists.get(parent);
        let corner = below.r.min;
        let none = Rect {
            min: corner,
            max: corner,
        };
        let mut places = Region::of(self.alloc, none)?;
        for i in group {
            places.add(place_among(&below.windows, i.0))?;
        }
        places.within(below.r);
        Ok(places)
    }

    // Gives an image its windows in another order, by which the topmost one changes in these areas alone.
    fn set_order<L: Ledger>(
        &mut self,
        parent: u32,
        list: Vec<Window>,
        areas: &[Rect],
        steps: &mut Steps<L>,
    ) -> Result<(), Memory>
        requires order { IsReordering (shape self.old.lists) parent list.items }
        requires areas { AreApartIn (image_at (shape self.old.lists) parent).r areas.now }
        requires outside { (z : Spot) → IsTrue (holds (image_at (shape self.old.lists) parent).r z) → covers areas.now z ≡ false → IsSameTop (shape self.old.lists) parent list.items z }
        requires forest { IsForest (with_windows (world self.old) parent list.items) }
        ensures world { OnOk result (world self.new ≡ with_windows (world self.old) parent list.items) }
        ensures numbers { numbers self.new ≡ numbers self.old }
        ensures err { OnErr result (world self.new ≡ world self.old) }
        ensures steps { steps.new ≤ steps.old + 2 * sum_by area_of areas.now }
        ensures uncounted { OnErr result (steps.new ≡ steps.old) }
        ensures moment { moment self.new ≡ moment self.old }
        ensures writes { writes self.new + steps.old ≡ writes self.old + steps.new }
    {
        self.pixels
            .reserve_hidden(&self.lists, parent, &list, 0, areas)?;
        reorder_windows(
            &mut self.lists,
            &mut self.pixels,
            parent,
            list,
            areas,
            steps,
        );
        Ok(())
    }
}
