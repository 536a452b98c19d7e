//! Pixels moved when the windows of an image get another order: none of them comes or goes, and nothing becomes bare.

ghost use Rattle.std.specs.Prelude.{◌≡◌, ◌^◌, ◌+◌, ◌*◌, ◌<◌, ◌≤◌, ℕ, false, length, slice_index, IsTrue, List, sum_by};
ghost use Rattle.r9_geom.specs.declared.Point.{Point as Spot};
ghost use Rattle.r9_geom.specs.Geometry.{area_of, holds, IsOrdered, IsRectNear};
ghost use Rattle.model_forest.specs.World.{image_at, IsForest, IsLive, World};
ghost use Rattle.model_forest.specs.Stack.{lowered, raised};
ghost use Rattle.model_kept.specs.Restack.{with_list, IsRestacked};
ghost use Rattle.r9_locate.specs.locate.Forms.{HasBits};
ghost use Rattle.r9_locate.specs.locate.Table.{shape};
ghost use Rattle.r9_region.specs.Region.{covers};
ghost use Rattle.r9_restack.specs.Areas.{AreApartIn};
ghost use Rattle.r9_restack.specs.Moving.{HasPlaces, IsReordering, IsSameTop};

use super::changing::change_areas;
use super::giving::{Source, Supply};
use super::stacks::{count_same, stacks_of};
use model_forest::Window;
use r9_geom::{Point, Rect};
use r9_locate::locate::{Lists, Pixels};
use r9_marks::steps::Steps;
use std::sync::ledger::Ledger;

// The pixels of no window, which nothing asks for.
#[derive(Clone, Copy)]
struct Nothing;

impl Source for Nothing {
    ghost given = { λ _. λ _. 0 };

    ghost fill = { λ _. λ _. 0 };

    fn give(&self, _x: Point, raws: &mut [u32]) {
        raws.fill(0);
    }

    fn fills(&self, _q: Point, raws: &mut [u32]) {
        raws.fill(0);
    }

    fn given_in(&self, _r: &Rect) -> Supply<'_> {
        Supply::Plain(0)
    }

    fn fill_in(&self, _r: &Rect) -> Supply<'_> {
        Supply::Plain(0)
    }
}

/// Moves the pixels of an image and of its windows to where they are kept when its windows have another order, at the same
/// places. The topmost window changes within the area alone; at most twice as many pixels are written as that has points.
pub fn reorder<P: Pixels, L: Ledger>(
    lists: &Lists,
    pixels: &mut P,
    p: u32,
    new: &[Window],
    areas: &[Rect],
    steps: &mut Steps<L>,
)
    requires order { IsReordering (shape lists.now) p new.now }
    requires areas { AreApartIn (image_at (shape lists.now) p).r areas.now }
    requires outside { (z : Spot) → IsTrue (holds (image_at (shape lists.now) p).r z) → covers areas.now z ≡ false → IsSameTop (shape lists.now) p new.now z }
    requires places { HasPlaces (shape lists.now) p new.now (P.has pixels.old) }
    requires bits { HasBits (shape lists.now) (P.forms pixels.old) }
    ensures moved { (fill : Spot → ℕ) → IsRestacked (shape lists.now) (with_list (shape lists.now) p new.now) p (P.kept pixels.old) (P.kept pixels.new) fill }
    ensures has { P.has pixels.new ≡ P.has pixels.old }
    ensures forms { P.forms pixels.new ≡ P.forms pixels.old }
    ensures moment { P.moment pixels.new ≡ P.moment pixels.old }
    ensures spare { P.spare pixels.new ≡ P.spare pixels.old }
    ensures steps { steps.new ≤ steps.old + 2 * sum_by area_of areas.now }
    ensures writes { P.writes pixels.new + steps.old ≡ P.writes pixels.old + steps.new }
{
    let windows = &lists.get(p).windows;
    let stacks = stacks_of(windows, new, count_same(windows, new, p), p);
    change_areas(lists, pixels, &Nothing, p, p, &stacks, areas, steps);
}

/// A group of windows that is raised, or lowered, is another order at the same places.
pub fn groups_are_orders()
    ensures raised { (world : World) (p : ℕ) (group : List ℕ) → IsForest world → IsLive world p → IsReordering world p (raised group (image_at world p).windows) }
    ensures lowered { (world : World) (p : ℕ) (group : List ℕ) → IsForest world → IsLive world p → IsReordering world p (lowered group (image_at world p).windows) }
{}
