// How many pixels are written.

ghost use Rattle.std.specs.Prelude.{◌≡◌, ◌+◌, ◌<◌, ◌^◌};
ghost use Rattle.r9_geom.specs.Geometry.{area_of, IsOrdered};

use r9_geom::Rect;
use r9_marks::steps::Steps;
use std::sync::ledger::Ledger;

/// Takes a step for each point of a rectangle, such as one whose pixels are written.
pub fn count_points<L: Ledger>(r: &Rect, steps: &mut Steps<L>)
    requires ordered { IsOrdered r.now }
    requires few { area_of r.now < 2 ^ 64 }
    ensures { steps.new ≡ steps.old + area_of r.now }
{
    steps.add(r.width() * r.height());
}
