use r9_geom::{Point, Rect};
use r9_region::Region;
use std::test::Fail;

fn square(from: i64, to: i64) -> Rect {
    Rect {
        min: Point { x: from, y: from },
        max: Point { x: to, y: to },
    }
}

// A square of nine points without its middle, and one of four more, whose first point it holds already.
#[test]
fn a_square_with_a_hole(rt: HostRuntime) -> Result<(), Fail> {
    let mut region = Region::of(rt.alloc(), square(0, 3))?;
    region.cut(square(1, 2))?;
    region.add(square(2, 4))?;
    for (at, holds) in [(0, true), (1, false), (2, true), (3, true), (4, false)] {
        assert_eq!(rt; region.holds(Point { x: at, y: at }), holds, "at {at}");
    }
    Ok(())
}
