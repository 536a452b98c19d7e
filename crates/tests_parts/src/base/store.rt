ghost use Rattle.std.specs.Prelude.{◌≡◌, ◌<◌};

use r9_geom::{Point, Rect};
use r9_marks::steps::Steps;
use r9_store::Store;
use std::alloc::Global;
use std::marker::Brand;
use std::process::Abort;
use std::sync::ledger::{Blank, Ledger};
use std::test::Fail;

// One pixel and a rectangle of three by two are written, so that seven are counted.
fn writes_are_counted<L: Ledger>(rt: &impl Abort, alloc: Global, blank: Blank) -> Result<(), Fail>
    requires name { blank.name ≡ L.name }
    requires parts { blank.parts ≡ L.parts }
    requires some { 0 < L.parts }
{
    let mut steps = Steps::<L>::new(blank);
    let mut store = Store::new(alloc);
    store.reserve(4)?;
    assert_eq!(rt; store.spare(), 4);
    let tile = store.take();
    store.put(tile, Point { x: 31, y: 0 }, 7, &mut steps);
    assert_eq!(rt; store.get(tile, Point { x: 31, y: 0 }), 7);
    let r = Rect {
        min: Point { x: 1, y: 2 },
        max: Point { x: 4, y: 4 },
    };
    store.fill_block(tile, &r, 9, &mut steps);
    assert_eq!(rt; store.get(tile, Point { x: 3, y: 3 }), 9);
    assert_eq!(rt; steps.count(), 7);
    Ok(())
}

#[test]
fn there_is_room_for_tiles(rt: HostRuntime) -> Result<(), Fail> {
    writes_are_counted::<Brand>(&rt, rt.alloc(), Blank::new(1))
}
