ghost use Rattle.std.specs.Prelude.{◌^◌, IfOk};
ghost use Rattle.r9_geom.specs.Geometry.{IsOrdered, IsRectNearBy};

use r9_chan::{BadChan, Chan};
use r9_geom::{Point, Rect};
use r9_imgfile::part;
use r9_locate::info::Info;
use std::test::Fail;

// Two rows of three grey pixels of one bit.
fn small() -> Result<Info, BadChan>
    ensures near { IfOk result (λ info. IsRectNearBy (2 ^ 33) info.r) }
    ensures ordered { IfOk result (λ info. IsOrdered info.r) }
{
    let chan = Chan::from_word(0x31)?;
    let r = Rect {
        min: Point { x: 6, y: 0 },
        max: Point { x: 9, y: 2 },
    };
    Ok(Info {
        r,
        clipr: r,
        repl: false,
        chan,
        parent: None,
        depth: 0,
        windows: 0,
    })
}

// Each row is in two bytes, behind a header of five fields (image(6)). Only the rows that a part touches are given.
#[test]
fn parts_of_a_small_file(rt: HostRuntime) -> Result<(), Fail> {
    let small = small()?;
    for (offset, count, rows, wanted) in [
        (0, 14, b"".as_slice(), b"         k1   ".as_slice()),
        (58, 4, b"ab".as_slice(), b"2 ab".as_slice()),
        (61, 2, b"abcd".as_slice(), b"bc".as_slice()),
        (62, 100, b"cd".as_slice(), b"cd".as_slice()),
        (64, 1, b"".as_slice(), b"".as_slice()),
    ] {
        let bytes = part(rt.alloc(), &small, rows, offset, count)?;
        assert_eq!(rt; bytes.as_slice(), wanted, "from {offset}");
    }
    Ok(())
}
