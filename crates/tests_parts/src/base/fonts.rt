use r9_fonts::{Cell, Font};
use r9_geom::{Point, Rect};
use std::test::Fail;

// Eight rows and three columns, one point right of the pen, which then moves by five (draw(3)).
#[test]
fn a_string_of_two_characters(rt: HostRuntime) -> Result<(), Fail> {
    let origin = Point { x: 0, y: 0 };
    let letter = Cell {
        r: Rect {
            min: origin,
            max: Point { x: 3, y: 8 },
        },
        left: 1,
        width: 5,
    };
    let mut font = Font::new(rt.alloc(), 1, 6);
    assert!(rt; font.set(0, letter).is_ok());
    let layout = font.layout(Point { x: 10, y: 20 }, origin, &[0, 0])?;
    let corners = layout.pieces.as_slice().iter().map(|piece| {
        let Rect { min, max } = piece.r;
        (min.x, min.y, max.x, max.y)
    });
    assert!(rt; corners.eq([(11, 14, 14, 22), (16, 14, 19, 22)]));
    assert_eq!(rt; layout.end.x, 20);
    Ok(())
}
