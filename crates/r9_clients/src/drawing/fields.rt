//! Fields at the end of bytes. For want of memory a part of a field may be there.

ghost use Rattle.std.specs.Prelude.{◌≡◌, ◌++◌, pos, OnOk};
ghost use Rattle.std.specs.List.{flat_map};
ghost use Rattle.model_text.specs.text.Number.{two_bytes, four_bytes};
ghost use Rattle.model_clients.specs.client.Messages.{coordinate, point, rect};
ghost use Rattle.r9_clients.specs.drawing.Shown.{point_of, rect_of};

use r9_memory::Memory;
use r9_text::Bytes;

/// A point that is neither left of nor above 0.
#[derive(Clone, Copy)]
pub struct Place {
    pub x: u32,
    pub y: u32,
}

/// The point where both coordinates are 0.
pub const ORIGIN: Place = Place { x: 0, y: 0 };

/// The points from an upper left one on that lie before a lower right one.
#[derive(Clone, Copy)]
pub struct Area {
    pub left: u32,
    pub upper: u32,
    pub right: u32,
    pub lower: u32,
}

/// Adds a number of two bytes.
pub fn put_short(out: &mut Bytes, n: u16) -> Result<(), Memory>
    ensures { OnOk result (out.new ≡ out.old ++ two_bytes n) }
{
    out.push_all(&n.to_le_bytes())
}

/// Adds a number of four bytes.
pub fn put_long(out: &mut Bytes, n: u32) -> Result<(), Memory>
    ensures { OnOk result (out.new ≡ out.old ++ four_bytes n) }
{
    out.push_all(&n.to_le_bytes())
}

fn put_coordinate(out: &mut Bytes, n: u32) -> Result<(), Memory>
    ensures { OnOk result (out.new ≡ out.old ++ coordinate (pos n)) }
{
    put_long(out, n)
}

/// Adds a point.
pub fn put_place(out: &mut Bytes, p: Place) -> Result<(), Memory>
    ensures { OnOk result (out.new ≡ out.old ++ point (point_of p)) }
{
    put_coordinate(out, p.x)?;
    put_coordinate(out, p.y)
}

/// Adds a rectangle.
pub fn put_area(out: &mut Bytes, r: Area) -> Result<(), Memory>
    ensures { OnOk result (out.new ≡ out.old ++ rect (rect_of r)) }
{
    put_place(
        out,
        Place {
            x: r.left,
            y: r.upper,
        },
    )?;
    put_place(
        out,
        Place {
            x: r.right,
            y: r.lower,
        },
    )
}

/// Adds numbers of two bytes.
pub fn put_shorts(out: &mut Bytes, numbers: &[u8]) -> Result<(), Memory>
    ensures { OnOk result (out.new ≡ out.old ++ flat_map two_bytes numbers.now) }
{
    for number in numbers {
        put_short(out, u16::from(*number))?;
    }
    Ok(())
}
