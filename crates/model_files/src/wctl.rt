//! The commands for windows and what they ask for (rio(4)): the definitions that contracts of other crates cite.
#![tactic(auto)]

use r9_geom::Rect;

/// A number, or a change of the quantity so far.
#[derive(Clone, Copy, PartialEq, Eq, Debug)]
pub enum Amount {
    Is(i64),
    Plus(i64),
    Minus(i64),
}

/// An option that says something of a window's rectangle.
#[derive(Clone, Copy, PartialEq, Eq, Debug)]
pub enum Choice {
    /// The rectangle itself, in pixels of the display.
    R(Rect),
    /// The left, upper, right and lower edge.
    Minx(Amount),
    Miny(Amount),
    Maxx(Amount),
    Maxy(Amount),
    /// The width and the height, counted from the left and the upper edge.
    Dx(Amount),
    Dy(Amount),
}
