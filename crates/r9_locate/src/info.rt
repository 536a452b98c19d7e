//! What an image tells of itself.
#![tactic(auto)]

use r9_chan::Chan;
use r9_geom::Rect;

/// The number of an image.
#[derive(Clone, Copy, PartialEq, Eq, Debug)]
pub struct ImageNo(pub u32);

/// What an image tells of itself (draw(3)). Rectangles are in pixels, in the image's own coordinates.
#[derive(Clone, Copy, PartialEq, Eq, Debug)]
pub struct Info {
    /// The points that the image has.
    pub r: Rect,
    /// Drawing on the image and reading from it stay within this rectangle.
    pub clipr: Rect,
    /// Whether the image is repeated in both directions where it is drawn from.
    pub repl: bool,
    /// The channels of its pixels.
    pub chan: Chan,
    /// The image that it is a window of.
    pub parent: Option<ImageNo>,
    /// How many windows deep it stands: 0 without a parent.
    pub depth: u32,
    /// How many windows stand on it.
    pub windows: u32,
}
