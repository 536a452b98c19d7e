//! What images and windows are, as definitions in `specs/` over plain numbers, lists and functions (draw(2), draw(3)).
//! There is no code: the functions have laws as their contracts, and no bodies.
//!
//! `World` has images by number, each with the windows that stand on it; `View` what an image shows through them, and
//! `Paint` the same picture painted from back to front; `Draw` drawing and loading, and `Cost` the rectangle that a
//! drawing is about; `Stack` and `Steps` the other changes; `Numbers` which number an image gets.
#![tactic(auto)]

ghost use Rattle.std.specs.Prelude.{◌≡◌, ℕ, true};
ghost use Rattle.r9_geom.specs.Geometry.{holds};
ghost use Rattle.r9_geom.specs.declared.Point.{Point as Spot};
ghost use Rattle.model_forest.specs.World.{World, IsForest, IsLive, image_at};
ghost use Rattle.model_forest.specs.View.{view};
ghost use Rattle.model_forest.specs.Paint.{paint};
ghost use Rattle.model_forest.specs.Draw.{Drawing, in_area};
ghost use Rattle.model_forest.specs.Cost.{area};

use r9_geom::Rect;

/// An image that stands on another, by its number, and the rectangle of that other's coordinates that it takes.
#[derive(Clone, Copy, PartialEq, Eq, Debug)]
pub struct Window {
    pub image: u32,
    pub place: Rect,
}

/// Where an image stands as a window: the numbers of its parent, and of the image that fills what it uncovers.
#[derive(Clone, Copy, PartialEq, Eq, Debug)]
pub struct Standing {
    pub parent: u32,
    pub fill: u32,
}

/// At each point of each live image, painting all that stands on it from back to front gives what it shows.
pub fn paint_is_view()
    ensures { (world : World) (i : ℕ) (p : Spot) → IsForest world → IsLive world i → holds (image_at world i).r p ≡ true → paint world i p ≡ view world i p }
{}

/// The points that a drawing is about, by its conditions on each one, are those of a rectangle.
pub fn area_is_in_area()
    ensures { (world : World) (d : Drawing) (p : Spot) → holds (area world d) p ≡ in_area world d p }
{}
