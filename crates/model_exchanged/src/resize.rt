//! An image that stands nowhere gets another size while its windows stay: the definition in `specs/`, and laws as contracts of
//! functions with no bodies.
#![tactic(auto)]

ghost use Rattle.std.specs.Prelude.{◌≡◌, ◌≢◌, ◌<◌, ◌^◌, ℕ, true, if◌then◌else◌};
ghost use Rattle.std.specs.Option.{option_map_or};
ghost use Rattle.r9_geom.specs.Geometry.{holds};
ghost use Rattle.r9_geom.specs.declared.Point.{Point as Spot};
ghost use Rattle.model_pixel.specs.Channels as channels;
ghost use Rattle.model_forest.specs.World.{World, IsForest, IsLive, image_at};
ghost use Rattle.model_forest.specs.View.{inward, top_window, view};
ghost use Rattle.model_exchanged.specs.resize.Resize.{after_resize, sized, CanResize};

/// It is a world of images then.
pub fn keeps_forest()
    ensures { (world : World) (i width height raw : ℕ) → IsForest world → CanResize world i → width < 2 ^ 32 → height < 2 ^ 32 → raw < 2 ^ channels.depth (image_at world i).chan → IsForest (after_resize world i width height raw) }
{}

/// The other images show what they showed.
pub fn keeps_other_views()
    ensures { (world : World) (i width height raw n : ℕ) (p : Spot) → IsForest world → CanResize world i → IsLive world n → n ≢ i → view (after_resize world i width height raw) n p ≡ view world n p }
{}

/// The image shows what it showed at the points that it had, and at each other one the topmost window there, or the raw pixel.
pub fn own_view()
    ensures { (world : World) (i width height raw : ℕ) (p : Spot) → IsForest world → CanResize world i → width < 2 ^ 32 → height < 2 ^ 32 → raw < 2 ^ channels.depth (image_at world i).chan → holds (sized width height) p ≡ true → view (after_resize world i width height raw) i p ≡ (if holds (image_at world i).r p then view world i p else option_map_or (λ w. view world w.image (inward world w p)) (top_window (image_at world i).windows p) raw) }
{}
