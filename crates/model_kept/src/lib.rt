//! Where the pixels of a world of images are kept, when each is kept once: definitions in `specs/`, and laws as contracts of
//! functions with no bodies.
#![tactic(auto)]

ghost use Rattle.std.specs.Prelude.{◌≡◌, ◌≢◌, ◌↔◌, ◌==◌, ℕ, Bool, false, true, List, None, Some, if◌then◌else◌};
ghost use Rattle.r9_geom.specs.Geometry.{holds};
ghost use Rattle.r9_geom.specs.declared.Point.{Point as Spot};
ghost use Rattle.model_forest.specs.World.{World, IsForest, IsLive, image_at, parent_of, with_image};
ghost use Rattle.model_forest.specs.View.{is_bare, view};
ghost use Rattle.model_kept.specs.Keeping.{keeping, with_kept, HasKept, HasOnePlaces, IsStanding, Place};
ghost use Rattle.model_kept.specs.Restack.{come_window, fill_of_top, listed_window, shifted_shape, with_list, with_own, with_shifted, IsAlone, IsPut, IsRestacked, SameButList};
ghost use Rattle.std.specs.List.{list_any};
ghost use Rattle.model_forest.specs.Draw.{with_canvas};
ghost use Rattle.model_forest.specs.Steps.{shifted_image};
ghost use Rattle.model_kept.specs.Cells.{hides_on, HasHidden};
ghost use Rattle.r9_geom.specs.declared.Rect.{Rect as Part};
ghost use Rattle.model_forest.specs.Stack.{after_window, with_windows};
ghost use Rattle.model_forest.specs.declared.Window.{Window as Stood};

/// Where each bare point is kept once, what an image shows at a point of it is what is kept for that point.
pub fn kept_is_view()
    ensures { (world : World) (kept : Place → ℕ) (i : ℕ) (p : Spot) → IsStanding world → HasOnePlaces world → HasKept world kept → IsLive world i → holds (image_at world i).r p ≡ true → view world i p ≡ kept (keeping world i p) }
{}

/// Two bare pixels that are kept at one place are one: a write at the place of one changes no other.
pub fn kept_apart()
    ensures { (world : World) (i j : ℕ) (p q : Spot) → IsStanding world → HasOnePlaces world → IsLive world i → IsLive world j → is_bare (image_at world i).windows p ≡ true → is_bare (image_at world j).windows q ≡ true → keeping world i p ≡ keeping world j q → (i ≡ j) × (p ≡ q) }
{}

/// When the list of image p has changed and the pixels are moved to where they are kept then, the pixels of every image are
/// there: those of the others as they were, and those of p itself as they were or filled where a window was.
pub fn restacked()
    ensures others { (old new : World) (p : ℕ) (before after : Place → ℕ) (fill : Spot → ℕ) (n : ℕ) (y : Spot) → SameButList old new p → IsStanding new → HasOnePlaces new → IsLive new p → IsRestacked old new p before after fill → n ≢ p → IsLive new n → holds (image_at new n).r y ≡ true → is_bare (image_at new n).windows y ≡ true → after (keeping new n y) ≡ before (keeping old n y) }
    ensures list { (old new : World) (p : ℕ) (before after : Place → ℕ) (fill : Spot → ℕ) (q : Spot) → SameButList old new p → IsStanding new → HasOnePlaces new → IsLive new p → IsRestacked old new p before after fill → holds (image_at new p).r q ≡ true → is_bare (image_at new p).windows q ≡ true → after (keeping new p q) ≡ (if is_bare (image_at old p).windows q then before (keeping old p q) else fill q) }
{}

/// And so the world whose pixels are moved so is the world after the change of the list.
pub fn restacked_world()
    ensures { (shape : World) (p : ℕ) (ws : List Stood) (before after : Place → ℕ) → IsLive shape p → IsStanding (with_list shape p ws) → HasOnePlaces (with_list shape p ws) → IsRestacked shape (with_list shape p ws) p before after (fill_of_top (with_kept shape before) p) → with_kept (with_list shape p ws) after ≡ with_windows (with_kept shape before) p ws }
{}

/// What is asked of where images stand holds in each world of images, and each window has one place there.
pub fn stands()
    ensures standing { (world : World) → IsForest world → IsStanding world }
    ensures places { (world : World) → IsForest world → HasOnePlaces world }
{}

/// A part of a window has a hidden point exactly where it is not all within its parent or a window above stands over it.
pub fn hidden_parts()
    ensures { (world : World) (p i : ℕ) (part : Part) → IsForest world → parent_of world i ≡ Some p → ((x : Spot) → holds part x ≡ true → holds (image_at world i).r x ≡ true) → hides_on world p i part ≡ true ↔ HasHidden world i part }
{}

/// A window that comes: its pixels are where they are kept, and the world is the one after it was made.
pub fn window_made()
    ensures { (shape : World) (kept after : Place → ℕ) (i parent fill : ℕ) (r : Part) (raw : ℕ) → IsLive shape parent → parent ≢ i → IsAlone shape i → list_any (λ w. w.image == i) (image_at shape parent).windows ≡ false → IsStanding (listed_window shape kept i parent fill r raw) → HasOnePlaces (listed_window shape kept i parent fill r raw) → IsRestacked (come_window shape kept i parent fill r raw) (listed_window shape kept i parent fill r raw) parent (with_own i (λ _. raw) kept) after (fill_of_top (with_kept (come_window shape kept i parent fill r raw) (with_own i (λ _. raw) kept)) parent) → with_kept (listed_window shape kept i parent fill r raw) after ≡ after_window (with_kept shape kept) i parent fill r raw }
{}

/// An image that goes out of a list and then altogether: of its own pixels nothing is asked.
pub fn released()
    ensures { (shape : World) (kept after : Place → ℕ) (i parent : ℕ) (pixels : Spot → ℕ) (ws : List Stood) → IsLive shape parent → IsAlone (with_list shape parent ws) i → IsStanding (with_list shape parent ws) → HasOnePlaces (with_list shape parent ws) → IsRestacked shape (with_list shape parent ws) parent kept (with_own i pixels after) (fill_of_top (with_kept shape kept) parent) → with_kept (with_image (with_list shape parent ws) i None) after ≡ with_image (with_windows (with_kept shape kept) parent ws) i None }
{}

/// An image that gets another min in its own coordinates: only its own pixels are told by other points.
pub fn shifted()
    ensures { (shape : World) (i : ℕ) (min : Spot) (kept : Place → ℕ) → IsStanding shape → IsLive shape i → ((n : ℕ) → parent_of shape n ≡ Some i → list_any (λ w. w.image == n) (image_at shape i).windows ≡ true) → with_kept (shifted_shape shape i min) (with_shifted i (image_at shape i).r.min min kept) ≡ with_image (with_kept shape kept) i (Some (shifted_image (image_at (with_kept shape kept) i) min)) }
{}

/// Pixels that are put on an image where they are kept, at its bare points: what drawing and loading do.
pub fn put()
    ensures { (shape : World) (i : ℕ) (area : Spot → Bool) (pixels : Spot → ℕ) (before after : Place → ℕ) → IsStanding shape → HasOnePlaces shape → IsLive shape i → ((p : Spot) → area p ≡ true → holds (image_at shape i).r p ≡ true) → IsPut shape i area pixels before after → with_kept shape after ≡ with_canvas (with_kept shape before) i area pixels }
{}
