//! A window that comes in place of another, which goes then from where it stands: the definitions in `specs/`, and laws as
//! contracts of functions with no bodies.
#![tactic(auto)]

ghost use Rattle.std.specs.Prelude.{◌≡◌, ℕ, Bool, IsSome, None};
ghost use Rattle.r9_geom.specs.declared.Point.{Point as Spot};
ghost use Rattle.r9_geom.specs.declared.Rect.{Rect};
ghost use Rattle.model_forest.specs.Draw.{with_canvas};
ghost use Rattle.model_forest.specs.Steps.{after_release, after_replace, after_replace_on};
ghost use Rattle.model_forest.specs.World.{World, IsForest, IsLive, parent_of};
ghost use Rattle.model_exchanged.specs.exchanged.Exchanged.{after_put_on, after_put_under, LeavesUnseen};

/// The image that comes is that of a window that replaces the other, and once the other has gone all is as if that had moved
/// far outside before, whatever was drawn on the new one between.
pub fn goes_in_place()
    ensures under_same { (world : World) (i old : ℕ) (r : Rect) (corner : Spot) (raw : ℕ) (keep : Bool) → IsForest world → world i ≡ None → IsSome (parent_of world old) → after_put_under world i old r corner raw keep i ≡ after_replace world i old r corner raw keep i }
    ensures under { (world : World) (i old p : ℕ) (r : Rect) (corner : Spot) (raw : ℕ) (keep : Bool) → IsForest world → world i ≡ None → IsSome (parent_of world old) → LeavesUnseen world old p → after_release (after_put_under world i old r corner raw keep) old ≡ after_release (after_replace world i old r corner raw keep) old }
    ensures under_drawn { (world : World) (i old p : ℕ) (r : Rect) (corner : Spot) (raw : ℕ) (keep : Bool) (area : Spot → Bool) (new : Spot → ℕ) → IsForest world → world i ≡ None → IsSome (parent_of world old) → LeavesUnseen world old p → after_release (with_canvas (after_put_under world i old r corner raw keep) i area new) old ≡ after_release (with_canvas (after_replace world i old r corner raw keep) i area new) old }
    ensures on_same { (world : World) (i old p fill : ℕ) (r : Rect) (corner : Spot) (raw : ℕ) (keep : Bool) → IsForest world → world i ≡ None → IsSome (parent_of world old) → IsLive world p → after_put_on world i old p fill r corner raw keep i ≡ after_replace_on world i old p fill r corner raw keep i }
    ensures on { (world : World) (i old p fill : ℕ) (r : Rect) (corner : Spot) (raw : ℕ) (keep : Bool) → IsForest world → world i ≡ None → IsSome (parent_of world old) → IsLive world p → LeavesUnseen world old p → after_release (after_put_on world i old p fill r corner raw keep) old ≡ after_release (after_replace_on world i old p fill r corner raw keep) old }
    ensures on_drawn { (world : World) (i old p fill : ℕ) (r : Rect) (corner : Spot) (raw : ℕ) (keep : Bool) (area : Spot → Bool) (new : Spot → ℕ) → IsForest world → world i ≡ None → IsSome (parent_of world old) → IsLive world p → LeavesUnseen world old p → after_release (with_canvas (after_put_on world i old p fill r corner raw keep) i area new) old ≡ after_release (with_canvas (after_replace_on world i old p fill r corner raw keep) i area new) old }
{}
