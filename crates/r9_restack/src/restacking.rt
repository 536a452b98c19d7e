//! All the pixels moved when one of the windows of an image comes or moves.

ghost use Rattle.std.specs.Prelude.{◌≡◌, ◌^◌, ◌≢◌, ◌+◌, ◌++◌, ◌*◌, ◌<◌, ◌≤◌, ◌&&◌, ℕ, Bool, false, true, length, All, IsTrue, Some};
ghost use Rattle.r9_geom.specs.declared.Point.{Point as Spot};
ghost use Rattle.r9_geom.specs.Geometry.{area_of, carried, holds, IsNear, IsOrdered, IsRectNear};
ghost use Rattle.model_forest.specs.declared.Window.{Window as Stood};
ghost use Rattle.model_forest.specs.View.{top_window};
ghost use Rattle.model_forest.specs.World.{image_at, parent_of, IsLive};
ghost use Rattle.model_kept.specs.Keeping as kept;
ghost use Rattle.model_kept.specs.Keeping.{is_top, keeping, own, Place};
ghost use Rattle.model_kept.specs.Restack.{with_list, with_own, IsRestacked};
ghost use Rattle.r9_locate.specs.locate.Forms.{bits_in, HasBits};
ghost use Rattle.r9_locate.specs.locate.Table.{shape};
ghost use Rattle.r9_restack.specs.Changing.{HasPlacesBut, IsChange, IsConcealing, IsDisclosing, StaysTop};
ghost use Rattle.r9_restack.specs.Moving.{HasPlaces};
ghost use Rattle.r9_restack.specs.Placing.{shows};
ghost use Rattle.r9_restack.specs.Stacks.{IsFront};

use super::changing::{change, change_area};
use super::giving::Source;
use super::placing::place;
use super::stacks::stacks_of;
use model_forest::Window;
use r9_geom::Rect;
use r9_locate::locate::{Lists, Pixels, place_among};
use r9_marks::steps::Steps;
use std::sync::ledger::Ledger;

/// Moves all pixels to where they are kept when window w comes or moves: its own are given. Both lists begin with the same windows
/// up to `from`. The area has all points where it stood.
pub fn restack<P: Pixels, S: Source, L: Ledger>(
    lists: &Lists,
    pixels: &mut P,
    source: &S,
    p: u32,
    w: u32,
    new: &[Window],
    from: usize,
    area: &Rect,
    steps: &mut Steps<L>,
)
    requires front { IsFront (image_at (shape lists.now) p).windows new.now w from }
    requires change { IsChange (shape lists.now) p new.now w }
    requires above { parent_of (shape lists.now) w ≡ Some p }
    requires near { IsRectNear area.now }
    requires ordered { IsOrdered area.now }
    requires inside { (z : Spot) → IsTrue (holds area.now z) → IsTrue (holds (image_at (shape lists.now) p).r z) }
    requires outside { (z : Spot) → IsTrue (holds (image_at (shape lists.now) p).r z) → holds area.now z ≡ false → is_top new.now w z ≡ false → StaysTop (shape lists.now) p new.now w z }
    requires near_new { All (λ v. IsNear v.place.min) new.now }
    requires places { HasPlacesBut (shape lists.now) p new.now w (P.has pixels.old) }
    requires bits { HasBits (shape lists.now) (P.forms pixels.old) }
    requires given { (x : Spot) → S.given source.now x < 2 ^ bits_in (P.forms pixels.old) p }
    requires fill { (z : Spot) → S.fill source.now z < 2 ^ bits_in (P.forms pixels.old) p }
    requires live { IsLive (shape lists.now) w }
    requires own_ordered { IsOrdered (image_at (shape lists.now) w).r }
    requires corner { IsNear (kept.place_among new.now w).min }
    requires stands { (z : Spot) → IsTrue (holds (image_at (shape lists.now) w).r z) → IsNear (carried z (image_at (shape lists.now) w).r.min (kept.place_among new.now w).min) }
    requires own_places { (z : Spot) → IsTrue (holds (image_at (shape lists.now) w).r z) → shows (image_at (shape lists.now) p).r new.now w (carried z (image_at (shape lists.now) w).r.min (kept.place_among new.now w).min) ≡ false → P.has pixels.old (own w z) ≡ true }
    ensures moved { (as_before : Place → ℕ) → ((place : Place) → place.image ≢ w → as_before place ≡ P.kept pixels.old place) → ((x : Spot) → holds (image_at (shape lists.now) w).r x ≡ true → as_before (keeping (shape lists.now) w x) ≡ S.given source.now x) → IsRestacked (shape lists.now) (with_list (shape lists.now) p new.now) p as_before (P.kept pixels.new) (S.fill source.now) }
    ensures has { P.has pixels.new ≡ P.has pixels.old }
    ensures forms { P.forms pixels.new ≡ P.forms pixels.old }
    ensures moment { P.moment pixels.new ≡ P.moment pixels.old }
    ensures spare { P.spare pixels.new ≡ P.spare pixels.old }
    ensures steps { steps.new ≤ steps.old + 2 * area_of area.now + 2 * area_of (image_at (shape lists.now) w).r }
    ensures writes { P.writes pixels.new + steps.old ≡ P.writes pixels.old + steps.new }
{
    let stacks = stacks_of(&lists.get(p).windows, new, from, w);
    change_area(lists, pixels, source, p, w, &stacks, area, steps);
    let r = lists.get(w).r;
    let corner = place_among(new, w).min;
    place(
        lists, pixels, source, p, w, &stacks, area, &r, corner, steps,
    );
}

/// Moves all pixels to where they are kept when window w leaves the list, which leaves two parts of it, the windows above it and those below: its own
/// are asked for by nothing then.
pub fn leave<P: Pixels, S: Source, L: Ledger>(
    lists: &Lists,
    pixels: &mut P,
    source: &S,
    p: u32,
    w: u32,
    upper: &[Window],
    lower: &[Window],
    area: &Rect,
    steps: &mut Steps<L>,
)
    requires front { IsFront (image_at (shape lists.now) p).windows upper.now w (length upper.now) }
    requires change { IsChange (shape lists.now) p (upper.now ++ lower.now) w }
    requires above { parent_of (shape lists.now) w ≡ Some p }
    requires gone { (z : Spot) (v : Stood) → top_window (upper.now ++ lower.now) z ≡ Some v → v.image ≢ w }
    requires near { IsRectNear area.now }
    requires ordered { IsOrdered area.now }
    requires inside { (z : Spot) → IsTrue (holds area.now z) → IsTrue (holds (image_at (shape lists.now) p).r z) }
    requires outside { (z : Spot) → IsTrue (holds (image_at (shape lists.now) p).r z) → holds area.now z ≡ false → StaysTop (shape lists.now) p (upper.now ++ lower.now) w z }
    requires near_new { All (λ v. IsNear v.place.min) (upper.now ++ lower.now) }
    requires places { HasPlacesBut (shape lists.now) p (upper.now ++ lower.now) w (P.has pixels.old) }
    requires bits { HasBits (shape lists.now) (P.forms pixels.old) }
    requires given { (x : Spot) → S.given source.now x < 2 ^ bits_in (P.forms pixels.old) p }
    requires fill { (z : Spot) → S.fill source.now z < 2 ^ bits_in (P.forms pixels.old) p }
    ensures moved { IsRestacked (shape lists.now) (with_list (shape lists.now) p (upper.now ++ lower.now)) p (P.kept pixels.old) (with_own w (λ x. P.kept pixels.old (keeping (shape lists.now) w x)) (P.kept pixels.new)) (S.fill source.now) }
    ensures has { P.has pixels.new ≡ P.has pixels.old }
    ensures forms { P.forms pixels.new ≡ P.forms pixels.old }
    ensures moment { P.moment pixels.new ≡ P.moment pixels.old }
    ensures spare { P.spare pixels.new ≡ P.spare pixels.old }
    ensures steps { steps.new ≤ steps.old + 2 * area_of area.now }
    ensures writes { P.writes pixels.new + steps.old ≡ P.writes pixels.old + steps.new }
{
    change(lists, pixels, source, p, w, upper, lower, area, steps);
}

/// Moves all pixels to where they are kept when a window of an image moves to where nothing of it shows: what showed of it is kept
/// with it, as that of any window that becomes hidden. Both lists begin with the same windows up to `from`.
pub fn conceal<P: Pixels, S: Source, L: Ledger>(
    lists: &Lists,
    pixels: &mut P,
    source: &S,
    p: u32,
    new: &[Window],
    from: usize,
    area: &Rect,
    steps: &mut Steps<L>,
)
    requires front { IsFront (image_at (shape lists.now) p).windows new.now p from }
    requires change { IsConcealing (shape lists.now) p new.now }
    requires near { IsRectNear area.now }
    requires ordered { IsOrdered area.now }
    requires inside { (z : Spot) → IsTrue (holds area.now z) → IsTrue (holds (image_at (shape lists.now) p).r z) }
    requires outside { (z : Spot) → IsTrue (holds (image_at (shape lists.now) p).r z) → holds area.now z ≡ false → StaysTop (shape lists.now) p new.now p z }
    requires near_new { All (λ v. IsNear v.place.min) new.now }
    requires places { HasPlaces (shape lists.now) p new.now (P.has pixels.old) }
    requires bits { HasBits (shape lists.now) (P.forms pixels.old) }
    requires fill { (z : Spot) → S.fill source.now z < 2 ^ bits_in (P.forms pixels.old) p }
    ensures moved { IsRestacked (shape lists.now) (with_list (shape lists.now) p new.now) p (P.kept pixels.old) (P.kept pixels.new) (S.fill source.now) }
    ensures has { P.has pixels.new ≡ P.has pixels.old }
    ensures forms { P.forms pixels.new ≡ P.forms pixels.old }
    ensures moment { P.moment pixels.new ≡ P.moment pixels.old }
    ensures spare { P.spare pixels.new ≡ P.spare pixels.old }
    ensures steps { steps.new ≤ steps.old + 2 * area_of area.now }
    ensures writes { P.writes pixels.new + steps.old ≡ P.writes pixels.old + steps.new }
{
    // No image is a window on itself: none of them is taken out.
    let stacks = stacks_of(&lists.get(p).windows, new, from, p);
    change_area(lists, pixels, source, p, p, &stacks, area, steps);
}

/// Moves all pixels to where they are kept when a window of an image moves from where it is not seen: what shows of it then comes
/// from where it was kept with it, as that of any window that was hidden. Both lists begin with the same windows up to `from`.
pub fn disclose<P: Pixels, S: Source, L: Ledger>(
    lists: &Lists,
    pixels: &mut P,
    source: &S,
    p: u32,
    new: &[Window],
    from: usize,
    area: &Rect,
    steps: &mut Steps<L>,
)
    requires front { IsFront (image_at (shape lists.now) p).windows new.now p from }
    requires change { IsDisclosing (shape lists.now) p new.now }
    requires near { IsRectNear area.now }
    requires ordered { IsOrdered area.now }
    requires inside { (z : Spot) → IsTrue (holds area.now z) → IsTrue (holds (image_at (shape lists.now) p).r z) }
    requires outside { (z : Spot) → IsTrue (holds (image_at (shape lists.now) p).r z) → holds area.now z ≡ false → StaysTop (shape lists.now) p new.now p z }
    requires near_new { All (λ v. IsNear v.place.min) new.now }
    requires places { HasPlaces (shape lists.now) p new.now (P.has pixels.old) }
    requires bits { HasBits (shape lists.now) (P.forms pixels.old) }
    requires fill { (z : Spot) → S.fill source.now z < 2 ^ bits_in (P.forms pixels.old) p }
    ensures moved { IsRestacked (shape lists.now) (with_list (shape lists.now) p new.now) p (P.kept pixels.old) (P.kept pixels.new) (S.fill source.now) }
    ensures has { P.has pixels.new ≡ P.has pixels.old }
    ensures forms { P.forms pixels.new ≡ P.forms pixels.old }
    ensures moment { P.moment pixels.new ≡ P.moment pixels.old }
    ensures spare { P.spare pixels.new ≡ P.spare pixels.old }
    ensures steps { steps.new ≤ steps.old + 2 * area_of area.now }
    ensures writes { P.writes pixels.new + steps.old ≡ P.writes pixels.old + steps.new }
{
    // No image is a window on itself: none of them is taken out.
    let stacks = stacks_of(&lists.get(p).windows, new, from, p);
    change_area(lists, pixels, source, p, p, &stacks, area, steps);
}
