//! Another list of the windows of an image: tiles are taken, pixels are moved to where they are kept then, and tiles given back.

ghost use Rattle.std.specs.Prelude.{◌≡◌, ◌^◌, ◌+◌, ◌*◌, ◌<◌, ◌≤◌, ◌&&◌, ◌||◌, ℕ, false, true, IsTrue, OnErr, OnOk, sum_by};
ghost use Rattle.r9_geom.specs.declared.Point.{Point as Spot};
ghost use Rattle.r9_geom.specs.Geometry.{area_of, holds, IsOrdered, IsRectNear};
ghost use Rattle.model_forest.specs.Stack.{with_windows};
ghost use Rattle.model_forest.specs.World.{image_at, no_rect, IsForest, IsLive};
ghost use Rattle.model_kept.specs.Keeping as kept;
ghost use Rattle.model_kept.specs.Keeping.{is_top, own, with_kept, Place};
ghost use Rattle.model_kept.specs.Restack.{with_list};
ghost use Rattle.r9_locate.specs.locate.Forms.{bits_in, forms_of};
ghost use Rattle.r9_locate.specs.locate.Table.{made, shape};
ghost use Rattle.r9_pixels.specs.Kept.{form_at, has_place, kept_at, moment, room_of, spare_in, wanted_in, writes, IsUnchanged};
ghost use Rattle.r9_pixels.specs.Places.{in_hidden, HasCells, HasGivenOff, HasTakenOff};
ghost use Rattle.r9_region.specs.Region.{covers};
ghost use Rattle.r9_restack.specs.Areas.{AreApartIn};
ghost use Rattle.r9_restack.specs.Moving.{IsReordering, IsSameTop};
ghost use Rattle.r9_restack.specs.Stacks.{IsFront};
ghost use Rattle.r9_relist.specs.relist.Leaving.{HasFill, HasPlaceOf};
ghost use Rattle.r9_relist.specs.relist.Relisting.{meet_from, HasOtherCells, HasPlacesBefore, IsAsBefore, IsAway, IsRelisting};

use model_forest::Window;
use r9_geom::{Point, Rect};
use r9_locate::locate::{Lists, place_among};
use r9_marks::steps::Steps;
use r9_memory::Memory;
use r9_pixels::KeptPixels;
use r9_restack::{Source, conceal, count_front, disclose, reorder, restack};
use std::sync::ledger::Ledger;

// A rectangle of no points.
fn no_points(min: Point) -> Rect
    ensures { result ≡ record { min = min; max = min } }
{
    Rect { min, max: min }
}

/// The points of both rectangles, where none are those of no points at the first one's min.
pub fn common(a: &Rect, b: &Rect) -> Rect
    requires near { IsRectNear a.now }
    requires also { IsRectNear b.now }
    ensures value { result ≡ meet_from a.now b.now }
    ensures near { IsRectNear result }
    ensures ordered { IsOrdered result }
    ensures points { (p : Spot) → holds result p ≡ (holds a.now p && holds b.now p) }
    ensures fewer { IsOrdered a.now → area_of result ≤ area_of a.now }
{
    let both = a.meet(b);
    if both.is_empty() {
        return Rect {
            min: a.min,
            max: a.min,
        };
    }
    both
}

/// Makes room for the tiles of all cells that image p hides with another list of its windows, in which one of them moves, and that
/// have none.
pub fn reserve_move(
    lists: &Lists,
    pixels: &mut KeptPixels,
    p: u32,
    w: u32,
    list: &[Window],
) -> Result<(), Memory>
    requires change { IsRelisting (shape lists.now) p w list.now }
    requires forms { form_at pixels.old ≡ forms_of (shape lists.now) }
    requires cells { HasCells (shape lists.now) (has_place pixels.old) }
    ensures spare { OnOk result (wanted_in pixels.new (shape lists.now) p list.now ≤ spare_in pixels.new) }
    ensures kept { IsUnchanged pixels.old pixels.new }
    ensures room { room_of pixels.new ≡ room_of pixels.old }
    ensures err { OnErr result (spare_in pixels.new ≡ spare_in pixels.old) }
{
    let from = count_front(&lists.get(p).windows, list, w);
    pixels.reserve_hidden(lists, p, list, from, &[place_among(list, w)])
}

/// Gives back the tiles that another list of the windows of an image asks for no more, and sets it. Cells that meet none of the
/// areas have no such tile, nor have those of the windows before `from`. It takes no memory.
pub fn settle(
    lists: &mut Lists,
    pixels: &mut KeptPixels,
    p: u32,
    list: Vec<Window>,
    from: usize,
    areas: &[Rect],
)
    requires live { IsLive (shape lists.old) p }
    requires forms { form_at pixels.old ≡ forms_of (shape lists.old) }
    requires forest { IsForest (with_list (shape lists.old) p list.items) }
    requires others { HasOtherCells (shape lists.old) p (has_place pixels.old) }
    requires hidden { (place : Place) → in_hidden (shape lists.old) p list.items place ≡ true → has_place pixels.old place ≡ true }
    requires still { HasGivenOff (shape lists.old) p list.items from areas.now (has_place pixels.old) }
    ensures lists { shape lists.new ≡ with_list (shape lists.old) p list.items }
    ensures made { made lists.new ≡ made lists.old }
    ensures kept { with_kept (shape lists.new) (kept_at pixels.new) ≡ with_kept (shape lists.new) (kept_at pixels.old) }
    ensures spare { spare_in pixels.old ≤ spare_in pixels.new }
    ensures cells { HasCells (shape lists.new) (has_place pixels.new) }
    ensures forms { form_at pixels.new ≡ forms_of (shape lists.new) }
    ensures moment { moment pixels.new ≡ moment pixels.old }
    ensures writes { writes pixels.new ≡ writes pixels.old }
{
    pixels.give_shown(lists, p, &list, from, areas);
    let _ = lists.set_windows(p, list);
}

// Takes tiles for what another list of windows hides, and moves the pixels to where they are kept with it.
fn move_pixels<S: Source, L: Ledger>(
    lists: &Lists,
    pixels: &mut KeptPixels,
    source: &S,
    p: u32,
    w: u32,
    new: &[Window],
    from: usize,
    area: &Rect,
    areas: &[Rect],
    steps: &mut Steps<L>,
)
    requires change { IsRelisting (shape lists.now) p w new.now }
    requires forms { form_at pixels.old ≡ forms_of (shape lists.now) }
    requires places { HasPlacesBefore (shape lists.now) p w (has_place pixels.old) }
    requires spare { wanted_in pixels.old (shape lists.now) p new.now ≤ spare_in pixels.old }
    requires front { IsFront (image_at (shape lists.now) p).windows new.now w from }
    requires still { HasTakenOff (shape lists.now) p new.now from areas.now (has_place pixels.old) }
    requires near { IsRectNear area.now }
    requires ordered { IsOrdered area.now }
    requires inside { (z : Spot) → IsTrue (holds area.now z) → IsTrue (holds (image_at (shape lists.now) p).r z) }
    requires place { HasPlaceOf (shape lists.now) p w area.now }
    requires given { (x : Spot) → S.given source.now x < 2 ^ bits_in (form_at pixels.old) p }
    requires fill { (z : Spot) → S.fill source.now z < 2 ^ bits_in (form_at pixels.old) p }
    ensures moved { (before : Place → ℕ) → IsAsBefore (shape lists.now) p w new.now (S.given source.now) (S.fill source.now) (kept_at pixels.old) before → with_kept (with_list (shape lists.now) p new.now) (kept_at pixels.new) ≡ with_windows (with_kept (shape lists.now) before) p new.now }
    ensures spare { spare_in pixels.old ≤ spare_in pixels.new + wanted_in pixels.old (shape lists.now) p new.now }
    ensures others { HasOtherCells (shape lists.now) p (has_place pixels.new) }
    ensures has { (place : Place) → has_place pixels.new place ≡ (has_place pixels.old place || in_hidden (shape lists.now) p new.now place) }
    ensures forms { form_at pixels.new ≡ forms_of (shape lists.now) }
    ensures steps { steps.new ≤ steps.old + 2 * area_of area.now + 2 * area_of (image_at (shape lists.now) w).r }
    ensures moment { moment pixels.new ≡ moment pixels.old }
    ensures writes { writes pixels.new + steps.old ≡ writes pixels.old + steps.new }
{
    pixels.take_hidden(lists, p, new, from, areas);
    restack(lists, pixels, source, p, w, new, from, area, steps);
}

/// Gives an image another list of windows, in which one of them comes or moves, whose pixels are given, as are those that fill
/// what becomes bare. The area is that where it stood: at most two pixels are written for each point of it, and two for each of
/// the window. Tiles for all cells that are hidden then are spare. It takes no memory.
pub fn relist<S: Source, L: Ledger>(
    lists: &mut Lists,
    pixels: &mut KeptPixels,
    source: &S,
    p: u32,
    w: u32,
    list: Vec<Window>,
    area: &Rect,
    steps: &mut Steps<L>,
)
    requires change { IsRelisting (shape lists.old) p w list.items }
    requires forms { form_at pixels.old ≡ forms_of (shape lists.old) }
    requires places { HasPlacesBefore (shape lists.old) p w (has_place pixels.old) }
    requires spare { wanted_in pixels.old (shape lists.old) p list.items ≤ spare_in pixels.old }
    requires near { IsRectNear area.now }
    requires ordered { IsOrdered area.now }
    requires inside { (z : Spot) → IsTrue (holds area.now z) → IsTrue (holds (image_at (shape lists.old) p).r z) }
    requires place { HasPlaceOf (shape lists.old) p w area.now }
    requires given { (x : Spot) → S.given source.now x < 2 ^ bits_in (form_at pixels.old) p }
    requires fill { (z : Spot) → S.fill source.now z < 2 ^ bits_in (form_at pixels.old) p }
    ensures lists { shape lists.new ≡ with_list (shape lists.old) p list.items }
    ensures made { made lists.new ≡ made lists.old }
    ensures world { (before : Place → ℕ) → IsAsBefore (shape lists.old) p w list.items (S.given source.now) (S.fill source.now) (kept_at pixels.old) before → with_kept (shape lists.new) (kept_at pixels.new) ≡ with_windows (with_kept (shape lists.old) before) p list.items }
    ensures spare { spare_in pixels.old ≤ spare_in pixels.new + wanted_in pixels.old (shape lists.old) p list.items }
    ensures cells { HasCells (shape lists.new) (has_place pixels.new) }
    ensures forms { form_at pixels.new ≡ forms_of (shape lists.new) }
    ensures steps { steps.new ≤ steps.old + 2 * area_of area.now + 2 * area_of (image_at (shape lists.old) w).r }
    ensures moment { moment pixels.new ≡ moment pixels.old }
    ensures writes { writes pixels.new + steps.old ≡ writes pixels.old + steps.new }
{
    let from = count_front(&lists.get(p).windows, &list, w);
    let place = place_among(&list, w);
    move_pixels(
        lists,
        pixels,
        source,
        p,
        w,
        &list,
        from,
        area,
        &[place],
        steps,
    );
    settle(lists, pixels, p, list, from, &[*area, place]);
}

/// Gives an image another list of windows, in which one of them comes, whose pixels are given. At most two pixels are written for
/// each point of the window, which has no tile yet. Both lists begin with the same windows up to `from`. Tiles for all cells that
/// are hidden then are spare, and none is given back. It takes no memory.
pub fn add<S: Source, L: Ledger>(
    lists: &mut Lists,
    pixels: &mut KeptPixels,
    source: &S,
    p: u32,
    w: Window,
    list: Vec<Window>,
    from: usize,
    steps: &mut Steps<L>,
)
    requires front { IsFront (image_at (shape lists.old) p).windows list.items w.image from }
    requires change { IsRelisting (shape lists.old) p w.image list.items }
    requires forms { form_at pixels.old ≡ forms_of (shape lists.old) }
    requires places { HasPlacesBefore (shape lists.old) p w.image (has_place pixels.old) }
    requires stands { kept.place_among list.items w.image ≡ w.place }
    requires came { kept.place_among (image_at (shape lists.old) p).windows w.image ≡ no_rect }
    requires bare { (x : Spot) → has_place pixels.old (own w.image x) ≡ false }
    requires spare { wanted_in pixels.old (shape lists.old) p list.items ≤ spare_in pixels.old }
    requires given { (x : Spot) → S.given source.now x < 2 ^ bits_in (form_at pixels.old) p }
    requires fill { (z : Spot) → S.fill source.now z < 2 ^ bits_in (form_at pixels.old) p }
    ensures lists { shape lists.new ≡ with_list (shape lists.old) p list.items }
    ensures made { made lists.new ≡ made lists.old }
    ensures world { (before : Place → ℕ) → IsAsBefore (shape lists.old) p w.image list.items (S.given source.now) (S.fill source.now) (kept_at pixels.old) before → with_kept (shape lists.new) (kept_at pixels.new) ≡ with_windows (with_kept (shape lists.old) before) p list.items }
    ensures spare { spare_in pixels.old ≤ spare_in pixels.new + wanted_in pixels.old (shape lists.old) p list.items }
    ensures cells { HasCells (shape lists.new) (has_place pixels.new) }
    ensures forms { form_at pixels.new ≡ forms_of (shape lists.new) }
    ensures steps { steps.new ≤ steps.old + 2 * area_of (image_at (shape lists.old) w.image).r }
    ensures moment { moment pixels.new ≡ moment pixels.old }
    ensures writes { writes pixels.new + steps.old ≡ writes pixels.old + steps.new }
{
    // It stood nowhere before.
    let area = no_points(w.place.min);
    let areas = [w.place];
    move_pixels(
        lists, pixels, source, p, w.image, &list, from, &area, &areas, steps,
    );
    // None is given back.
    let count = list.len();
    settle(lists, pixels, p, list, count, &[area]);
}

// Takes tiles for what another list of windows hides, in which one of them moves to where nothing of it shows, and moves the pixels
// to where they are kept with it. With how many windows both lists begin.
fn conceal_pixels<S: Source, L: Ledger>(
    lists: &Lists,
    pixels: &mut KeptPixels,
    source: &S,
    p: u32,
    w: u32,
    new: &[Window],
    area: &Rect,
    steps: &mut Steps<L>,
) -> usize
    requires change { IsRelisting (shape lists.now) p w new.now }
    requires before { IsForest (shape lists.now) }
    requires hidden { (z : Spot) → IsTrue (holds (image_at (shape lists.now) p).r z) → is_top new.now w z ≡ false }
    requires forms { form_at pixels.old ≡ forms_of (shape lists.now) }
    requires cells { HasCells (shape lists.now) (has_place pixels.old) }
    requires spare { wanted_in pixels.old (shape lists.now) p new.now ≤ spare_in pixels.old }
    requires near { IsRectNear area.now }
    requires ordered { IsOrdered area.now }
    requires inside { (z : Spot) → IsTrue (holds area.now z) → IsTrue (holds (image_at (shape lists.now) p).r z) }
    requires place { HasPlaceOf (shape lists.now) p w area.now }
    requires fill { (z : Spot) → S.fill source.now z < 2 ^ bits_in (form_at pixels.old) p }
    requires fills { HasFill (shape lists.now) p w (kept_at pixels.old) (S.fill source.now) }
    ensures front { IsFront (image_at (shape lists.now) p).windows new.now w result }
    ensures moved { with_kept (with_list (shape lists.now) p new.now) (kept_at pixels.new) ≡ with_windows (with_kept (shape lists.now) (kept_at pixels.old)) p new.now }
    ensures others { HasOtherCells (shape lists.now) p (has_place pixels.new) }
    ensures has { (place : Place) → has_place pixels.new place ≡ (has_place pixels.old place || in_hidden (shape lists.now) p new.now place) }
    ensures forms { form_at pixels.new ≡ forms_of (shape lists.now) }
    ensures steps { steps.new ≤ steps.old + 2 * area_of area.now }
    ensures moment { moment pixels.new ≡ moment pixels.old }
    ensures writes { writes pixels.new + steps.old ≡ writes pixels.old + steps.new }
{
    let from = count_front(&lists.get(p).windows, new, w);
    let place = place_among(new, w);
    pixels.take_hidden(lists, p, new, from, &[place]);
    conceal(lists, pixels, source, p, new, from, area, steps);
    from
}

/// Gives an image another list of windows, in which one of them moves to where nothing of it shows: what it showed is kept with it
/// then. Pixels that fill what becomes bare are given. The area is that where it stood: at most two pixels are written for each
/// point of it. Tiles for all cells that are hidden then are spare. It takes no memory.
pub fn hide<S: Source, L: Ledger>(
    lists: &mut Lists,
    pixels: &mut KeptPixels,
    source: &S,
    p: u32,
    w: u32,
    list: Vec<Window>,
    area: &Rect,
    steps: &mut Steps<L>,
)
    requires change { IsRelisting (shape lists.old) p w list.items }
    requires before { IsForest (shape lists.old) }
    requires hidden { (z : Spot) → IsTrue (holds (image_at (shape lists.old) p).r z) → is_top list.items w z ≡ false }
    requires forms { form_at pixels.old ≡ forms_of (shape lists.old) }
    requires cells { HasCells (shape lists.old) (has_place pixels.old) }
    requires spare { wanted_in pixels.old (shape lists.old) p list.items ≤ spare_in pixels.old }
    requires near { IsRectNear area.now }
    requires ordered { IsOrdered area.now }
    requires inside { (z : Spot) → IsTrue (holds area.now z) → IsTrue (holds (image_at (shape lists.old) p).r z) }
    requires place { HasPlaceOf (shape lists.old) p w area.now }
    requires fill { (z : Spot) → S.fill source.now z < 2 ^ bits_in (form_at pixels.old) p }
    requires fills { HasFill (shape lists.old) p w (kept_at pixels.old) (S.fill source.now) }
    ensures lists { shape lists.new ≡ with_list (shape lists.old) p list.items }
    ensures made { made lists.new ≡ made lists.old }
    ensures world { with_kept (shape lists.new) (kept_at pixels.new) ≡ with_windows (with_kept (shape lists.old) (kept_at pixels.old)) p list.items }
    ensures cells { HasCells (shape lists.new) (has_place pixels.new) }
    ensures forms { form_at pixels.new ≡ forms_of (shape lists.new) }
    ensures steps { steps.new ≤ steps.old + 2 * area_of area.now }
    ensures moment { moment pixels.new ≡ moment pixels.old }
    ensures writes { writes pixels.new + steps.old ≡ writes pixels.old + steps.new }
{
    let from = conceal_pixels(lists, pixels, source, p, w, &list, area, steps);
    settle(lists, pixels, p, list, from, &[*area]);
}

// Takes tiles for what another list of windows hides, in which one of them moves from where it is not seen, and moves the pixels to
// where they are kept with it. With how many windows both lists begin.
fn disclose_pixels<S: Source, L: Ledger>(
    lists: &Lists,
    pixels: &mut KeptPixels,
    source: &S,
    p: u32,
    w: u32,
    new: &[Window],
    place: &Rect,
    steps: &mut Steps<L>,
) -> usize
    requires change { IsRelisting (shape lists.now) p w new.now }
    requires before { IsForest (shape lists.now) }
    requires away { IsAway (shape lists.now) p w new.now }
    requires stands { place.now ≡ kept.place_among new.now w }
    requires forms { form_at pixels.old ≡ forms_of (shape lists.now) }
    requires cells { HasCells (shape lists.now) (has_place pixels.old) }
    requires spare { wanted_in pixels.old (shape lists.now) p new.now ≤ spare_in pixels.old }
    requires fill { (z : Spot) → S.fill source.now z < 2 ^ bits_in (form_at pixels.old) p }
    ensures front { IsFront (image_at (shape lists.now) p).windows new.now w result }
    ensures moved { with_kept (with_list (shape lists.now) p new.now) (kept_at pixels.new) ≡ with_windows (with_kept (shape lists.now) (kept_at pixels.old)) p new.now }
    ensures others { HasOtherCells (shape lists.now) p (has_place pixels.new) }
    ensures has { (place : Place) → has_place pixels.new place ≡ (has_place pixels.old place || in_hidden (shape lists.now) p new.now place) }
    ensures forms { form_at pixels.new ≡ forms_of (shape lists.now) }
    ensures steps { steps.new ≤ steps.old + 2 * area_of (image_at (shape lists.now) w).r }
    ensures moment { moment pixels.new ≡ moment pixels.old }
    ensures writes { writes pixels.new + steps.old ≡ writes pixels.old + steps.new }
{
    let from = count_front(&lists.get(p).windows, new, w);
    pixels.take_hidden(lists, p, new, from, &[*place]);
    let area = common(place, &lists.get(p).r);
    disclose(lists, pixels, source, p, new, from, &area, steps);
    from
}

/// Gives an image another list of windows, in which one of them moves from where the image has no point: what shows of it then comes
/// from where it was kept with it. At most two pixels are written for each point of the window. Nothing becomes bare: that which
/// fills is not asked for. Tiles for all cells that are hidden then are spare. It takes no memory.
pub fn unhide<S: Source, L: Ledger>(
    lists: &mut Lists,
    pixels: &mut KeptPixels,
    source: &S,
    p: u32,
    w: u32,
    list: Vec<Window>,
    steps: &mut Steps<L>,
)
    requires change { IsRelisting (shape lists.old) p w list.items }
    requires before { IsForest (shape lists.old) }
    requires away { IsAway (shape lists.old) p w list.items }
    requires forms { form_at pixels.old ≡ forms_of (shape lists.old) }
    requires cells { HasCells (shape lists.old) (has_place pixels.old) }
    requires spare { wanted_in pixels.old (shape lists.old) p list.items ≤ spare_in pixels.old }
    requires fill { (z : Spot) → S.fill source.now z < 2 ^ bits_in (form_at pixels.old) p }
    ensures lists { shape lists.new ≡ with_list (shape lists.old) p list.items }
    ensures made { made lists.new ≡ made lists.old }
    ensures world { with_kept (shape lists.new) (kept_at pixels.new) ≡ with_windows (with_kept (shape lists.old) (kept_at pixels.old)) p list.items }
    ensures cells { HasCells (shape lists.new) (has_place pixels.new) }
    ensures forms { form_at pixels.new ≡ forms_of (shape lists.new) }
    ensures steps { steps.new ≤ steps.old + 2 * area_of (image_at (shape lists.old) w).r }
    ensures moment { moment pixels.new ≡ moment pixels.old }
    ensures writes { writes pixels.new + steps.old ≡ writes pixels.old + steps.new }
{
    let place = place_among(&list, w);
    let from = disclose_pixels(lists, pixels, source, p, w, &list, &place, steps);
    settle(lists, pixels, p, list, from, &[place]);
}

// Takes tiles for what another order of windows hides, and moves the pixels to where they are kept with it.
fn order_pixels<L: Ledger>(
    lists: &Lists,
    pixels: &mut KeptPixels,
    p: u32,
    new: &[Window],
    areas: &[Rect],
    steps: &mut Steps<L>,
)
    requires order { IsReordering (shape lists.now) p new.now }
    requires areas { AreApartIn (image_at (shape lists.now) p).r areas.now }
    requires outside { (z : Spot) → IsTrue (holds (image_at (shape lists.now) p).r z) → covers areas.now z ≡ false → IsSameTop (shape lists.now) p new.now z }
    requires before { IsForest (shape lists.now) }
    requires forest { IsForest (with_list (shape lists.now) p new.now) }
    requires forms { form_at pixels.old ≡ forms_of (shape lists.now) }
    requires cells { HasCells (shape lists.now) (has_place pixels.old) }
    requires spare { wanted_in pixels.old (shape lists.now) p new.now ≤ spare_in pixels.old }
    requires still { HasTakenOff (shape lists.now) p new.now 0 areas.now (has_place pixels.old) }
    ensures moved { with_kept (with_list (shape lists.now) p new.now) (kept_at pixels.new) ≡ with_windows (with_kept (shape lists.now) (kept_at pixels.old)) p new.now }
    ensures others { HasOtherCells (shape lists.now) p (has_place pixels.new) }
    ensures has { (place : Place) → has_place pixels.new place ≡ (has_place pixels.old place || in_hidden (shape lists.now) p new.now place) }
    ensures forms { form_at pixels.new ≡ forms_of (shape lists.now) }
    ensures steps { steps.new ≤ steps.old + 2 * sum_by area_of areas.now }
    ensures moment { moment pixels.new ≡ moment pixels.old }
    ensures writes { writes pixels.new + steps.old ≡ writes pixels.old + steps.new }
{
    pixels.take_hidden(lists, p, new, 0, areas);
    reorder(lists, pixels, p, new, areas, steps);
}

/// Gives an image its windows in another order, at the same places. Tiles for all cells that are hidden then are spare. It
/// takes no memory.
pub fn reorder_windows<L: Ledger>(
    lists: &mut Lists,
    pixels: &mut KeptPixels,
    p: u32,
    list: Vec<Window>,
    areas: &[Rect],
    steps: &mut Steps<L>,
)
    requires order { IsReordering (shape lists.old) p list.items }
    requires areas { AreApartIn (image_at (shape lists.old) p).r areas.now }
    requires outside { (z : Spot) → IsTrue (holds (image_at (shape lists.old) p).r z) → covers areas.now z ≡ false → IsSameTop (shape lists.old) p list.items z }
    requires before { IsForest (shape lists.old) }
    requires forest { IsForest (with_list (shape lists.old) p list.items) }
    requires forms { form_at pixels.old ≡ forms_of (shape lists.old) }
    requires cells { HasCells (shape lists.old) (has_place pixels.old) }
    requires spare { wanted_in pixels.old (shape lists.old) p list.items ≤ spare_in pixels.old }
    ensures lists { shape lists.new ≡ with_list (shape lists.old) p list.items }
    ensures made { made lists.new ≡ made lists.old }
    ensures world { with_kept (shape lists.new) (kept_at pixels.new) ≡ with_windows (with_kept (shape lists.old) (kept_at pixels.old)) p list.items }
    ensures cells { HasCells (shape lists.new) (has_place pixels.new) }
    ensures forms { form_at pixels.new ≡ forms_of (shape lists.new) }
    ensures steps { steps.new ≤ steps.old + 2 * sum_by area_of areas.now }
    ensures moment { moment pixels.new ≡ moment pixels.old }
    ensures writes { writes pixels.new + steps.old ≡ writes pixels.old + steps.new }
{
    order_pixels(lists, pixels, p, &list, areas, steps);
    settle(lists, pixels, p, list, 0, areas);
}
