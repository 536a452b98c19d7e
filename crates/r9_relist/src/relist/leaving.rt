//! A window that leaves the list of the image on which it stands, and goes.

ghost use Rattle.std.specs.Prelude.{◌≡◌, ◌^◌, ◌+◌, ◌++◌, ◌*◌, ◌<◌, ◌≤◌, ◌==◌, None, length, IfSome, IsTrue};
ghost use Rattle.std.specs.List.{count_by, position};
ghost use Rattle.r9_geom.specs.declared.Point.{Point as Spot};
ghost use Rattle.r9_geom.specs.Geometry.{area_of, holds, IsOrdered, IsRectNear};
ghost use Rattle.model_forest.specs.Stack as stack;
ghost use Rattle.model_forest.specs.Stack.{with_windows};
ghost use Rattle.model_forest.specs.World.{image_at, parent_of, with_image, CanGo, IsForest};
ghost use Rattle.model_kept.specs.Keeping.{keeping, with_kept};
ghost use Rattle.model_kept.specs.Restack.{with_list, with_own, IsRestacked};
ghost use Rattle.r9_locate.specs.locate.Forms.{bits_in, forms_of};
ghost use Rattle.r9_locate.specs.locate.Table.{made, shape};
ghost use Rattle.r9_pixels.specs.Kept.{form_at, has_place, kept_at, moment, writes};
ghost use Rattle.r9_pixels.specs.Places.{HasCells};
ghost use Rattle.r9_restack.specs.Stacks.{IsFront};
ghost use Rattle.r9_locate.specs.watched.Moments.{with_moment};
ghost use Rattle.r9_relist.specs.relist.Leaving.{gone, others, HasFill, HasPlaceOf, IsGoing};

use model_forest::Window;
use r9_geom::Rect;
use r9_locate::locate::Lists;
use r9_marks::steps::Steps;
use r9_pixels::KeptPixels;
use r9_restack::{Source, leave};
use std::alloc::Global;
use std::sync::ledger::Ledger;

// Where a window stands in a list.
fn place_in(windows: &[Window], w: u32) -> Option<usize>
    ensures first { result ≡ position (λ v. v.image == w) windows.now }
    ensures within { IfSome result (λ at. at < length windows.now) }
{
    windows.iter().position(|v| v.image == w)
}

// The windows of a list above one of them, and those below it.
fn around(windows: &[Window], w: u32) -> (&[Window], &[Window])
    requires { count_by (λ v. v.image == w) windows.now ≤ 1 }
    ensures parts { result.0.now ++ result.1.now ≡ stack.without w windows.now }
    ensures front { IsFront windows.now result.0.now w (length result.0.now) }
{
    match place_in(windows, w) {
        Some(at) => (&windows[..at], &windows[at + 1..]),
        None => (windows, &[]),
    }
}

// Moves the pixels to where they are kept without a window. How many windows stand above it.
fn uncover<S: Source, L: Ledger>(
    lists: &Lists,
    pixels: &mut KeptPixels,
    source: &S,
    p: u32,
    w: u32,
    area: &Rect,
    steps: &mut Steps<L>,
) -> usize
    requires going { IsGoing (shape lists.now) p w }
    requires forms { form_at pixels.old ≡ forms_of (shape lists.now) }
    requires cells { HasCells (shape lists.now) (has_place pixels.old) }
    requires near { IsRectNear area.now }
    requires ordered { IsOrdered area.now }
    requires inside { (z : Spot) → IsTrue (holds area.now z) → IsTrue (holds (image_at (shape lists.now) p).r z) }
    requires place { HasPlaceOf (shape lists.now) p w area.now }
    requires given { (x : Spot) → S.given source.now x < 2 ^ bits_in (form_at pixels.old) p }
    requires fill { (z : Spot) → S.fill source.now z < 2 ^ bits_in (form_at pixels.old) p }
    ensures front { IsFront (image_at (shape lists.now) p).windows (others (shape lists.now) p w) w result }
    ensures moved { IsRestacked (shape lists.now) (with_list (shape lists.now) p (others (shape lists.now) p w)) p (kept_at pixels.old) (with_own w (λ x. kept_at pixels.old (keeping (shape lists.now) w x)) (kept_at pixels.new)) (S.fill source.now) }
    ensures has { has_place pixels.new ≡ has_place pixels.old }
    ensures forms { form_at pixels.new ≡ form_at pixels.old }
    ensures steps { steps.new ≤ steps.old + 2 * area_of area.now }
    ensures moment { moment pixels.new ≡ moment pixels.old }
    ensures writes { writes pixels.new + steps.old ≡ writes pixels.old + steps.new }
{
    let (upper, lower) = around(&lists.get(p).windows, w);
    leave(lists, pixels, source, p, w, upper, lower, area, steps);
    upper.len()
}

// Takes a window out of a list in which it stands at most once.
fn leave_out(windows: &mut Vec<Window>, w: u32)
    requires { count_by (λ v. v.image == w) windows.old.items ≤ 1 }
    ensures { windows.new.items ≡ stack.without w windows.old.items }
{
    if let Some(at) = place_in(windows, w) {
        windows.remove(at);
    }
}

// Takes a window out of the list of an image.
fn unlist(alloc: Global, lists: &mut Lists, p: u32, w: u32)
    requires { IsGoing (shape lists.old) p w }
    ensures world { shape lists.new ≡ with_list (shape lists.old) p (others (shape lists.old) p w) }
    ensures made { made lists.new ≡ made lists.old }
{
    let mut windows = lists.set_windows(p, Vec::new(alloc));
    leave_out(&mut windows, w);
    let _ = lists.set_windows(p, windows);
}

/// Takes a window away on which nothing stands and which fills for none: from the list of the image on which it stands, where
/// what becomes bare gets pixels that are given, and then from the tables. It takes no memory.
pub fn take_away<S: Source, L: Ledger>(
    alloc: Global,
    lists: &mut Lists,
    pixels: &mut KeptPixels,
    source: &S,
    p: u32,
    w: u32,
    area: &Rect,
    steps: &mut Steps<L>,
)
    requires going { IsGoing (shape lists.old) p w }
    requires forms { form_at pixels.old ≡ forms_of (shape lists.old) }
    requires cells { HasCells (shape lists.old) (has_place pixels.old) }
    requires near { IsRectNear area.now }
    requires ordered { IsOrdered area.now }
    requires inside { (z : Spot) → IsTrue (holds area.now z) → IsTrue (holds (image_at (shape lists.old) p).r z) }
    requires place { HasPlaceOf (shape lists.old) p w area.now }
    requires given { (x : Spot) → S.given source.now x < 2 ^ bits_in (form_at pixels.old) p }
    requires fill { (z : Spot) → S.fill source.now z < 2 ^ bits_in (form_at pixels.old) p }
    requires fills { HasFill (shape lists.old) p w (kept_at pixels.old) (S.fill source.now) }
    ensures lists { shape lists.new ≡ gone (shape lists.old) p w }
    ensures made { made lists.new ≡ made lists.old }
    ensures world { with_kept (shape lists.new) (kept_at pixels.new) ≡ with_image (with_windows (with_kept (shape lists.old) (kept_at pixels.old)) p (others (shape lists.old) p w)) w None }
    ensures cells { HasCells (shape lists.new) (has_place pixels.new) }
    ensures forms { form_at pixels.new ≡ forms_of (shape lists.new) }
    ensures steps { steps.new ≤ steps.old + 2 * area_of area.now }
    ensures moment { moment pixels.new ≡ moment pixels.old }
    ensures writes { writes pixels.new + steps.old ≡ writes pixels.old + steps.new }
{
    let from = uncover(lists, pixels, source, p, w, area, steps);
    unlist(alloc, lists, p, w);
    pixels.give_shown(lists, p, &lists.get(p).windows, from, &[*area]);
    lists.remove(w);
    pixels.remove(w);
}

/// Takes an image away that stands nowhere, on which nothing stands and which fills for no window. It takes no memory.
pub fn take_whole(lists: &mut Lists, pixels: &mut KeptPixels, i: u32)
    requires before { IsForest (shape lists.old) }
    requires can { CanGo (shape lists.old) i }
    requires nowhere { parent_of (shape lists.old) i ≡ None }
    requires forms { form_at pixels.old ≡ forms_of (shape lists.old) }
    requires cells { HasCells (shape lists.old) (has_place pixels.old) }
    ensures lists { shape lists.new ≡ with_image (shape lists.old) i None }
    ensures made { made lists.new ≡ made lists.old }
    ensures world { with_kept (shape lists.new) (kept_at pixels.new) ≡ with_image (with_kept (shape lists.old) (kept_at pixels.old)) i None }
    ensures cells { HasCells (shape lists.new) (has_place pixels.new) }
    ensures forms { form_at pixels.new ≡ forms_of (shape lists.new) }
    ensures moment { moment pixels.new ≡ with_moment i None (moment pixels.old) }
    ensures writes { writes pixels.new ≡ writes pixels.old }
{
    lists.remove(i);
    pixels.remove(i);
}
