//! A window that comes: into the tables of lists and of pixels, and into another list of the image on which it stands.
#![tactic(auto)]

ghost use Rattle.std.specs.Prelude.{◌≡◌, ◌+◌, ◌*◌, ◌^◌, ◌<◌, ◌≤◌, ℕ, [], None, Some, false, is_some, max, true, All, OnErr, OnOk};
ghost use Rattle.r9_geom.specs.declared.Point.{Point as Spot};
ghost use Rattle.r9_geom.specs.Geometry.{area_of, height, width, IsOrdered, IsRectNear, IsRectNearBy};
ghost use Rattle.model_pixel.specs.Channels as channels;
ghost use Rattle.model_forest.specs.World.{image_at, with_image, IsForest, IsLive};
ghost use Rattle.model_kept.specs.Keeping.{place_among, with_kept, HasOnePlaces, IsStanding};
ghost use Rattle.model_kept.specs.Restack.{IsAlone};
ghost use Rattle.r9_locate.specs.locate.Forms.{forms_of};
ghost use Rattle.r9_locate.specs.locate.Lists.{frame_image, IsNearby};
ghost use Rattle.r9_locate.specs.locate.Table.{made, shape, HasRoom};
ghost use Rattle.r9_pixels.specs.Kept.{form_at, has_place, kept_at, later_in, moment, room_of, spare_in, wanted_in, writes, IsUnchanged};
ghost use Rattle.r9_cells.specs.Fitting.{AreOne};
ghost use Rattle.r9_pixels.specs.Places.{HasCells, StandsOn};
ghost use Rattle.r9_restack.specs.Stacks.{IsFront};
ghost use Rattle.r9_relist.specs.relist.Relisting.{HasPlacesBefore, IsRelisting};
ghost use Rattle.r9_relist.specs.arrive.Arriving.{after_coming, listed, with_coming, IsComing, IsLeft, IsLeftOf};

use crate::relist::add;
use model_forest::{Standing, Window};
use r9_chan::Chan;
use r9_geom::Rect;
use r9_locate::locate::{Frame, Lists};
use r9_marks::steps::Steps;
use r9_memory::Memory;
use r9_pixels::{Extent, KeptPixels};
use r9_restack::{Source, count_front};
use std::alloc::Global;
use std::sync::ledger::Ledger;

// The frame of a window.
fn window_frame(alloc: Global, r: Rect, chan: Chan, standing: Standing, depth: u32) -> Frame
    ensures { frame_image result ≡ record { r = r; clipr = r; repl = false; chan = chan; standing = Some standing; depth = depth; canvas = λ _. 0; windows = [] } }
{
    Frame {
        r,
        clipr: r,
        repl: false,
        chan,
        standing: Some(standing),
        depth,
        windows: Vec::new(alloc),
    }
}

// Puts a window into the tables, in no list yet, and makes room for the tiles of all cells that its parent hides with another
// list, and then image q with one.
fn enter(
    lists: &mut Lists,
    pixels: &mut KeptPixels,
    i: u32,
    frame: Frame,
    parent: u32,
    list: &[Window],
    from: usize,
    place: &Rect,
    q: u32,
    later: &[Window],
    areas: &[Rect],
) -> Result<(), Memory>
    requires room { HasRoom lists.old i }
    requires place { i < room_of pixels.old }
    requires free { shape lists.old i ≡ None }
    requires beyond { (n : ℕ) → made lists.old ≤ n → shape lists.old n ≡ None }
    requires forms { form_at pixels.old ≡ forms_of (shape lists.old) }
    requires window { is_some frame.standing ≡ true }
    requires standing { IsStanding (with_image (shape lists.old) i (Some (frame_image frame))) }
    requires places { HasOnePlaces (with_image (shape lists.old) i (Some (frame_image frame))) }
    requires near { IsNearby (with_image (shape lists.old) i (Some (frame_image frame))) }
    requires rect { IsRectNear frame.r }
    requires ordered { IsOrdered frame.r }
    requires columns { width frame.r ≤ 2 ^ 35 }
    requires rows { height frame.r ≤ 2 ^ 35 }
    requires also { IsLive (shape lists.old) q }
    requires later { All (StandsOn (with_image (shape lists.old) i (Some (frame_image frame))) q) later.now }
    requires later_one { AreOne later.now }
    requires place_is { place_among list.now i ≡ place.now }
    requires change { IsRelisting (with_image (shape lists.old) i (Some (frame_image frame))) parent i list.now }
    requires before { HasPlacesBefore (with_image (shape lists.old) i (Some (frame_image frame))) parent i (has_place pixels.old) }
    requires cells { HasCells (shape lists.old) (has_place pixels.old) }
    requires front { IsFront (image_at (with_image (shape lists.old) i (Some (frame_image frame))) parent).windows list.now i from }
    requires alone { IsAlone (shape lists.old) i }
    requires left { IsLeft (shape lists.old) parent list.now q later.now areas.now }
    requires left_own { IsLeftOf (shape lists.old) parent list.now q later.now areas.now i frame.r }
    ensures lists { OnOk result (shape lists.new ≡ with_image (shape lists.old) i (Some (frame_image frame))) }
    ensures made { OnOk result (made lists.new ≡ max (made lists.old) (i + 1)) }
    ensures spare { OnOk result (wanted_in pixels.new (shape lists.new) parent list.now + later_in pixels.new (shape lists.new) parent list.now q later.now ≤ spare_in pixels.new) }
    ensures lists_err { OnErr result (shape lists.new ≡ shape lists.old) }
    ensures made_err { OnErr result (made lists.new ≡ made lists.old) }
    ensures kept { kept_at pixels.new ≡ kept_at pixels.old }
    ensures has { has_place pixels.new ≡ has_place pixels.old }
    ensures forms { form_at pixels.new ≡ forms_of (shape lists.new) }
    ensures moment { moment pixels.new ≡ moment pixels.old }
    ensures writes { writes pixels.new ≡ writes pixels.old }
{
    let extent = Extent {
        r: frame.r,
        chan: frame.chan,
    };
    pixels.insert_hidden(i, extent)?;
    let made = lists.len();
    lists.insert(i, frame);
    let places = [*place];
    match pixels.reserve_both(lists, parent, list, from, &places, q, later, 0, areas) {
        Ok(()) => Ok(()),
        Err(memory) => {
            lists.remove(i);
            lists.shorten(made);
            pixels.remove(i);
            Err(memory)
        }
    }
}

/// Makes a window with pixels that are given, in another list of the image on which it stands. All tiles are there before the
/// first pixel is written, also those for the windows that image q is to get later. At most two pixels are written for each
/// point of the window.
pub fn arrive<S: Source, L: Ledger>(
    alloc: Global,
    lists: &mut Lists,
    pixels: &mut KeptPixels,
    source: &S,
    w: Window,
    standing: Standing,
    r: Rect,
    list: Vec<Window>,
    q: u32,
    later: &[Window],
    areas: &[Rect],
    steps: &mut Steps<L>,
) -> Result<(), Memory>
    requires room { HasRoom lists.old w.image }
    requires place { w.image < room_of pixels.old }
    requires free { shape lists.old w.image ≡ None }
    requires beyond { (n : ℕ) → made lists.old ≤ n → shape lists.old n ≡ None }
    requires whole { IsForest (with_kept (shape lists.old) (kept_at pixels.old)) }
    requires forms { form_at pixels.old ≡ forms_of (shape lists.old) }
    requires cells { HasCells (shape lists.old) (has_place pixels.old) }
    requires parent { IsLive (shape lists.old) standing.parent }
    requires near { IsRectNearBy (2 ^ 34) r }
    requires few { (image_at (shape lists.old) standing.parent).depth + 1 < 2 ^ 32 }
    requires coming { IsComing (shape lists.old) standing.parent w list.items }
    requires forest { IsForest (after_coming (with_kept (shape lists.old) (kept_at pixels.old)) w.image standing.parent standing.fill r (S.given source.now) list.items) }
    requires given { (x : Spot) → S.given source.now x < 2 ^ channels.depth (image_at (shape lists.old) standing.parent).chan }
    requires fill { (z : Spot) → S.fill source.now z < 2 ^ channels.depth (image_at (shape lists.old) standing.parent).chan }
    requires also { IsLive (shape lists.old) q }
    requires later { All (StandsOn (with_coming (shape lists.old) w.image standing.parent standing.fill r) q) later.now }
    requires later_one { AreOne later.now }
    requires left { IsLeft (shape lists.old) standing.parent list.items q later.now areas.now }
    requires left_own { IsLeftOf (shape lists.old) standing.parent list.items q later.now areas.now w.image r }
    requires stands { place_among list.items w.image ≡ w.place }
    ensures lists { OnOk result (shape lists.new ≡ listed (shape lists.old) w.image standing.parent standing.fill r list.items) }
    ensures made { OnOk result (made lists.new ≡ max (made lists.old) (w.image + 1)) }
    ensures world { OnOk result (with_kept (shape lists.new) (kept_at pixels.new) ≡ after_coming (with_kept (shape lists.old) (kept_at pixels.old)) w.image standing.parent standing.fill r (S.given source.now) list.items) }
    ensures cells { OnOk result (HasCells (shape lists.new) (has_place pixels.new)) }
    ensures forms { OnOk result (form_at pixels.new ≡ forms_of (shape lists.new)) }
    ensures later { OnOk result (wanted_in pixels.new (shape lists.new) q later.now ≤ spare_in pixels.new) }
    ensures lists_err { OnErr result (shape lists.new ≡ shape lists.old) }
    ensures made_err { OnErr result (made lists.new ≡ made lists.old) }
    ensures err { OnErr result (IsUnchanged pixels.old pixels.new) }
    ensures steps { steps.new ≤ steps.old + 2 * area_of r }
    ensures uncounted { OnErr result (steps.new ≡ steps.old) }
    ensures moment { moment pixels.new ≡ moment pixels.old }
    ensures writes { writes pixels.new + steps.old ≡ writes pixels.old + steps.new }
{
    let below = lists.get(standing.parent);
    let frame = window_frame(alloc, r, below.chan, standing, below.depth + 1);
    let from = count_front(&below.windows, &list, w.image);
    enter(
        lists,
        pixels,
        w.image,
        frame,
        standing.parent,
        &list,
        from,
        &w.place,
        q,
        later,
        areas,
    )?;
    add(lists, pixels, source, standing.parent, w, list, from, steps);
    Ok(())
}
