//! Windows that come.

ghost use Rattle.std.specs.Prelude.{◌≡◌, ◌+◌, ◌*◌, ◌^◌, ◌<◌, ◌≤◌, ℕ, None, false, length, vec_capacity, vec_len, All, IfOk, OnErr, OnOk};
ghost use Rattle.r9_geom.specs.declared.Point.{Point as Spot};
ghost use Rattle.r9_geom.specs.Geometry.{area_of, IsOrdered, IsRectNear, IsRectNearBy};
ghost use Rattle.model_pixel.specs.Channels as channels;
ghost use Rattle.model_forest.specs.Numbers.{next_number, taken};
ghost use Rattle.model_forest.specs.World.{image_at, IsForest, IsLive};
ghost use Rattle.model_forest.specs.Stack.{after_window};
ghost use Rattle.model_kept.specs.Keeping.{place_among};
ghost use Rattle.r9_locate.specs.locate.Table.{made, shape, HasRoom};
ghost use Rattle.r9_pixels.specs.Kept.{room_of, spare_in, wanted_in};
ghost use Rattle.r9_cells.specs.Fitting.{AreOne};
ghost use Rattle.r9_pixels.specs.Places.{StandsOn};
ghost use Rattle.r9_put.specs.fills.Content as contents;
ghost use Rattle.r9_relist.specs.arrive.Arriving.{after_coming, with_coming, IsComing, IsLeft, IsLeftOf};
ghost use Rattle.r9_forest.specs.Numbered.{numbers_of};
ghost use Rattle.r9_forest.specs.Given.{given_at};

use super::images::{Images, take_number};
use model_forest::{Standing, Window};
use r9_geom::Rect;
use r9_locate::lists::on_top;
use r9_locate::locate::Frame;
use r9_marks::steps::Steps;
use r9_memory::Memory;
use r9_put::fills::{Content, Gathered, Picture};
use r9_relist::arrive::arrive;
use std::sync::ledger::Ledger;

/// The pixels with which a window comes: one raw pixel, or those that were read into the room.
#[derive(Clone, Copy)]
pub(crate) enum Given {
    Plain(u32),
    Read,
}

/// The pixels of a rectangle that are given.
pub(crate) fn content(given: Given, r: Rect, room: &[u32]) -> Content<'_>
    requires near { IsRectNear r }
    requires ordered { IsOrdered r }
    requires room { area_of r ≤ length room.now }
    ensures { (p : Spot) → contents.content result p ≡ given_at given r room.now p }
{
    match given {
        Given::Plain(raw) => Content::Plain(raw),
        Given::Read => Content::Shown(Picture::new(r, room)),
    }
}

impl Images {
    ghost use Rattle.r9_forest.specs.Images.{moment, numbers, world, writes, IsUnchanged};

    /// Makes a window of one raw pixel on an image, topmost, with the channels of that image, all of r as its place and its
    /// clip rectangle, and an image that fills what it uncovers. At most two pixels are written for each point of r.
    pub fn window<L: Ledger>(
        &mut self,
        parent: u32,
        fill: u32,
        r: Rect,
        raw: u32,
        steps: &mut Steps<L>,
    ) -> Result<u32, Memory>
        requires parent { IsLive (world self.old) parent }
        requires fill { IsLive (world self.old) fill }
        requires near { IsRectNearBy (2 ^ 34) r }
        requires ordered { IsOrdered r }
        requires raw { raw < 2 ^ channels.depth (image_at (world self.old) parent).chan }
        ensures number { IfOk result (λ i. i ≡ next_number (numbers self.old)) }
        ensures free { IfOk result (λ i. world self.old i ≡ None) }
        ensures made { IfOk result (λ i. world self.new ≡ after_window (world self.old) i parent fill r raw) }
        ensures taken { OnOk result (numbers self.new ≡ taken (numbers self.old)) }
        ensures err { OnErr result (IsUnchanged self.old self.new) }
        ensures steps { steps.new ≤ steps.old + 2 * area_of r }
        ensures uncounted { OnErr result (steps.new ≡ steps.old) }
        ensures moment { moment self.new ≡ moment self.old }
        ensures writes { writes self.new + steps.old ≡ writes self.old + steps.new }
    {
        self.reserve_window(&r)?;
        let below = self.lists.get(parent);
        if is_full(below) {
            return Err(Memory);
        }
        let mut list = Vec::with_capacity(self.alloc, below.windows.len() + 1)?;
        let made = self.lists.len();
        let i = peek_number(made, &self.spare);
        let w = Window { image: i, place: r };
        on_top(&mut list, w, &below.windows);
        let standing = Standing { parent, fill };
        self.come(
            w,
            standing,
            r,
            list,
            Given::Plain(raw),
            parent,
            &[],
            &[],
            steps,
        )?;
        Ok(i)
    }

    // Makes a window under the next number, for which there is room, with pixels that are given, in another list of the image
    // on which it stands. Tiles are there then, too, for the windows that image q is to get later.
    pub(crate) fn come<L: Ledger>(
        &mut self,
        w: Window,
        standing: Standing,
        r: Rect,
        list: Vec<Window>,
        given: Given,
        q: u32,
        later: &[Window],
        areas: &[Rect],
        steps: &mut Steps<L>,
    ) -> Result<(), Memory>
        requires number { w.image ≡ next_number (numbers self.old) }
        requires room { (i : ℕ) → i ≤ made self.old.lists → HasRoom self.old.lists i }
        requires place { made self.old.lists < room_of self.old.pixels }
        requires back { made self.old.lists < vec_capacity self.old.spare }
        requires fills { area_of r ≤ vec_len self.old.room }
        requires parent { IsLive (world self.old) standing.parent }
        requires near { IsRectNearBy (2 ^ 34) r }
        requires ordered { IsOrdered r }
        requires few { (image_at (shape self.old.lists) standing.parent).depth + 1 < 2 ^ 32 }
        requires coming { IsComing (shape self.old.lists) standing.parent w list.items }
        requires forest { IsForest (after_coming (world self.old) w.image standing.parent standing.fill r (given_at given r self.old.room.items) list.items) }
        requires given { (x : Spot) → given_at given r self.old.room.items x < 2 ^ channels.depth (image_at (shape self.old.lists) standing.parent).chan }
        requires also { IsLive (shape self.old.lists) q }
        requires later { All (StandsOn (with_coming (shape self.old.lists) w.image standing.parent standing.fill r) q) later.now }
        requires later_one { AreOne later.now }
        requires left { IsLeft (shape self.old.lists) standing.parent list.items q later.now areas.now }
        requires left_own { IsLeftOf (shape self.old.lists) standing.parent list.items q later.now areas.now w.image r }
        requires stands { place_among list.items w.image ≡ w.place }
        ensures free { world self.old w.image ≡ None }
        ensures world { OnOk result (world self.new ≡ after_coming (world self.old) w.image standing.parent standing.fill r (given_at given r self.old.room.items) list.items) }
        ensures taken { OnOk result (numbers self.new ≡ taken (numbers self.old)) }
        ensures later { OnOk result (wanted_in self.new.pixels (shape self.new.lists) q later.now ≤ spare_in self.new.pixels) }
        ensures err { OnErr result (IsUnchanged self.old self.new) }
        ensures steps { steps.new ≤ steps.old + 2 * area_of r }
        ensures uncounted { OnErr result (steps.new ≡ steps.old) }
        ensures moment { moment self.new ≡ moment self.old }
        ensures writes { writes self.new + steps.old ≡ writes self.old + steps.new }
    {
        let made = self.lists.len();
        // Nothing becomes bare.
        let gathered = Gathered {
            given: content(given, r, &self.room),
            fill: Content::Plain(0),
        };
        arrive(
            self.alloc,
            &mut self.lists,
            &mut self.pixels,
            &gathered,
            w,
            standing,
            r,
            list,
            q,
            later,
            areas,
            steps,
        )?;
        let _ = take_number(made, &mut self.spare);
        Ok(())
    }
}

/// Whether nothing more can stand on an image: it stands too high, or too much stands on it.
pub(crate) fn is_full(below: &Frame) -> bool
    ensures { result ≡ false → (below.now.depth + 1 < 2 ^ 32) × (length below.now.windows.items + 1 < 2 ^ 32) }
{
    below.depth == u32::MAX || below.windows.len() >= u32::MAX as usize
}

/// The number that the next image gets.
pub(crate) fn peek_number(made: usize, spare: &[u32]) -> u32
    requires { made < 2 ^ 32 }
    ensures { result ≡ next_number (numbers_of made spare.now) }
{
    match spare.last() {
        Some(number) => *number,
        None => made as u32,
    }
}
