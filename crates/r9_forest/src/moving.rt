//! Windows that move on the image on which they stand, and images that get another min.

ghost use Rattle.std.specs.Prelude.{◌≡◌, ◌+◌, ◌*◌, ◌^◌, ◌<◌, ◌≤◌, ◌&&◌, false, length, slice_index, vec_len, IfOk, IfSome, IsTrue, None, OnErr, OnOk, Some, true};
ghost use Rattle.r9_geom.specs.declared.Point.{Point as Spot};
ghost use Rattle.r9_geom.specs.Geometry.{area_of, holds, is_empty, meet, IsNearBy, IsOrdered, IsRectNear};
ghost use Rattle.r9_plane.specs.Pixels.{number_of};
ghost use Rattle.model_pixel.specs.Channels as channels;
ghost use Rattle.model_forest.specs.Stack as stack;
ghost use Rattle.model_forest.specs.Stack.{moved_window, with_windows};
ghost use Rattle.model_forest.specs.Steps.{after_origin, carried_rect as carried_place, shifted_image};
ghost use Rattle.model_forest.specs.View as model;
ghost use Rattle.model_forest.specs.World.{image_at, with_image, IsForest, IsLive};
ghost use Rattle.r9_locate.specs.locate.Table.{shape};
ghost use Rattle.r9_pixels.specs.Kept.{spare_in, wanted_in};
ghost use Rattle.r9_relist.specs.relist.Relisting.{IsAway};
ghost use Rattle.r9_forest.specs.Groups.{IsMoved};
ghost use Rattle.r9_put.specs.fills.Fills.{fill_at};
ghost use Rattle.r9_forest.specs.Given.{filled_at, given_at, left_of, IsEnough};
ghost use Rattle.r9_forest.specs.Replaced.{IsShown};
ghost use Rattle.model_kept.specs.Keeping.{is_top, place_among as place_in};

use super::coming::{Given, content};
use super::filling::put_block;
use super::images::{Images, zeros};
use model_forest::{Standing, Window};
use r9_chan::Chan;
use r9_geom::{Point, Rect};
use r9_locate::lists::carried_rect;
use r9_locate::locate::place_among;
use r9_marks::steps::Steps;
use r9_memory::Memory;
use r9_put::fills::{Content, Gathered, Picture};
use r9_relist::relist::{common, hide, relist, reserve_move, unhide};
use r9_relist::shift::shift;
use r9_shown::read_area;
use std::alloc::Global;
use std::sync::ledger::Ledger;

// Gives a window another place, where it is of that image.
fn place_one(w: &mut Window, i: u32, place: Rect)
    ensures { w.new ≡ moved_window i place w.old }
{
    if w.image == i {
        w.place = place;
    }
}

// Gives a window of a list another place.
fn place_each(windows: &mut [Window], i: u32, place: Rect)
    ensures { windows.new ≡ stack.moved i place windows.old }
{
    for k in 0..windows.len() {
        place_one(&mut windows[k], i, place);
    }
}

/// The list with a window at another place.
pub(crate) fn moved_list(
    alloc: Global,
    windows: &[Window],
    i: u32,
    place: Rect,
) -> Result<Vec<Window>, Memory>
    ensures { IfOk result (λ list. list.items ≡ stack.moved i place windows.now) }
{
    let mut list = Vec::with_capacity(alloc, windows.len())?;
    let _ = list.extend_from_slice(windows);
    place_each(&mut list, i, place);
    Ok(list)
}

// Whether two rectangles have no point in common.
fn are_apart(a: &Rect, b: &Rect) -> bool
    ensures { result ≡ is_empty (meet a.now b.now) }
{
    a.meet(b).is_empty()
}

// Whether a place has no point in common with either of two others.
fn is_apart_from(place: &Rect, below: &Rect, then: &Rect) -> bool
    ensures { result ≡ (is_empty (meet place.now below.now) && is_empty (meet place.now then.now)) }
{
    are_apart(place, below) && are_apart(place, then)
}

// What fills the points of a rectangle: one raw pixel, or rows of them.
#[derive(Drop)]
enum Filling {
    Plain(u32),
    Rows(Vec<u32>),
}

impl Filling {
    ghost use Rattle.r9_put.specs.fills.Content.{content};
    ghost use Rattle.r9_forest.specs.Given.{filled_at, IsEnough};

    // The pixels at the points of a rectangle.
    fn content(&self, r: Rect) -> Content<'_>
        requires near { IsRectNear r }
        requires ordered { IsOrdered r }
        requires enough { IsEnough self.now r }
        ensures { (p : Spot) → content result p ≡ filled_at self.now r p }
    {
        match self {
            Filling::Plain(raw) => Content::Plain(*raw),
            Filling::Rows(rows) => Content::Shown(Picture::new(r, rows)),
        }
    }
}

impl Images {
    ghost use Rattle.r9_forest.specs.Images.{moment, numbers, world, writes};

    /// Gives an image another min in its own coordinates, where its pixels and its windows move along, and a window another
    /// corner on its parent, where its fill then shows. At most two pixels are written for each point where a window stood, and
    /// two for each where it stands then; none where it gets the place that it has.
    pub fn origin<L: Ledger>(
        &mut self,
        i: u32,
        min: Point,
        corner: Point,
        steps: &mut Steps<L>,
    ) -> Result<(), Memory>
        requires live { IsLive (world self.old) i }
        requires min { IsNearBy (2 ^ 34) min }
        requires corner { IsNearBy (2 ^ 34) corner }
        ensures moved { OnOk result (world self.new ≡ after_origin (world self.old) i min corner) }
        ensures numbers { numbers self.new ≡ numbers self.old }
        ensures err { OnErr result (world self.new ≡ world self.old) }
        ensures steps { steps.new ≤ steps.old + 4 * area_of (image_at (world self.old) i).r }
        ensures uncounted { OnErr result (steps.new ≡ steps.old) }
        ensures still { IfSome (image_at (world self.old) i).standing (λ s. place_in (image_at (world self.old) s.parent).windows i ≡ carried_place (image_at (world self.old) i).r (image_at (world self.old) i).r.min corner) → steps.new ≡ steps.old }
        ensures moment { moment self.new ≡ moment self.old }
        ensures writes { writes self.new + steps.old ≡ writes self.old + steps.new }
    {
        let Some(standing) = self.lists.get(i).standing else {
            self.shift_own(i, min);
            return Ok(());
        };
        self.move_window(i, standing, corner, steps)?;
        self.shift_own(i, min);
        Ok(())
    }

    // Moves an image in its own coordinates.
    fn shift_own(&mut self, i: u32, min: Point)
        requires live { IsLive (world self.old) i }
        requires min { IsNearBy (2 ^ 34) min }
        ensures world { world self.new ≡ with_image (world self.old) i (Some (shifted_image (image_at (world self.old) i) min)) }
        ensures numbers { numbers self.new ≡ numbers self.old }
        ensures moment { moment self.new ≡ moment self.old }
        ensures writes { writes self.new ≡ writes self.old }
    {
        shift(self.alloc, &mut self.lists, &mut self.pixels, i, min);
    }

    // Moves a window on its parent, where its fill then shows.
    fn move_window<L: Ledger>(
        &mut self,
        i: u32,
        standing: Standing,
        corner: Point,
        steps: &mut Steps<L>,
    ) -> Result<(), Memory>
        requires stands { (image_at (world self.old) i).standing ≡ Some standing }
        requires corner { IsNearBy (2 ^ 34) corner }
        ensures world { OnOk result (world self.new ≡ with_windows (world self.old) standing.parent (stack.moved i (carried_place (image_at (world self.old) i).r (image_at (world self.old) i).r.min corner) (image_at (world self.old) standing.parent).windows)) }
        ensures numbers { numbers self.new ≡ numbers self.old }
        ensures err { OnErr result (world self.new ≡ world self.old) }
        ensures steps { steps.new ≤ steps.old + 4 * area_of (image_at (world self.old) i).r }
        ensures uncounted { OnErr result (steps.new ≡ steps.old) }
        ensures still { place_in (image_at (world self.old) standing.parent).windows i ≡ carried_place (image_at (world self.old) i).r (image_at (world self.old) i).r.min corner → steps.new ≡ steps.old }
        ensures moment { moment self.new ≡ moment self.old }
        ensures writes { writes self.new + steps.old ≡ writes self.old + steps.new }
    {
        let r = self.lists.get(i).r;
        let place = carried_rect(&r, r.min, corner);
        let below = self.lists.get(standing.parent);
        if place_among(&below.windows, i) == place {
            return Ok(());
        }
        let is_hidden = place.meet(&below.r).is_empty();
        let list = moved_list(self.alloc, &below.windows, i, place)?;
        reserve_move(&self.lists, &mut self.pixels, standing.parent, i, &list)?;
        self.move_listed(i, standing, is_hidden, list, steps)
    }

    // Gives the image on which a window stands another list, in which just that window moved. Tiles for all cells that are hidden
    // then are spare.
    fn move_listed<L: Ledger>(
        &mut self,
        i: u32,
        standing: Standing,
        is_hidden: bool,
        list: Vec<Window>,
        steps: &mut Steps<L>,
    ) -> Result<(), Memory>
        requires stands { (image_at (world self.old) i).standing ≡ Some standing }
        requires list { IsMoved (world self.old) standing.parent i list.items }
        requires hidden { is_hidden ≡ true → (z : Spot) → IsTrue (holds (image_at (world self.old) standing.parent).r z) → is_top list.items i z ≡ false }
        requires forest { IsForest (with_windows (world self.old) standing.parent list.items) }
        requires spare { wanted_in self.old.pixels (shape self.old.lists) standing.parent list.items ≤ spare_in self.old.pixels }
        ensures world { OnOk result (world self.new ≡ with_windows (world self.old) standing.parent list.items) }
        ensures numbers { numbers self.new ≡ numbers self.old }
        ensures err { OnErr result (world self.new ≡ world self.old) }
        ensures steps { steps.new ≤ steps.old + 4 * area_of (image_at (world self.old) i).r }
        ensures uncounted { OnErr result (steps.new ≡ steps.old) }
        ensures moment { moment self.new ≡ moment self.old }
        ensures writes { writes self.new + steps.old ≡ writes self.old + steps.new }
    {
        if is_hidden {
            self.leave_place(i, standing, list, steps);
            return Ok(());
        }
        if self.is_away(i, &standing, &list) {
            self.come_back(i, standing, list, steps);
            return Ok(());
        }
        let fill = self.fill_left(i, &standing)?;
        self.take_place(i, standing, &fill, list, steps);
        Ok(())
    }

    // Where a window stands on its parent.
    pub(crate) fn place_of(&self, i: u32, standing: &Standing) -> Rect
        requires stands { (image_at (world self.now) i).standing ≡ Some standing.now }
        ensures near { IsRectNear result }
        ensures ordered { IsOrdered result }
        ensures value { result ≡ left_of (shape self.now.lists) standing.now.parent i }
    {
        let below = self.lists.get(standing.parent);
        common(&place_among(&below.windows, i), &below.r)
    }

    // What fills where a window stands, once that moves.
    fn fill_left(&mut self, i: u32, standing: &Standing) -> Result<Filling, Memory>
        requires stands { (image_at (world self.old) i).standing ≡ Some standing.now }
        ensures lists { self.new.lists ≡ self.old.lists }
        ensures pixels { self.new.pixels ≡ self.old.pixels }
        ensures spare { self.new.spare ≡ self.old.spare }
        ensures len { vec_len self.new.room ≡ vec_len self.old.room }
        ensures enough { IfOk result (λ filling. IsEnough filling (left_of (shape self.old.lists) standing.now.parent i)) }
        ensures below { IfOk result (λ filling. (p : Spot) → filled_at filling (left_of (shape self.old.lists) standing.now.parent i) p < 2 ^ channels.depth (image_at (shape self.old.lists) standing.now.parent).chan) }
        ensures filled { IfOk result (λ filling. (p : Spot) → IsTrue (holds (left_of (shape self.old.lists) standing.now.parent i) p) → filled_at filling (left_of (shape self.old.lists) standing.now.parent i) p ≡ fill_at (world self.old) (image_at (shape self.old.lists) standing.now.parent).chan standing.now.fill p) }
    {
        let left = self.place_of(i, standing);
        let chan = self.lists.get(standing.parent).chan;
        if let Some(raw) = self.plain_fill(standing.fill, &chan, &left) {
            return Ok(Filling::Plain(raw));
        }
        let count = (left.width() * left.height()) as usize;
        let rows = zeros(self.alloc, count)?;
        Ok(self.fill_rows(i, standing, rows))
    }

    // The same gathered into rows of pixels, for which there is room.
    fn fill_rows(&mut self, i: u32, standing: &Standing, mut rows: Vec<u32>) -> Filling
        requires stands { (image_at (world self.old) i).standing ≡ Some standing.now }
        requires rows { area_of (left_of (shape self.old.lists) standing.now.parent i) ≤ vec_len rows }
        ensures lists { self.new.lists ≡ self.old.lists }
        ensures pixels { self.new.pixels ≡ self.old.pixels }
        ensures spare { self.new.spare ≡ self.old.spare }
        ensures len { vec_len self.new.room ≡ vec_len self.old.room }
        ensures enough { IsEnough result (left_of (shape self.old.lists) standing.now.parent i) }
        ensures below { (p : Spot) → filled_at result (left_of (shape self.old.lists) standing.now.parent i) p < 2 ^ channels.depth (image_at (shape self.old.lists) standing.now.parent).chan }
        ensures filled { (p : Spot) → IsTrue (holds (left_of (shape self.old.lists) standing.now.parent i) p) → filled_at result (left_of (shape self.old.lists) standing.now.parent i) p ≡ fill_at (world self.old) (image_at (shape self.old.lists) standing.now.parent).chan standing.now.fill p }
    {
        let left = self.place_of(i, standing);
        let chan = self.lists.get(standing.parent).chan;
        let count = (left.width() * left.height()) as usize;
        self.gather(standing.fill, &chan, &left);
        put_block(&mut rows, 0, &self.room[..count]);
        Filling::Rows(rows)
    }

    // One pixel that fills all points of a rectangle, or those that do are gathered in the room.
    pub(crate) fn gather_left(&mut self, fill: u32, chan: &Chan, left: &Rect) -> Given
        requires live { IsLive (world self.old) fill }
        requires lawful { IsTrue (channels.is_descriptor chan.now) }
        requires near { IsRectNear left.now }
        requires ordered { IsOrdered left.now }
        requires room { area_of left.now ≤ vec_len self.old.room }
        ensures lists { self.new.lists ≡ self.old.lists }
        ensures pixels { self.new.pixels ≡ self.old.pixels }
        ensures spare { self.new.spare ≡ self.old.spare }
        ensures len { vec_len self.new.room ≡ vec_len self.old.room }
        ensures below { (p : Spot) → given_at result left.now self.new.room.items p < 2 ^ channels.depth chan.now }
        ensures filled { (p : Spot) → IsTrue (holds left.now p) → given_at result left.now self.new.room.items p ≡ fill_at (world self.old) chan.now fill p }
    {
        if let Some(raw) = self.plain_fill(fill, chan, left) {
            return Given::Plain(raw);
        }
        self.gather(fill, chan, left);
        Given::Read
    }

    /// Reads what an image shows into the room, row by row.
    pub(crate) fn read_shown(&mut self, i: u32)
        requires live { IsLive (world self.old) i }
        requires room { area_of (image_at (world self.old) i).r ≤ vec_len self.old.room }
        ensures lists { self.new.lists ≡ self.old.lists }
        ensures pixels { self.new.pixels ≡ self.old.pixels }
        ensures spare { self.new.spare ≡ self.old.spare }
        ensures len { vec_len self.new.room ≡ vec_len self.old.room }
        ensures shown { IsShown (world self.old) i self.new.room.items }
    {
        let r = self.lists.get(i).r;
        read_area(&self.lists, &self.pixels, i, &r, &mut self.room);
    }

    /// Gives the image on which a window stands another list, in which just that window moved. There are rows for the pixels that
    /// fill where it stood, or nothing of it shows then, and tiles for all cells that are hidden then are spare. It takes no memory.
    pub(crate) fn move_away<L: Ledger>(
        &mut self,
        i: u32,
        standing: Standing,
        rows: Option<Vec<u32>>,
        list: Vec<Window>,
        steps: &mut Steps<L>,
    )
        requires stands { (image_at (world self.old) i).standing ≡ Some standing }
        requires rows { IfSome rows (λ room. area_of (image_at (world self.old) i).r ≤ vec_len room) }
        requires list { IsMoved (world self.old) standing.parent i list.items }
        requires hidden { rows ≡ None → (z : Spot) → IsTrue (holds (image_at (world self.old) standing.parent).r z) → is_top list.items i z ≡ false }
        requires forest { IsForest (with_windows (world self.old) standing.parent list.items) }
        requires spare { wanted_in self.old.pixels (shape self.old.lists) standing.parent list.items ≤ spare_in self.old.pixels }
        ensures world { world self.new ≡ with_windows (world self.old) standing.parent list.items }
        ensures numbers { numbers self.new ≡ numbers self.old }
        ensures steps { steps.new ≤ steps.old + 4 * area_of (image_at (world self.old) i).r }
        ensures moment { moment self.new ≡ moment self.old }
        ensures writes { writes self.new + steps.old ≡ writes self.old + steps.new }
    {
        match rows {
            Some(rows) => self.move_shown(i, standing, rows, list, steps),
            None => self.leave_place(i, standing, list, steps),
        }
    }

    // The same to where nothing of it shows.
    fn leave_place<L: Ledger>(
        &mut self,
        i: u32,
        standing: Standing,
        list: Vec<Window>,
        steps: &mut Steps<L>,
    )
        requires stands { (image_at (world self.old) i).standing ≡ Some standing }
        requires list { IsMoved (world self.old) standing.parent i list.items }
        requires hidden { (z : Spot) → IsTrue (holds (image_at (world self.old) standing.parent).r z) → is_top list.items i z ≡ false }
        requires forest { IsForest (with_windows (world self.old) standing.parent list.items) }
        requires spare { wanted_in self.old.pixels (shape self.old.lists) standing.parent list.items ≤ spare_in self.old.pixels }
        ensures world { world self.new ≡ with_windows (world self.old) standing.parent list.items }
        ensures numbers { numbers self.new ≡ numbers self.old }
        ensures steps { steps.new ≤ steps.old + 2 * area_of (image_at (world self.old) i).r }
        ensures moment { moment self.new ≡ moment self.old }
        ensures writes { writes self.new + steps.old ≡ writes self.old + steps.new }
    {
        let left = self.place_of(i, &standing);
        let chan = self.lists.get(standing.parent).chan;
        let fill = self.gather_left(standing.fill, &chan, &left);
        // No pixels are given.
        let gathered = Gathered {
            given: Content::Plain(0),
            fill: content(fill, left, &self.room),
        };
        hide(
            &mut self.lists,
            &mut self.pixels,
            &gathered,
            standing.parent,
            i,
            list,
            &left,
            steps,
        );
    }

    // Whether a window stands where its parent has no point, and where it does not stand with that list.
    fn is_away(&self, i: u32, standing: &Standing, list: &[Window]) -> bool
        requires stands { (image_at (world self.now) i).standing ≡ Some standing.now }
        ensures { result ≡ true → IsAway (shape self.now.lists) standing.now.parent i list.now }
    {
        let below = self.lists.get(standing.parent);
        let place = place_among(&below.windows, i);
        let then = place_among(list, i);
        is_apart_from(&place, &below.r, &then)
    }

    // The same from there: what it shows then is kept with it, and nothing becomes bare.
    fn come_back<L: Ledger>(
        &mut self,
        i: u32,
        standing: Standing,
        list: Vec<Window>,
        steps: &mut Steps<L>,
    )
        requires stands { (image_at (world self.old) i).standing ≡ Some standing }
        requires list { IsMoved (world self.old) standing.parent i list.items }
        requires away { IsAway (shape self.old.lists) standing.parent i list.items }
        requires forest { IsForest (with_windows (world self.old) standing.parent list.items) }
        requires spare { wanted_in self.old.pixels (shape self.old.lists) standing.parent list.items ≤ spare_in self.old.pixels }
        ensures world { world self.new ≡ with_windows (world self.old) standing.parent list.items }
        ensures numbers { numbers self.new ≡ numbers self.old }
        ensures steps { steps.new ≤ steps.old + 2 * area_of (image_at (world self.old) i).r }
        ensures moment { moment self.new ≡ moment self.old }
        ensures writes { writes self.new + steps.old ≡ writes self.old + steps.new }
    {
        // No pixels are given.
        let nothing = Gathered {
            given: Content::Plain(0),
            fill: Content::Plain(0),
        };
        unhide(
            &mut self.lists,
            &mut self.pixels,
            &nothing,
            standing.parent,
            i,
            list,
            steps,
        );
    }

    // The same with rows for the pixels that fill where it stood.
    fn move_shown<L: Ledger>(
        &mut self,
        i: u32,
        standing: Standing,
        rows: Vec<u32>,
        list: Vec<Window>,
        steps: &mut Steps<L>,
    )
        requires stands { (image_at (world self.old) i).standing ≡ Some standing }
        requires rows { area_of (image_at (world self.old) i).r ≤ vec_len rows }
        requires list { IsMoved (world self.old) standing.parent i list.items }
        requires forest { IsForest (with_windows (world self.old) standing.parent list.items) }
        requires spare { wanted_in self.old.pixels (shape self.old.lists) standing.parent list.items ≤ spare_in self.old.pixels }
        ensures world { world self.new ≡ with_windows (world self.old) standing.parent list.items }
        ensures numbers { numbers self.new ≡ numbers self.old }
        ensures steps { steps.new ≤ steps.old + 4 * area_of (image_at (world self.old) i).r }
        ensures moment { moment self.new ≡ moment self.old }
        ensures writes { writes self.new + steps.old ≡ writes self.old + steps.new }
    {
        let fill = self.fill_rows(i, &standing, rows);
        self.take_place(i, standing, &fill, list, steps);
    }

    // The same where what fills where it stood is given.
    fn take_place<L: Ledger>(
        &mut self,
        i: u32,
        standing: Standing,
        fill: &Filling,
        list: Vec<Window>,
        steps: &mut Steps<L>,
    )
        requires stands { (image_at (world self.old) i).standing ≡ Some standing }
        requires enough { IsEnough fill.now (left_of (shape self.old.lists) standing.parent i) }
        requires below { (p : Spot) → filled_at fill.now (left_of (shape self.old.lists) standing.parent i) p < 2 ^ channels.depth (image_at (shape self.old.lists) standing.parent).chan }
        requires filled { (p : Spot) → IsTrue (holds (left_of (shape self.old.lists) standing.parent i) p) → filled_at fill.now (left_of (shape self.old.lists) standing.parent i) p ≡ fill_at (world self.old) (image_at (shape self.old.lists) standing.parent).chan standing.fill p }
        requires list { IsMoved (world self.old) standing.parent i list.items }
        requires forest { IsForest (with_windows (world self.old) standing.parent list.items) }
        requires spare { wanted_in self.old.pixels (shape self.old.lists) standing.parent list.items ≤ spare_in self.old.pixels }
        ensures world { world self.new ≡ with_windows (world self.old) standing.parent list.items }
        ensures numbers { numbers self.new ≡ numbers self.old }
        ensures steps { steps.new ≤ steps.old + 4 * area_of (image_at (world self.old) i).r }
        ensures moment { moment self.new ≡ moment self.old }
        ensures writes { writes self.new + steps.old ≡ writes self.old + steps.new }
    {
        let left = self.place_of(i, &standing);
        self.read_shown(i);
        let r = self.lists.get(i).r;
        let gathered = Gathered {
            given: Content::Shown(Picture::new(r, &self.room)),
            fill: fill.content(left),
        };
        relist(
            &mut self.lists,
            &mut self.pixels,
            &gathered,
            standing.parent,
            i,
            list,
            &left,
            steps,
        );
    }
}
