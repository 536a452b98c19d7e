//! A window that takes the place of another, or comes with what another shows.

ghost use Rattle.std.specs.Prelude.{◌≡◌, ◌+◌, ◌*◌, ◌^◌, ◌<◌, ◌≤◌, ℕ, None, Some, true, length, slice_index, vec_len, IfOk, IfSome, IsSome, IsTrue, OnErr, OnOk, if◌then◌else◌};
ghost use Rattle.r9_geom.specs.declared.Point.{Point as Spot};
ghost use Rattle.r9_geom.specs.Geometry.{area_of, holds, IsNearBy, IsOrdered, IsRectNearBy};
ghost use Rattle.r9_plane.specs.Pixels.{number_of};
ghost use Rattle.model_pixel.specs.Channels as channels;
ghost use Rattle.model_forest.specs.Numbers.{next_number, taken};
ghost use Rattle.model_forest.specs.Steps as steps;
ghost use Rattle.model_forest.specs.Steps.{after_replace, after_replace_on};
ghost use Rattle.model_exchanged.specs.exchanged.Exchanged.{after_put_on, after_put_under, LeavesUnseen};
ghost use Rattle.model_forest.specs.View as model;
ghost use Rattle.model_forest.specs.World.{image_at, parent_of, IsLive, SameSize};
ghost use Rattle.r9_locate.specs.locate.Table.{shape};
ghost use Rattle.r9_put.specs.fills.Content as fills;
ghost use Rattle.r9_forest.specs.declared.coming.Given.TheVariants.{Plain, Read};
ghost use Rattle.r9_forest.specs.Replaced.{moved_out, neighbour, put_in, replaced, IsFarOff, IsLater, IsReplacing, IsShown};

use super::coming::{Given, is_full, peek_number};
use super::images::{Images, zeros};
use super::moving::moved_list;
use super::ranking::{Rank, with_window};
use model_forest::{Standing, Window};
use r9_geom::{Point, Rect};
use r9_locate::lists::carried_rect;
use r9_locate::locate::place_among;
use r9_marks::steps::Steps;
use r9_memory::Memory;
use std::sync::ledger::Ledger;

// Far outside of every image.
const OUTSIDE: Point = Point {
    x: 1 << 20,
    y: 1 << 20,
};

// What a new window takes before it comes: its place in a list, and that list.
struct Coming {
    window: Window,
    list: Vec<Window>,
}

// What a replacement takes before anything changes: the new window, the list with it, the list in which the other then moves,
// and room for what fills where that stood, where it shows still.
struct Exchange {
    window: Window,
    list: Vec<Window>,
    later: Vec<Window>,
    rows: Option<Vec<u32>>,
}

impl Images {
    ghost use Rattle.r9_forest.specs.Images.{moment, numbers, world, writes, IsUnchanged};

    /// Makes a window directly above another, with its parent, its fill and its depth, at the place of r's size whose min is
    /// `corner`. It shows what the other shows, counted from both mins, or one raw pixel. The other moves far outside. At most
    /// two pixels are written for each point of r, and four for each point of the other.
    pub fn replace<L: Ledger>(
        &mut self,
        old: u32,
        r: Rect,
        corner: Point,
        raw: u32,
        keep: bool,
        steps: &mut Steps<L>,
    ) -> Result<u32, Memory>
        requires window { IsSome (parent_of (world self.old) old) }
        requires near { IsRectNearBy (2 ^ 34) r }
        requires ordered { IsOrdered r }
        requires corner { IsNearBy (2 ^ 34) corner }
        requires raw { raw < 2 ^ channels.depth (image_at (world self.old) old).chan }
        requires size { keep ≡ true → SameSize r (image_at (world self.old) old).r }
        ensures number { IfOk result (λ i. i ≡ next_number (numbers self.old)) }
        ensures free { IfOk result (λ i. world self.old i ≡ None) }
        ensures made { IfOk result (λ i. world self.new ≡ after_replace (world self.old) i old r corner raw keep) }
        ensures taken { OnOk result (numbers self.new ≡ taken (numbers self.old)) }
        ensures err { OnErr result (IsUnchanged self.old self.new) }
        ensures steps { steps.new ≤ steps.old + 2 * area_of r + 4 * area_of (image_at (world self.old) old).r }
        ensures uncounted { OnErr result (steps.new ≡ steps.old) }
        ensures moment { moment self.new ≡ moment self.old }
        ensures writes { writes self.new + steps.old ≡ writes self.old + steps.new }
    {
        let Some(left) = self.lists.get(old).standing else {
            return Err(Memory);
        };
        self.exchange(
            old,
            left,
            left,
            Rank::Above(old),
            r,
            corner,
            raw,
            keep,
            steps,
        )
    }

    /// Makes a window that shows what another shows, counted from both mins, or one raw pixel, topmost on any image, with the
    /// channels of that image and an image that fills what it uncovers, at the place of r's size whose min is `corner`. The
    /// other moves far outside. At most two pixels are written for each point of r, and four for each point of the other.
    pub fn replace_on<L: Ledger>(
        &mut self,
        old: u32,
        parent: u32,
        fill: u32,
        r: Rect,
        corner: Point,
        raw: u32,
        keep: bool,
        steps: &mut Steps<L>,
    ) -> Result<u32, Memory>
        requires window { IsSome (parent_of (world self.old) old) }
        requires parent { IsLive (world self.old) parent }
        requires fill { IsLive (world self.old) fill }
        requires near { IsRectNearBy (2 ^ 34) r }
        requires ordered { IsOrdered r }
        requires corner { IsNearBy (2 ^ 34) corner }
        requires raw { raw < 2 ^ channels.depth (image_at (world self.old) parent).chan }
        requires size { keep ≡ true → SameSize r (image_at (world self.old) old).r }
        requires chan { keep ≡ true → (image_at (world self.old) parent).chan ≡ (image_at (world self.old) old).chan }
        ensures number { IfOk result (λ i. i ≡ next_number (numbers self.old)) }
        ensures free { IfOk result (λ i. world self.old i ≡ None) }
        ensures made { IfOk result (λ i. world self.new ≡ after_replace_on (world self.old) i old parent fill r corner raw keep) }
        ensures taken { OnOk result (numbers self.new ≡ taken (numbers self.old)) }
        ensures err { OnErr result (IsUnchanged self.old self.new) }
        ensures steps { steps.new ≤ steps.old + 2 * area_of r + 4 * area_of (image_at (world self.old) old).r }
        ensures uncounted { OnErr result (steps.new ≡ steps.old) }
        ensures moment { moment self.new ≡ moment self.old }
        ensures writes { writes self.new + steps.old ≡ writes self.old + steps.new }
    {
        let Some(left) = self.lists.get(old).standing else {
            return Err(Memory);
        };
        let standing = Standing { parent, fill };
        self.exchange(old, left, standing, Rank::Top, r, corner, raw, keep, steps)
    }

    /// Makes a window directly below another, with its parent, its fill and its depth, at the place of r's size whose min is
    /// `corner`, and leaves the other where it stands, for where that goes next. It shows what the other shows, counted from
    /// both mins, or one raw pixel. At most two pixels are written for each point of r.
    pub fn put_under<L: Ledger>(
        &mut self,
        old: u32,
        r: Rect,
        corner: Point,
        raw: u32,
        keep: bool,
        steps: &mut Steps<L>,
    ) -> Result<u32, Memory>
        requires window { IsSome (parent_of (world self.old) old) }
        requires near { IsRectNearBy (2 ^ 34) r }
        requires ordered { IsOrdered r }
        requires corner { IsNearBy (2 ^ 34) corner }
        requires raw { raw < 2 ^ channels.depth (image_at (world self.old) old).chan }
        requires size { keep ≡ true → SameSize r (image_at (world self.old) old).r }
        ensures number { IfOk result (λ i. i ≡ next_number (numbers self.old)) }
        ensures free { IfOk result (λ i. world self.old i ≡ None) }
        ensures made { IfOk result (λ i. world self.new ≡ after_put_under (world self.old) i old r corner raw keep) }
        ensures taken { OnOk result (numbers self.new ≡ taken (numbers self.old)) }
        ensures err { OnErr result (IsUnchanged self.old self.new) }
        ensures steps { steps.new ≤ steps.old + 2 * area_of r }
        ensures uncounted { OnErr result (steps.new ≡ steps.old) }
        ensures moment { moment self.new ≡ moment self.old }
        ensures writes { writes self.new + steps.old ≡ writes self.old + steps.new }
    {
        let Some(left) = self.lists.get(old).standing else {
            return Err(Memory);
        };
        self.put(
            old,
            left,
            left,
            Rank::Below(old),
            r,
            corner,
            raw,
            keep,
            steps,
        )
    }

    /// Makes a window topmost on any image as `replace_on` does, but leaves the other where it stands. At most two pixels are
    /// written for each point of r.
    pub fn put_on<L: Ledger>(
        &mut self,
        old: u32,
        parent: u32,
        fill: u32,
        r: Rect,
        corner: Point,
        raw: u32,
        keep: bool,
        steps: &mut Steps<L>,
    ) -> Result<u32, Memory>
        requires window { IsSome (parent_of (world self.old) old) }
        requires parent { IsLive (world self.old) parent }
        requires fill { IsLive (world self.old) fill }
        requires near { IsRectNearBy (2 ^ 34) r }
        requires ordered { IsOrdered r }
        requires corner { IsNearBy (2 ^ 34) corner }
        requires raw { raw < 2 ^ channels.depth (image_at (world self.old) parent).chan }
        requires size { keep ≡ true → SameSize r (image_at (world self.old) old).r }
        requires chan { keep ≡ true → (image_at (world self.old) parent).chan ≡ (image_at (world self.old) old).chan }
        ensures number { IfOk result (λ i. i ≡ next_number (numbers self.old)) }
        ensures free { IfOk result (λ i. world self.old i ≡ None) }
        ensures made { IfOk result (λ i. world self.new ≡ after_put_on (world self.old) i old parent fill r corner raw keep) }
        ensures taken { OnOk result (numbers self.new ≡ taken (numbers self.old)) }
        ensures err { OnErr result (IsUnchanged self.old self.new) }
        ensures steps { steps.new ≤ steps.old + 2 * area_of r }
        ensures uncounted { OnErr result (steps.new ≡ steps.old) }
        ensures moment { moment self.new ≡ moment self.old }
        ensures writes { writes self.new + steps.old ≡ writes self.old + steps.new }
    {
        let Some(left) = self.lists.get(old).standing else {
            return Err(Memory);
        };
        let standing = Standing { parent, fill };
        self.put(old, left, standing, Rank::Top, r, corner, raw, keep, steps)
    }

    /// Whether a window goes as well from where it stands as from far outside, also once another came on image p.
    pub fn leaves_unseen(&self, old: u32, p: u32) -> bool
        requires { IsSome (parent_of (world self.now) old) }
        ensures { result ≡ true → LeavesUnseen (world self.now) old p }
    {
        let Some(standing) = self.lists.get(old).standing else {
            return false;
        };
        if standing.fill == p || !self.lists.get(standing.fill).windows.is_empty() {
            return false;
        }
        self.is_far_off(old, standing.parent)
    }

    // Whether image q has no point where its window stands far outside.
    fn is_far_off(&self, old: u32, q: u32) -> bool
        requires { parent_of (world self.now) old ≡ Some q }
        ensures { result ≡ true → IsFarOff (shape self.now.lists) old q }
    {
        let own = self.lists.get(old).r;
        let far = carried_rect(&own, own.min, OUTSIDE);
        far.meet(&self.lists.get(q).r).is_empty()
    }

    // Makes a window with what another shows, or one raw pixel. All memory is taken before the first pixel is written.
    fn put<L: Ledger>(
        &mut self,
        old: u32,
        left: Standing,
        standing: Standing,
        rank: Rank,
        r: Rect,
        corner: Point,
        raw: u32,
        keep: bool,
        steps: &mut Steps<L>,
    ) -> Result<u32, Memory>
        requires left { (image_at (world self.old) old).standing ≡ Some left }
        requires beside { (n : ℕ) → neighbour rank ≡ Some n → (n ≡ old) × (standing ≡ left) }
        requires parent { IsLive (world self.old) standing.parent }
        requires fill { IsLive (world self.old) standing.fill }
        requires near { IsRectNearBy (2 ^ 34) r }
        requires ordered { IsOrdered r }
        requires corner { IsNearBy (2 ^ 34) corner }
        requires raw { raw < 2 ^ channels.depth (image_at (world self.old) standing.parent).chan }
        requires size { keep ≡ true → SameSize r (image_at (world self.old) old).r }
        requires chan { keep ≡ true → (image_at (world self.old) standing.parent).chan ≡ (image_at (world self.old) old).chan }
        ensures needs { IfOk result (λ i. IsReplacing (world self.old) i old left standing rank r corner raw keep) }
        ensures number { IfOk result (λ i. i ≡ next_number (numbers self.old)) }
        ensures made { IfOk result (λ i. world self.new ≡ replaced (world self.old) i old standing rank r corner raw keep) }
        ensures taken { OnOk result (numbers self.new ≡ taken (numbers self.old)) }
        ensures err { OnErr result (IsUnchanged self.old self.new) }
        ensures steps { steps.new ≤ steps.old + 2 * area_of r }
        ensures uncounted { OnErr result (steps.new ≡ steps.old) }
        ensures moment { moment self.new ≡ moment self.old }
        ensures writes { writes self.new + steps.old ≡ writes self.old + steps.new }
    {
        self.reserve_window(&r)?;
        let coming = self.first(standing.parent, rank, &r, corner)?;
        let Coming { window, list } = coming;
        let given = self.given(old, keep, raw);
        let parent = standing.parent;
        self.come(window, standing, r, list, given, parent, &[], &[], steps)?;
        Ok(window.image)
    }

    // Makes a window with what another shows, or one raw pixel, and moves the other far outside. All memory is taken before
    // the first pixel is written.
    fn exchange<L: Ledger>(
        &mut self,
        old: u32,
        left: Standing,
        standing: Standing,
        rank: Rank,
        r: Rect,
        corner: Point,
        raw: u32,
        keep: bool,
        steps: &mut Steps<L>,
    ) -> Result<u32, Memory>
        requires left { (image_at (world self.old) old).standing ≡ Some left }
        requires beside { (n : ℕ) → neighbour rank ≡ Some n → (n ≡ old) × (standing ≡ left) }
        requires parent { IsLive (world self.old) standing.parent }
        requires fill { IsLive (world self.old) standing.fill }
        requires near { IsRectNearBy (2 ^ 34) r }
        requires ordered { IsOrdered r }
        requires corner { IsNearBy (2 ^ 34) corner }
        requires raw { raw < 2 ^ channels.depth (image_at (world self.old) standing.parent).chan }
        requires size { keep ≡ true → SameSize r (image_at (world self.old) old).r }
        requires chan { keep ≡ true → (image_at (world self.old) standing.parent).chan ≡ (image_at (world self.old) old).chan }
        ensures needs { IfOk result (λ i. IsReplacing (world self.old) i old left standing rank r corner raw keep) }
        ensures number { IfOk result (λ i. i ≡ next_number (numbers self.old)) }
        ensures made { IfOk result (λ i. world self.new ≡ moved_out (replaced (world self.old) i old standing rank r corner raw keep) left.parent old (image_at (world self.old) old).r) }
        ensures taken { OnOk result (numbers self.new ≡ taken (numbers self.old)) }
        ensures err { OnErr result (IsUnchanged self.old self.new) }
        ensures steps { steps.new ≤ steps.old + 2 * area_of r + 4 * area_of (image_at (world self.old) old).r }
        ensures uncounted { OnErr result (steps.new ≡ steps.old) }
        ensures moment { moment self.new ≡ moment self.old }
        ensures writes { writes self.new + steps.old ≡ writes self.old + steps.new }
    {
        self.reserve_window(&r)?;
        let exchange = self.prepare(old, left, standing.parent, rank, &r, corner)?;
        let Exchange {
            window,
            list,
            later,
            rows,
        } = exchange;
        let given = self.given(old, keep, raw);
        let areas = [place_among(&later, old)];
        self.come(
            window,
            standing,
            r,
            list,
            given,
            left.parent,
            &later,
            &areas,
            steps,
        )?;
        self.move_away(old, left, rows, later, steps);
        Ok(window.image)
    }

    // What a replacement takes before anything changes, where more can stand on the image on which the window comes.
    fn prepare(
        &self,
        old: u32,
        left: Standing,
        parent: u32,
        rank: Rank,
        r: &Rect,
        corner: Point,
    ) -> Result<Exchange, Memory>
        requires left { (image_at (world self.now) old).standing ≡ Some left }
        requires parent { IsLive (world self.now) parent }
        requires near { IsRectNearBy (2 ^ 34) r.now }
        requires corner { IsNearBy (2 ^ 34) corner }
        ensures number { IfOk result (λ exchange. exchange.window.image ≡ next_number (numbers self.now)) }
        ensures place { IfOk result (λ exchange. exchange.window.place ≡ steps.carried_rect r.now r.now.min corner) }
        ensures few { OnOk result (((image_at (shape self.now.lists) parent).depth + 1 < 2 ^ 32) × (length (image_at (shape self.now.lists) parent).windows + 1 < 2 ^ 32)) }
        ensures list { IfOk result (λ exchange. exchange.list.items ≡ put_in rank exchange.window (image_at (shape self.now.lists) parent).windows) }
        ensures later { IfOk result (λ exchange. IsLater (shape self.now.lists) old left.parent parent exchange.list.items exchange.later.items) }
        ensures hidden { IfOk result (λ exchange. exchange.rows ≡ None → IsFarOff (shape self.now.lists) old left.parent) }
        ensures enough { IfOk result (λ exchange. IfSome exchange.rows (λ rows. area_of (image_at (shape self.now.lists) old).r ≤ vec_len rows)) }
    {
        let coming = self.first(parent, rank, r, corner)?;
        let Coming { window, list } = coming;
        let later = self.later(old, left.parent, parent, &list)?;
        let rows = self.room_left(old, left.parent)?;
        Ok(Exchange {
            window,
            list,
            later,
            rows,
        })
    }

    // What a new window takes, where more can stand on the image on which it comes.
    fn first(&self, parent: u32, rank: Rank, r: &Rect, corner: Point) -> Result<Coming, Memory>
        requires parent { IsLive (world self.now) parent }
        requires near { IsRectNearBy (2 ^ 34) r.now }
        requires corner { IsNearBy (2 ^ 34) corner }
        ensures number { IfOk result (λ coming. coming.window.image ≡ next_number (numbers self.now)) }
        ensures place { IfOk result (λ coming. coming.window.place ≡ steps.carried_rect r.now r.now.min corner) }
        ensures few { OnOk result (((image_at (shape self.now.lists) parent).depth + 1 < 2 ^ 32) × (length (image_at (shape self.now.lists) parent).windows + 1 < 2 ^ 32)) }
        ensures list { IfOk result (λ coming. coming.list.items ≡ put_in rank coming.window (image_at (shape self.now.lists) parent).windows) }
    {
        let below = self.lists.get(parent);
        if is_full(below) {
            return Err(Memory);
        }
        let made = self.lists.len();
        let image = peek_number(made, &self.spare);
        let place = carried_rect(r, r.min, corner);
        let window = Window { image, place };
        let list = with_window(self.alloc, &below.windows, window, rank)?;
        Ok(Coming { window, list })
    }

    // Room for what fills where a window of image q stood, where it shows still once it moves far outside.
    fn room_left(&self, old: u32, q: u32) -> Result<Option<Vec<u32>>, Memory>
        requires { parent_of (world self.now) old ≡ Some q }
        ensures hidden { IfOk result (λ rows. rows ≡ None → IsFarOff (shape self.now.lists) old q) }
        ensures enough { IfOk result (λ rows. IfSome rows (λ room. area_of (image_at (shape self.now.lists) old).r ≤ vec_len room)) }
    {
        if self.is_far_off(old, q) {
            return Ok(None);
        }
        let own = self.lists.get(old).r;
        let count = (own.width() * own.height()) as usize;
        Ok(Some(zeros(self.alloc, count)?))
    }

    // What a window comes with in place of another: what that shows, which is read into the room, or one raw pixel.
    fn given(&mut self, old: u32, keep: bool, raw: u32) -> Given
        requires live { IsLive (world self.old) old }
        requires room { area_of (image_at (world self.old) old).r ≤ vec_len self.old.room }
        ensures lists { self.new.lists ≡ self.old.lists }
        ensures pixels { self.new.pixels ≡ self.old.pixels }
        ensures spare { self.new.spare ≡ self.old.spare }
        ensures len { vec_len self.new.room ≡ vec_len self.old.room }
        ensures shown { keep ≡ true → IsShown (world self.old) old self.new.room.items }
        ensures value { result ≡ (if keep then Read else Plain raw) }
    {
        if keep {
            self.read_shown(old);
            Given::Read
        } else {
            Given::Plain(raw)
        }
    }

    // The list in which a window of image q moves far outside, once image p got another list.
    fn later(&self, old: u32, q: u32, p: u32, list: &[Window]) -> Result<Vec<Window>, Memory>
        requires { parent_of (world self.now) old ≡ Some q }
        ensures { IfOk result (λ later. IsLater (shape self.now.lists) old q p list.now later.items) }
    {
        let own = self.lists.get(old).r;
        let far = carried_rect(&own, own.min, OUTSIDE);
        if q == p {
            moved_list(self.alloc, list, old, far)
        } else {
            moved_list(self.alloc, &self.lists.get(q).windows, old, far)
        }
    }
}
