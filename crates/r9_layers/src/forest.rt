//! A forest of images: every call is one step of the world that it stands for.

ghost use Rattle.std.specs.Prelude.{◌≡◌, ◌+◌, ◌++◌, ◌*◌, ◌^◌, ◌<◌, ◌≤◌, ◌↔◌, ◌≢◌, ℕ, None, Some, false, true, length, map, pos, All, IfOk, IfSome, IsOk, IsSome, IsTrue, OnErr, OnOk};
ghost use Rattle.r9_geom.specs.declared.Point.{Point as Spot};
ghost use Rattle.r9_geom.specs.Geometry.{area_of, height, holds, is_empty, meet, width, HasPoints, IsNearBy, IsOrdered, IsRectNearBy};
ghost use Rattle.model_pixel.specs.Channels as channels;
ghost use Rattle.model_pixel.specs.Rows.{row_bytes, row_pixel, rows_of};
ghost use Rattle.r9_chan.specs.Op.{number};
ghost use Rattle.model_forest.specs.Draw.{after_draw, after_fill, after_load};
ghost use Rattle.model_forest.specs.Numbers.{given_back, next_number, no_numbers, taken};
ghost use Rattle.model_forest.specs.Steps.{after_image, after_origin, after_release, after_replace, after_replace_on, after_set, carried_rect};
ghost use Rattle.model_forest.specs.Stack.{after_lower, after_raise, after_window};
ghost use Rattle.model_forest.specs.Cost as cost;
ghost use Rattle.model_forest.specs.Paint.{paint};
ghost use Rattle.model_forest.specs.View as model;
ghost use Rattle.model_forest.specs.World.{image_at, parent_of, CanGo, IsForest, IsLive, SameSize};
ghost use Rattle.model_exchanged.specs.exchanged.Exchanged.{after_put_on, after_put_under, LeavesUnseen};
ghost use Rattle.model_exchanged.specs.resize.Resize.{after_resize, CanResize};
ghost use Rattle.model_kept.specs.Cells.{cell_of, cells_below, in_cell};
ghost use Rattle.model_kept.specs.Keeping.{is_hidden, is_shown, outward, place_among};
ghost use Rattle.r9_marks.specs.marks.Cells.{cells_over, count_cells};
ghost use Rattle.r9_plane.specs.Pixels.{chan_of, pixel_at, rect_of};
ghost use Rattle.r9_store.specs.Tiles.{held, is_held};
ghost use Rattle.r9_forest.specs.Groups.{group_area};
ghost use Rattle.r9_forest.specs.Marks.{shown_in, IsMoment};
ghost use Rattle.r9_locate.specs.watched.Moments.{IsFew, IsSince, Moment};
ghost use Rattle.r9_forest.specs.declared.keeping.Kept.TheVariants.{Plane as OnPlane, Tile as InTile};
ghost use Rattle.r9_layers.specs.Area.{drawing_of, IsTaskOf};
ghost use Rattle.r9_layers.specs.Told.{info_of};

use super::drawing;
use super::task::Task;
use r9_chan::{Chan, Op};
use r9_forest::{Images, Kept};
use r9_geom::{Point, Rect};
use r9_locate::info::{ImageNo, Info};
use r9_marks::steps::Steps;
use r9_memory::Memory;
use r9_plane::Plane;
use r9_store::Store;
use r9_text::Bytes;
use std::alloc::Global;
use std::sync::ledger::Ledger;

/// Images by number, and the windows that stand on them.
///
/// Contracts see the world of images, `world`; the numbers that were given out and came back, `numbers`; and `room`, for
/// how many points a drawing takes no memory, which no call lowers. A call that answers `Memory` leaves world and numbers
/// as they were. A call that writes pixels is lent a count, to which it adds one for each that it writes: `steps` says how
/// many those are at most. Coordinates that are given are within 2^34 of 0.
#[derive(Drop)]
pub struct Forest {
    images: Images,
    // What is drawn stands here first, since the target may be the source too.
    pixels: Vec<u32>,
}

#[tactic(auto, unfolding(crate::specs::Forest::world, crate::specs::Forest::numbers, crate::specs::Forest::room, crate::specs::Forest::moment, crate::specs::Forest::writes, crate::specs::Forest::marked, crate::specs::Forest::mark_count, crate::specs::Keeping::on_plane, crate::specs::Keeping::tiles_of, crate::specs::Keeping::pixel_in, crate::specs::Keeping::tile_of, crate::specs::Keeping::kept_of,))]
impl Forest {
    ghost use Rattle.r9_layers.specs.Forest.{mark_count, marked, moment, numbers, room, world, writes, IsUnchanged};
    ghost use Rattle.r9_layers.specs.Keeping.{kept_of, on_plane, pixel_in, tile_of, tiles_of};

    /// A forest with no image.
    pub fn new(alloc: Global) -> Self
        ensures world { world result ≡ (λ _. None) }
        ensures numbers { numbers result ≡ no_numbers }
        ensures room { room result ≡ 0 }
    {
        Forest {
            images: Images::new(alloc),
            pixels: Vec::new(alloc),
        }
    }

    /// What each forest keeps; nothing is done.
    pub fn keeps(&self)
        ensures { IsForest (world self.now) }
    {
        self.images.keeps();
    }

    /// Makes an image of one raw pixel that stands nowhere, with all of r as its clip rectangle, under the next number.
    pub fn image(&mut self, r: Rect, chan: Chan, raw: u32) -> Result<ImageNo, Memory>
        requires near { IsRectNearBy (2 ^ 34) r }
        requires ordered { IsOrdered r }
        requires raw { raw < 2 ^ channels.depth chan }
        ensures number { IfOk result (λ i. i.0 ≡ next_number (numbers self.old)) }
        ensures free { IfOk result (λ i. world self.old i.0 ≡ None) }
        ensures made { IfOk result (λ i. world self.new ≡ after_image (world self.old) i.0 r chan raw) }
        ensures taken { OnOk result (numbers self.new ≡ taken (numbers self.old)) }
        ensures room { room self.old ≤ room self.new }
        ensures err { OnErr result (IsUnchanged self.old self.new) }
        ensures moment { (j : ℕ) → IsLive (world self.old) j → moment self.new j ≡ moment self.old j }
        ensures writes { writes self.new ≡ writes self.old }
    {
        let number = self.images.image(r, chan, raw)?;
        Ok(ImageNo(number))
    }

    /// Makes a window of one raw pixel on an image, topmost, with the channels of that image, all of r as its place and its
    /// clip rectangle, and an image that fills what it uncovers.
    pub fn window<L: Ledger>(
        &mut self,
        parent: ImageNo,
        fill: ImageNo,
        r: Rect,
        raw: u32,
        steps: &mut Steps<L>,
    ) -> Result<ImageNo, Memory>
        requires parent { IsLive (world self.old) parent.0 }
        requires fill { IsLive (world self.old) fill.0 }
        requires near { IsRectNearBy (2 ^ 34) r }
        requires ordered { IsOrdered r }
        requires raw { raw < 2 ^ channels.depth (image_at (world self.old) parent.0).chan }
        ensures number { IfOk result (λ i. i.0 ≡ next_number (numbers self.old)) }
        ensures free { IfOk result (λ i. world self.old i.0 ≡ None) }
        ensures made { IfOk result (λ i. world self.new ≡ after_window (world self.old) i.0 parent.0 fill.0 r raw) }
        ensures taken { OnOk result (numbers self.new ≡ taken (numbers self.old)) }
        ensures room { room self.old ≤ room self.new }
        ensures err { OnErr result (IsUnchanged self.old self.new) }
        ensures steps { steps.new ≤ steps.old + 2 * area_of r }
        ensures uncounted { OnErr result (steps.new ≡ steps.old) }
        ensures moment { moment self.new ≡ moment self.old }
        ensures writes { writes self.new + steps.old ≡ writes self.old + steps.new }
    {
        let number = self.images.window(parent.0, fill.0, r, raw, steps)?;
        Ok(ImageNo(number))
    }

    /// Gives an image another min in its own coordinates, where its pixels and its windows move along, and a window another
    /// corner on its parent.
    pub fn origin<L: Ledger>(
        &mut self,
        i: ImageNo,
        min: Point,
        corner: Point,
        steps: &mut Steps<L>,
    ) -> Result<(), Memory>
        requires live { IsLive (world self.old) i.0 }
        requires min { IsNearBy (2 ^ 34) min }
        requires corner { IsNearBy (2 ^ 34) corner }
        ensures moved { OnOk result (world self.new ≡ after_origin (world self.old) i.0 min corner) }
        ensures numbers { numbers self.new ≡ numbers self.old }
        ensures room { room self.old ≤ room self.new }
        ensures err { OnErr result (world self.new ≡ world self.old) }
        ensures steps { steps.new ≤ steps.old + 4 * area_of (image_at (world self.old) i.0).r }
        ensures uncounted { OnErr result (steps.new ≡ steps.old) }
        ensures still { IfSome (image_at (world self.old) i.0).standing (λ s. place_among (image_at (world self.old) s.parent).windows i.0 ≡ carried_rect (image_at (world self.old) i.0).r (image_at (world self.old) i.0).r.min corner) → steps.new ≡ steps.old }
        ensures moment { moment self.new ≡ moment self.old }
        ensures writes { writes self.new + steps.old ≡ writes self.old + steps.new }
    {
        self.images.origin(i.0, min, corner, steps)
    }

    /// Gives an image that stands nowhere, such as the display, another size, and all of it as its clip rectangle. Its windows
    /// stay where they stand; points that it had keep their pixels, and each other one has a raw pixel.
    pub fn resize<L: Ledger>(
        &mut self,
        i: ImageNo,
        width: u32,
        height: u32,
        raw: u32,
        steps: &mut Steps<L>,
    ) -> Result<(), Memory>
        requires can { CanResize (world self.old) i.0 }
        requires raw { raw < 2 ^ channels.depth (image_at (world self.old) i.0).chan }
        ensures resized { OnOk result (world self.new ≡ after_resize (world self.old) i.0 width height raw) }
        ensures numbers { numbers self.new ≡ numbers self.old }
        ensures room { room self.old ≤ room self.new }
        ensures err { OnErr result (IsUnchanged self.old self.new) }
        ensures steps { steps.new ≤ steps.old + 2 * area_of (image_at (world self.old) i.0).r + 2 * (width * height) }
        ensures uncounted { OnErr result (steps.new ≡ steps.old) }
        ensures moment { moment self.new ≡ moment self.old }
        ensures writes { writes self.new + steps.old ≡ writes self.old + steps.new }
    {
        self.images.resize(i.0, width, height, raw, steps)
    }

    /// Raises windows of one image above its others, in their order.
    pub fn raise<L: Ledger>(
        &mut self,
        group: &[ImageNo],
        steps: &mut Steps<L>,
    ) -> Result<(), Memory>
        requires windows { All (λ i. IsSome (parent_of (world self.old) i.0)) group.now }
        ensures raised { OnOk result (world self.new ≡ after_raise (world self.old) (map (λ i. i.0) group.now)) }
        ensures numbers { numbers self.new ≡ numbers self.old }
        ensures room { room self.old ≤ room self.new }
        ensures err { OnErr result (world self.new ≡ world self.old) }
        ensures steps { steps.new ≤ steps.old + 2 * group_area (world self.old) (map (λ i. i.0) group.now) }
        ensures uncounted { OnErr result (steps.new ≡ steps.old) }
        ensures moment { moment self.new ≡ moment self.old }
        ensures writes { writes self.new + steps.old ≡ writes self.old + steps.new }
    {
        self.images.raise(group, steps)
    }

    /// Lowers windows of one image below its others, in their order.
    pub fn lower<L: Ledger>(
        &mut self,
        group: &[ImageNo],
        steps: &mut Steps<L>,
    ) -> Result<(), Memory>
        requires windows { All (λ i. IsSome (parent_of (world self.old) i.0)) group.now }
        ensures lowered { OnOk result (world self.new ≡ after_lower (world self.old) (map (λ i. i.0) group.now)) }
        ensures numbers { numbers self.new ≡ numbers self.old }
        ensures room { room self.old ≤ room self.new }
        ensures err { OnErr result (world self.new ≡ world self.old) }
        ensures steps { steps.new ≤ steps.old + 2 * group_area (world self.old) (map (λ i. i.0) group.now) }
        ensures uncounted { OnErr result (steps.new ≡ steps.old) }
        ensures moment { moment self.new ≡ moment self.old }
        ensures writes { writes self.new + steps.old ≡ writes self.old + steps.new }
    {
        self.images.lower(group, steps)
    }

    /// Makes a window directly above another, with its parent, its fill and its depth, at the place of r's size whose min is
    /// `corner`. It shows what the other shows, counted from both mins, or one raw pixel. The other moves far outside.
    pub fn replace<L: Ledger>(
        &mut self,
        old: ImageNo,
        r: Rect,
        corner: Point,
        raw: u32,
        keep: bool,
        steps: &mut Steps<L>,
    ) -> Result<ImageNo, Memory>
        requires window { IsSome (parent_of (world self.old) old.0) }
        requires near { IsRectNearBy (2 ^ 34) r }
        requires ordered { IsOrdered r }
        requires corner { IsNearBy (2 ^ 34) corner }
        requires raw { raw < 2 ^ channels.depth (image_at (world self.old) old.0).chan }
        requires size { keep ≡ true → SameSize r (image_at (world self.old) old.0).r }
        ensures number { IfOk result (λ i. i.0 ≡ next_number (numbers self.old)) }
        ensures free { IfOk result (λ i. world self.old i.0 ≡ None) }
        ensures made { IfOk result (λ i. world self.new ≡ after_replace (world self.old) i.0 old.0 r corner raw keep) }
        ensures taken { OnOk result (numbers self.new ≡ taken (numbers self.old)) }
        ensures room { room self.old ≤ room self.new }
        ensures err { OnErr result (IsUnchanged self.old self.new) }
        ensures steps { steps.new ≤ steps.old + 2 * area_of r + 4 * area_of (image_at (world self.old) old.0).r }
        ensures uncounted { OnErr result (steps.new ≡ steps.old) }
        ensures moment { moment self.new ≡ moment self.old }
        ensures writes { writes self.new + steps.old ≡ writes self.old + steps.new }
    {
        let number = self.images.replace(old.0, r, corner, raw, keep, steps)?;
        Ok(ImageNo(number))
    }

    /// Makes a window that shows what another shows, counted from both mins, or one raw pixel, topmost on any image, with the
    /// channels of that image and an image that fills what it uncovers, at the place of r's size whose min is `corner`. The
    /// other moves far outside.
    pub fn replace_on<L: Ledger>(
        &mut self,
        old: ImageNo,
        parent: ImageNo,
        fill: ImageNo,
        r: Rect,
        corner: Point,
        raw: u32,
        keep: bool,
        steps: &mut Steps<L>,
    ) -> Result<ImageNo, Memory>
        requires window { IsSome (parent_of (world self.old) old.0) }
        requires parent { IsLive (world self.old) parent.0 }
        requires fill { IsLive (world self.old) fill.0 }
        requires near { IsRectNearBy (2 ^ 34) r }
        requires ordered { IsOrdered r }
        requires corner { IsNearBy (2 ^ 34) corner }
        requires raw { raw < 2 ^ channels.depth (image_at (world self.old) parent.0).chan }
        requires size { keep ≡ true → SameSize r (image_at (world self.old) old.0).r }
        requires chan { keep ≡ true → (image_at (world self.old) parent.0).chan ≡ (image_at (world self.old) old.0).chan }
        ensures number { IfOk result (λ i. i.0 ≡ next_number (numbers self.old)) }
        ensures free { IfOk result (λ i. world self.old i.0 ≡ None) }
        ensures made { IfOk result (λ i. world self.new ≡ after_replace_on (world self.old) i.0 old.0 parent.0 fill.0 r corner raw keep) }
        ensures taken { OnOk result (numbers self.new ≡ taken (numbers self.old)) }
        ensures room { room self.old ≤ room self.new }
        ensures err { OnErr result (IsUnchanged self.old self.new) }
        ensures steps { steps.new ≤ steps.old + 2 * area_of r + 4 * area_of (image_at (world self.old) old.0).r }
        ensures uncounted { OnErr result (steps.new ≡ steps.old) }
        ensures moment { moment self.new ≡ moment self.old }
        ensures writes { writes self.new + steps.old ≡ writes self.old + steps.new }
    {
        let number = self
            .images
            .replace_on(old.0, parent.0, fill.0, r, corner, raw, keep, steps)?;
        Ok(ImageNo(number))
    }

    /// Makes a window directly below another, with its parent, its fill and its depth, at the place of r's size whose min is
    /// `corner`, and leaves the other where it stands, for where that goes next. It shows what the other shows, counted from
    /// both mins, or one raw pixel.
    pub fn put_under<L: Ledger>(
        &mut self,
        old: ImageNo,
        r: Rect,
        corner: Point,
        raw: u32,
        keep: bool,
        steps: &mut Steps<L>,
    ) -> Result<ImageNo, Memory>
        requires window { IsSome (parent_of (world self.old) old.0) }
        requires near { IsRectNearBy (2 ^ 34) r }
        requires ordered { IsOrdered r }
        requires corner { IsNearBy (2 ^ 34) corner }
        requires raw { raw < 2 ^ channels.depth (image_at (world self.old) old.0).chan }
        requires size { keep ≡ true → SameSize r (image_at (world self.old) old.0).r }
        ensures number { IfOk result (λ i. i.0 ≡ next_number (numbers self.old)) }
        ensures free { IfOk result (λ i. world self.old i.0 ≡ None) }
        ensures made { IfOk result (λ i. world self.new ≡ after_put_under (world self.old) i.0 old.0 r corner raw keep) }
        ensures taken { OnOk result (numbers self.new ≡ taken (numbers self.old)) }
        ensures room { room self.old ≤ room self.new }
        ensures err { OnErr result (IsUnchanged self.old self.new) }
        ensures steps { steps.new ≤ steps.old + 2 * area_of r }
        ensures uncounted { OnErr result (steps.new ≡ steps.old) }
        ensures moment { moment self.new ≡ moment self.old }
        ensures writes { writes self.new + steps.old ≡ writes self.old + steps.new }
    {
        let number = self.images.put_under(old.0, r, corner, raw, keep, steps)?;
        Ok(ImageNo(number))
    }

    /// Makes a window topmost on any image as `replace_on` does, but leaves the other where it stands, for where that goes next.
    pub fn put_on<L: Ledger>(
        &mut self,
        old: ImageNo,
        parent: ImageNo,
        fill: ImageNo,
        r: Rect,
        corner: Point,
        raw: u32,
        keep: bool,
        steps: &mut Steps<L>,
    ) -> Result<ImageNo, Memory>
        requires window { IsSome (parent_of (world self.old) old.0) }
        requires parent { IsLive (world self.old) parent.0 }
        requires fill { IsLive (world self.old) fill.0 }
        requires near { IsRectNearBy (2 ^ 34) r }
        requires ordered { IsOrdered r }
        requires corner { IsNearBy (2 ^ 34) corner }
        requires raw { raw < 2 ^ channels.depth (image_at (world self.old) parent.0).chan }
        requires size { keep ≡ true → SameSize r (image_at (world self.old) old.0).r }
        requires chan { keep ≡ true → (image_at (world self.old) parent.0).chan ≡ (image_at (world self.old) old.0).chan }
        ensures number { IfOk result (λ i. i.0 ≡ next_number (numbers self.old)) }
        ensures free { IfOk result (λ i. world self.old i.0 ≡ None) }
        ensures made { IfOk result (λ i. world self.new ≡ after_put_on (world self.old) i.0 old.0 parent.0 fill.0 r corner raw keep) }
        ensures taken { OnOk result (numbers self.new ≡ taken (numbers self.old)) }
        ensures room { room self.old ≤ room self.new }
        ensures err { OnErr result (IsUnchanged self.old self.new) }
        ensures steps { steps.new ≤ steps.old + 2 * area_of r }
        ensures uncounted { OnErr result (steps.new ≡ steps.old) }
        ensures moment { moment self.new ≡ moment self.old }
        ensures writes { writes self.new + steps.old ≡ writes self.old + steps.new }
    {
        let number = self
            .images
            .put_on(old.0, parent.0, fill.0, r, corner, raw, keep, steps)?;
        Ok(ImageNo(number))
    }

    /// Whether a window goes as well from where it stands as from far outside, also once another came on image p.
    pub fn leaves_unseen(&self, old: ImageNo, p: ImageNo) -> bool
        requires { IsSome (parent_of (world self.now) old.0) }
        ensures { result ≡ true → LeavesUnseen (world self.now) old.0 p.0 }
    {
        self.images.leaves_unseen(old.0, p.0)
    }

    /// Takes an image away on which nothing stands and which fills for no window: first from the list that it stands in,
    /// where the fill then shows. It takes no memory.
    pub fn release<L: Ledger>(&mut self, i: ImageNo, steps: &mut Steps<L>)
        requires { CanGo (world self.old) i.0 }
        ensures world { world self.new ≡ after_release (world self.old) i.0 }
        ensures back { numbers self.new ≡ given_back (numbers self.old) i.0 }
        ensures room { room self.old ≤ room self.new }
        ensures steps { steps.new ≤ steps.old + 2 * area_of (image_at (world self.old) i.0).r }
        ensures bare { parent_of (world self.old) i.0 ≡ None → steps.new ≡ steps.old }
        ensures moment { (j : ℕ) → IsLive (world self.new) j → moment self.new j ≡ moment self.old j }
        ensures writes { writes self.new + steps.old ≡ writes self.old + steps.new }
    {
        self.images.release(i.0, steps);
    }

    /// Whether a cell of an image, of 32 by 32 points counted from its min, is marked: whether a point of it was written since its
    /// marks were cleared. A window has no marks.
    pub fn marked(&self, i: ImageNo, column: u32, row: u32) -> bool
        requires live { IsLive (world self.now) i.0 }
        requires column { column < cells_over (width (image_at (world self.now) i.0).r) }
        requires row { row < cells_over (height (image_at (world self.now) i.0).r) }
        ensures { result ≡ marked self.now i.0 column row }
    {
        self.images.marked(i.0, column, row)
    }

    /// Clears the marks of an image that stands nowhere, whose moment is this one then.
    pub fn clear_marks(&mut self, i: ImageNo)
        requires live { IsLive (world self.old) i.0 }
        ensures world { world self.new ≡ world self.old }
        ensures numbers { numbers self.new ≡ numbers self.old }
        ensures room { room self.old ≤ room self.new }
        ensures marks { (column row : ℕ) → marked self.new i.0 column row ≡ false }
        ensures count { mark_count self.new i.0 ≡ 0 }
        ensures here { (then : Moment) → moment self.new i.0 ≡ Some then → IsMoment then (image_at (world self.old) i.0).r (shown_in (world self.old) i.0) (marked self.new i.0) 0 (writes self.old) }
        ensures nowhere { parent_of (world self.old) i.0 ≡ None → IsSome (moment self.new i.0) }
        ensures elsewhere { (j : ℕ) → j ≢ i.0 → moment self.new j ≡ moment self.old j }
        ensures writes { writes self.new ≡ writes self.old }
    {
        self.images.clear_marks(i.0);
    }

    /// The moment of an image that stands nowhere is this one. Nothing is done.
    pub fn look(&mut self, i: ImageNo)
        requires live { IsLive (world self.old) i.0 }
        ensures world { world self.new ≡ world self.old }
        ensures numbers { numbers self.new ≡ numbers self.old }
        ensures room { room self.old ≤ room self.new }
        ensures marks { marked self.new i.0 ≡ marked self.old i.0 }
        ensures count { mark_count self.new i.0 ≡ mark_count self.old i.0 }
        ensures here { (then : Moment) → moment self.new i.0 ≡ Some then → IsMoment then (image_at (world self.old) i.0).r (shown_in (world self.old) i.0) (marked self.old i.0) (mark_count self.old i.0) (writes self.old) }
        ensures nowhere { parent_of (world self.old) i.0 ≡ None → IsSome (moment self.new i.0) }
        ensures elsewhere { (j : ℕ) → j ≢ i.0 → moment self.new j ≡ moment self.old j }
        ensures writes { writes self.new ≡ writes self.old }
    {
        self.images.look(i.0);
    }

    /// Since the moment of an image each cell of it in which a pixel has changed was marked, none has lost its mark, and no more
    /// were marked than pixels were written. Nothing is done.
    pub fn since(&self, i: ImageNo)
        requires live { IsLive (world self.now) i.0 }
        ensures since { (then : Moment) → moment self.now i.0 ≡ Some then → IsSince then (image_at (world self.now) i.0).r (shown_in (world self.now) i.0) (marked self.now i.0) }
        ensures few { (then : Moment) → moment self.now i.0 ≡ Some then → IsFew then (mark_count self.now i.0) (writes self.now) }
        ensures most { mark_count self.now i.0 < 2 ^ 64 }
        ensures nowhere { parent_of (world self.now) i.0 ≡ None → IsSome (moment self.now i.0) }
        ensures counted { (then : Moment) → moment self.now i.0 ≡ Some then → mark_count self.now i.0 ≡ count_cells (cells_over (width (image_at (world self.now) i.0).r)) (cells_over (height (image_at (world self.now) i.0).r)) (marked self.now i.0) }
        ensures fits { (then : Moment) → moment self.now i.0 ≡ Some then → (column row : ℕ) → column < width (image_at (world self.now) i.0).r → row < height (image_at (world self.now) i.0).r → shown_in (world self.now) i.0 column row < 2 ^ channels.depth (image_at (world self.now) i.0).chan }
    {
        self.images.since(i.0);
    }

    /// Makes an image repeat or not, and gives it another clip rectangle. It takes no memory.
    pub fn set(&mut self, i: ImageNo, repl: bool, clipr: Rect)
        requires live { IsLive (world self.old) i.0 }
        requires points { repl ≡ true → HasPoints (image_at (world self.old) i.0).r }
        requires near { IsRectNearBy (2 ^ 34) clipr }
        ensures world { world self.new ≡ after_set (world self.old) i.0 repl clipr }
        ensures numbers { numbers self.new ≡ numbers self.old }
        ensures room { room self.old ≤ room self.new }
        ensures moment { moment self.new ≡ moment self.old }
        ensures writes { writes self.new ≡ writes self.old }
    {
        self.images.set(i.0, repl, clipr);
    }

    /// Makes room, so that a drawing of at most so many points takes no memory.
    pub fn room(&mut self, points: u64) -> Result<(), Memory>
        ensures ok { OnOk result (points ≤ room self.new) }
        ensures room { room self.old ≤ room self.new }
        ensures same { IsUnchanged self.old self.new }
        ensures memory { points ≤ room self.old → IsOk result }
        ensures moment { moment self.new ≡ moment self.old }
        ensures writes { writes self.new ≡ writes self.old }
    {
        let points = points as usize;
        if self.pixels.len() < points {
            self.pixels.resize(points, 0)?;
        }
        Ok(())
    }

    /// Draws on `dst`, within `clip`, into `r`, the source so that its point `sp` stands at `r.min`, seen through the mask
    /// so that its point `mp` stands there (draw(2)). All three are read in the state before. There is no want of memory
    /// where r, cut to the rectangle of `dst`, has at most `room` points.
    pub fn draw<L: Ledger>(
        &mut self,
        dst: ImageNo,
        clip: Rect,
        r: Rect,
        src: ImageNo,
        sp: Point,
        mask: ImageNo,
        mp: Point,
        op: Op,
        steps: &mut Steps<L>,
    ) -> Result<(), Memory>
        requires dst { IsLive (world self.old) dst.0 }
        requires src { IsLive (world self.old) src.0 }
        requires mask { IsLive (world self.old) mask.0 }
        requires near { IsRectNearBy (2 ^ 34) r }
        requires source_near { IsNearBy (2 ^ 34) sp }
        requires mask_near { IsNearBy (2 ^ 34) mp }
        ensures ok { OnOk result (world self.new ≡ after_draw (world self.old) (record { dst = dst.0; clip = clip; r = r; src = src.0; sp = sp; mask = Some mask.0; mp = mp; op = number op })) }
        ensures numbers { numbers self.new ≡ numbers self.old }
        ensures room { room self.old ≤ room self.new }
        ensures err { OnErr result (world self.new ≡ world self.old) }
        ensures memory { area_of (meet r (image_at (world self.old) dst.0).r) ≤ room self.old → IsOk result }
        ensures steps { steps.new ≤ steps.old + area_of (cost.area (world self.old) (record { dst = dst.0; clip = clip; r = r; src = src.0; sp = sp; mask = Some mask.0; mp = mp; op = number op })) }
        ensures uncounted { OnErr result (steps.new ≡ steps.old) }
        ensures moment { moment self.new ≡ moment self.old }
        ensures writes { writes self.new + steps.old ≡ writes self.old + steps.new }
    {
        self.run(
            &Task {
                dst: dst.0,
                clip,
                r,
                src: src.0,
                sp,
                mask: Some(mask.0),
                mp,
                op,
            },
            steps,
        )
    }

    /// The same with a full mask, which shows all of the source.
    pub fn draw_unmasked<L: Ledger>(
        &mut self,
        dst: ImageNo,
        clip: Rect,
        r: Rect,
        src: ImageNo,
        sp: Point,
        op: Op,
        steps: &mut Steps<L>,
    ) -> Result<(), Memory>
        requires dst { IsLive (world self.old) dst.0 }
        requires src { IsLive (world self.old) src.0 }
        requires near { IsRectNearBy (2 ^ 34) r }
        requires source_near { IsNearBy (2 ^ 34) sp }
        ensures ok { OnOk result (world self.new ≡ after_draw (world self.old) (record { dst = dst.0; clip = clip; r = r; src = src.0; sp = sp; mask = None; mp = record { x = pos 0; y = pos 0 }; op = number op })) }
        ensures numbers { numbers self.new ≡ numbers self.old }
        ensures room { room self.old ≤ room self.new }
        ensures err { OnErr result (world self.new ≡ world self.old) }
        ensures memory { area_of (meet r (image_at (world self.old) dst.0).r) ≤ room self.old → IsOk result }
        ensures steps { steps.new ≤ steps.old + area_of (cost.area (world self.old) (record { dst = dst.0; clip = clip; r = r; src = src.0; sp = sp; mask = None; mp = record { x = pos 0; y = pos 0 }; op = number op })) }
        ensures uncounted { OnErr result (steps.new ≡ steps.old) }
        ensures moment { moment self.new ≡ moment self.old }
        ensures writes { writes self.new + steps.old ≡ writes self.old + steps.new }
    {
        self.run(
            &Task {
                dst: dst.0,
                clip,
                r,
                src: src.0,
                sp,
                mask: None,
                mp: Point { x: 0, y: 0 },
                op,
            },
            steps,
        )
    }

    // One drawing, through an image or through a full mask.
    fn run<L: Ledger>(&mut self, task: &Task, steps: &mut Steps<L>) -> Result<(), Memory>
        requires { IsTaskOf (world self.old) task.now }
        ensures ok { OnOk result (world self.new ≡ after_draw (world self.old) (drawing_of task.now)) }
        ensures numbers { numbers self.new ≡ numbers self.old }
        ensures room { room self.old ≤ room self.new }
        ensures err { OnErr result (world self.new ≡ world self.old) }
        ensures memory { area_of (meet task.now.r (image_at (world self.old) task.now.dst).r) ≤ room self.old → IsOk result }
        ensures steps { steps.new ≤ steps.old + area_of (cost.area (world self.old) (drawing_of task.now)) }
        ensures uncounted { OnErr result (steps.new ≡ steps.old) }
        ensures moment { moment self.new ≡ moment self.old }
        ensures writes { writes self.new + steps.old ≡ writes self.old + steps.new }
    {
        let area = drawing::area(&self.images, task);
        if area.is_empty() {
            return Ok(());
        }
        if let Some(raw) = drawing::solid_pixel(&self.images, task) {
            drawing::draw_solid(&mut self.images, task, &area, raw, steps);
            return Ok(());
        }
        if drawing::draw_in_place(&mut self.images, task, &area, steps) {
            return Ok(());
        }
        self.compose(task, &area, steps)
    }

    // One drawing on the points of an area, whose pixels stand beside the images first.
    fn compose<L: Ledger>(
        &mut self,
        task: &Task,
        area: &Rect,
        steps: &mut Steps<L>,
    ) -> Result<(), Memory>
        requires live { IsTaskOf (world self.old) task.now }
        requires area { area.now ≡ cost.area (world self.old) (drawing_of task.now) }
        requires some { is_empty area.now ≡ false }
        ensures ok { OnOk result (world self.new ≡ after_draw (world self.old) (drawing_of task.now)) }
        ensures numbers { numbers self.new ≡ numbers self.old }
        ensures room { room self.old ≤ room self.new }
        ensures err { OnErr result (world self.new ≡ world self.old) }
        ensures memory { area_of area.now ≤ room self.old → IsOk result }
        ensures steps { steps.new ≤ steps.old + area_of area.now }
        ensures uncounted { OnErr result (steps.new ≡ steps.old) }
        ensures moment { moment self.new ≡ moment self.old }
        ensures writes { writes self.new + steps.old ≡ writes self.old + steps.new }
    {
        let points = match area.width().checked_mul(area.height()) {
            Some(points) => points,
            None => return Err(Memory),
        };
        self.room(points)?;
        drawing::draw(&mut self.images, task, area, &mut self.pixels, steps);
        Ok(())
    }

    /// Takes the pixels of a rectangle of an image from its rows (image(6)).
    pub fn load<L: Ledger>(
        &mut self,
        i: ImageNo,
        r: Rect,
        rows: &[u8],
        steps: &mut Steps<L>,
    ) -> Result<(), Memory>
        requires live { IsLive (world self.old) i.0 }
        requires near { IsRectNearBy (2 ^ 34) r }
        requires ordered { IsOrdered r }
        requires inside { (p : Spot) → IsTrue (holds r p) → IsTrue (holds (image_at (world self.old) i.0).r p) }
        requires rows { length rows.now ≡ row_bytes r (channels.depth (image_at (world self.old) i.0).chan) * height r }
        ensures ok { OnOk result (world self.new ≡ after_load (world self.old) i.0 r (row_pixel r (channels.depth (image_at (world self.old) i.0).chan) rows.now)) }
        ensures numbers { numbers self.new ≡ numbers self.old }
        ensures room { room self.old ≤ room self.new }
        ensures err { OnErr result (world self.new ≡ world self.old) }
        ensures steps { steps.new ≤ steps.old + area_of r }
        ensures uncounted { OnErr result (steps.new ≡ steps.old) }
        ensures moment { moment self.new ≡ moment self.old }
        ensures writes { writes self.new + steps.old ≡ writes self.old + steps.new }
    {
        self.images.load(i.0, r, rows, steps);
        Ok(())
    }

    /// Writes one raw pixel at the points of a rectangle of an image that no window covers. It takes no memory.
    pub fn fill<L: Ledger>(&mut self, i: ImageNo, r: Rect, raw: u32, steps: &mut Steps<L>)
        requires live { IsLive (world self.old) i.0 }
        requires near { IsRectNearBy (2 ^ 34) r }
        requires ordered { IsOrdered r }
        requires inside { (p : Spot) → IsTrue (holds r p) → IsTrue (holds (image_at (world self.old) i.0).r p) }
        requires raw { raw < 2 ^ channels.depth (image_at (world self.old) i.0).chan }
        ensures world { world self.new ≡ after_fill (world self.old) i.0 r raw }
        ensures numbers { numbers self.new ≡ numbers self.old }
        ensures room { room self.old ≤ room self.new }
        ensures steps { steps.new ≤ steps.old + area_of r }
        ensures moment { moment self.new ≡ moment self.old }
        ensures writes { writes self.new + steps.old ≡ writes self.old + steps.new }
    {
        self.images.fill(i.0, r, raw, steps);
    }

    /// The rows of what an image shows in a rectangle (image(6)): the picture that is painted from back to front, too.
    pub fn unload(&self, i: ImageNo, r: Rect) -> Result<Bytes, Memory>
        requires live { IsLive (world self.now) i.0 }
        requires near { IsRectNearBy (2 ^ 34) r }
        requires ordered { IsOrdered r }
        requires inside { (p : Spot) → IsTrue (holds r p) → IsTrue (holds (image_at (world self.now) i.0).r p) }
        ensures view { IfOk result (λ rows. rows ≡ rows_of r (channels.depth (image_at (world self.now) i.0).chan) (model.view (world self.now) i.0)) }
        ensures paint { IfOk result (λ rows. rows ≡ rows_of r (channels.depth (image_at (world self.now) i.0).chan) (paint (world self.now) i.0)) }
    {
        self.images.unload(i.0, r)
    }

    /// Bytes with the rows of what an image shows in a rectangle behind them (image(6)): of the picture that is painted from back to
    /// front, too. For want of memory there are none.
    pub fn with_rows(&self, i: ImageNo, r: Rect, front: Vec<u8>) -> Result<Vec<u8>, Memory>
        requires live { IsLive (world self.now) i.0 }
        requires near { IsRectNearBy (2 ^ 34) r }
        requires ordered { IsOrdered r }
        requires inside { (p : Spot) → IsTrue (holds r p) → IsTrue (holds (image_at (world self.now) i.0).r p) }
        ensures paint { IfOk result (λ all. all.items ≡ front.items ++ rows_of r (channels.depth (image_at (world self.now) i.0).chan) (paint (world self.now) i.0)) }
    {
        self.images.with_rows(i.0, r, front)
    }

    /// The raw pixel that an image shows at a point.
    pub fn view(&self, i: ImageNo, p: Point) -> u32
        requires live { IsLive (world self.now) i.0 }
        requires inside { IsTrue (holds (image_at (world self.now) i.0).r p) }
        ensures value { result ≡ model.view (world self.now) i.0 p }
        ensures range { result < 2 ^ channels.depth (image_at (world self.now) i.0).chan }
    {
        self.images.view(i.0, p)
    }

    /// What an image tells of itself.
    pub fn info(&self, i: ImageNo) -> Info
        requires { IsLive (world self.now) i.0 }
        ensures { result ≡ info_of (image_at (world self.now) i.0) }
    {
        self.images.info(i.0)
    }

    /// Where the pixel is kept that an image shows at a point of it. An image that stands nowhere keeps it on its plane. Of a
    /// window that its parent shows there, it is kept where the parent keeps the point on which it stands; and where the parent
    /// hides it, in the tile of one cell of that window, of 32 by 32 points counted from the window's min. It takes no memory.
    pub fn kept(&self, i: ImageNo, p: Point) -> Kept
        requires live { IsLive (world self.now) i.0 }
        requires inside { IsTrue (holds (image_at (world self.now) i.0).r p) }
        ensures value { result ≡ kept_of self.now i.0 p }
        ensures nowhere { parent_of (world self.now) i.0 ≡ None → result ≡ OnPlane i p }
        ensures shown { (parent : ℕ) → parent_of (world self.now) i.0 ≡ Some parent → is_shown (world self.now) parent i.0 (outward (world self.now) parent i.0 p) ≡ true → result ≡ kept_of self.now parent (outward (world self.now) parent i.0 p) }
        ensures hidden { is_hidden (world self.now) i.0 p ≡ true → (tile : ℕ) × (result ≡ InTile tile (in_cell (image_at (world self.now) i.0).r p)) × (is_held (tiles_of self.now) tile ≡ true) }
        ensures alone { (j : ℕ) (q : Spot) → is_hidden (world self.now) i.0 p ≡ true → IsLive (world self.now) j → IsTrue (holds (image_at (world self.now) j).r q) → is_hidden (world self.now) j q ≡ true → tile_of (kept_of self.now j q) ≡ tile_of result ↔ ((j ≡ i.0) × (cell_of (image_at (world self.now) j).r q ≡ cell_of (image_at (world self.now) i.0).r p)) }
        ensures view { model.view (world self.now) i.0 p ≡ pixel_in self.now result }
    {
        self.images.kept(i.0, p)
    }

    /// The pixels of an image that stands nowhere, with those of the windows that it shows.
    pub fn plane(&self, i: ImageNo) -> &Plane
        requires live { IsLive (world self.now) i.0 }
        requires nowhere { parent_of (world self.now) i.0 ≡ None }
        ensures rect { rect_of result.now ≡ (image_at (world self.now) i.0).r }
        ensures chan { chan_of result.now ≡ (image_at (world self.now) i.0).chan }
        ensures pixels { (p : Spot) → IsTrue (holds (image_at (world self.now) i.0).r p) → pixel_at result.now p ≡ model.view (world self.now) i.0 p }
        ensures kept { (p : Spot) → pixel_at result.now p ≡ on_plane self.now i.0 p }
    {
        self.images.plane(i.0)
    }

    /// The tiles in which all windows keep their hidden pixels, and those that are spare.
    pub fn store(&self) -> &Store
        ensures { result.now ≡ tiles_of self.now }
    {
        self.images.store()
    }

    /// How many tiles are held: as many as there are pairs of a window and a cell of it, of 32 by 32 points counted from the
    /// window's min, with a hidden point. It takes no memory.
    pub fn tiles(&self) -> usize
        ensures held { result ≡ held (tiles_of self.now) }
        ensures cells { result ≡ cells_below (numbers self.now).made (world self.now) }
    {
        self.images.tiles()
    }
}
