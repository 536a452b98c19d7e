//! Tiles for the hidden cells of the windows of an image, when that gets another list of them.

ghost use Rattle.std.specs.Prelude.{◌≡◌, ◌+◌, ◌≤◌, ◌&&◌, ◌||◌, not, All, OnErr, OnOk, if◌then◌else◌};
ghost use Rattle.model_forest.specs.World.{IsLive};
ghost use Rattle.model_kept.specs.Keeping.{Place};
ghost use Rattle.r9_locate.specs.locate.Forms.{forms_of};
ghost use Rattle.r9_locate.specs.locate.Table.{shape};
ghost use Rattle.r9_cells.specs.Fitting.{AreOne};
ghost use Rattle.r9_pixels.specs.Places.{in_hidden, in_shown, HasGivenOff, HasLaterTaken, HasTakenOff, StandsOn};

use super::keeping::KeptPixels;
use model_forest::Window;
use r9_geom::Rect;
use r9_locate::locate::Lists;
use r9_memory::Memory;

impl KeptPixels {
    ghost use Rattle.r9_pixels.specs.Kept.{form_at, has_place, kept_at, later_in, moment, room_of, spare_in, wanted_in, writes, IsUnchanged};

    /// Makes room for the tiles of all cells that image p hides with these windows and that have none. Where there are areas,
    /// cells that meet none of them have theirs, and so have those of the windows before `from`.
    pub fn reserve_hidden(
        &mut self,
        lists: &Lists,
        p: u32,
        windows: &[Window],
        from: usize,
        areas: &[Rect],
    ) -> Result<(), Memory>
        requires live { IsLive (shape lists.now) p }
        requires forms { form_at self.old ≡ forms_of (shape lists.now) }
        requires windows { All (StandsOn (shape lists.now) p) windows.now }
        requires one { AreOne windows.now }
        requires still { HasTakenOff (shape lists.now) p windows.now from areas.now (has_place self.old) }
        ensures spare { OnOk result (wanted_in self.new (shape lists.now) p windows.now ≤ spare_in self.new) }
        ensures kept { IsUnchanged self.old self.new }
        ensures room { room_of self.new ≡ room_of self.old }
        ensures err { OnErr result (spare_in self.new ≡ spare_in self.old) }
    {
        self.cells.reserve_hidden(lists, p, windows, from, areas)
    }

    /// Makes room for the tiles of all cells that two images hide with these windows and that have none, one after the other.
    pub fn reserve_both(
        &mut self,
        lists: &Lists,
        p: u32,
        windows: &[Window],
        from: usize,
        areas: &[Rect],
        q: u32,
        others: &[Window],
        others_from: usize,
        later: &[Rect],
    ) -> Result<(), Memory>
        requires live { IsLive (shape lists.now) p }
        requires forms { form_at self.old ≡ forms_of (shape lists.now) }
        requires windows { All (StandsOn (shape lists.now) p) windows.now }
        requires also { IsLive (shape lists.now) q }
        requires others { All (StandsOn (shape lists.now) q) others.now }
        requires one { AreOne windows.now }
        requires others_one { AreOne others.now }
        requires still { HasTakenOff (shape lists.now) p windows.now from areas.now (has_place self.old) }
        requires others_still { HasLaterTaken (shape lists.now) p windows.now q others.now others_from later.now (has_place self.old) }
        ensures spare { OnOk result (wanted_in self.new (shape lists.now) p windows.now + later_in self.new (shape lists.now) p windows.now q others.now ≤ spare_in self.new) }
        ensures kept { IsUnchanged self.old self.new }
        ensures room { room_of self.new ≡ room_of self.old }
        ensures err { OnErr result (spare_in self.new ≡ spare_in self.old) }
    {
        self.cells.reserve_both(
            lists,
            p,
            windows,
            from,
            areas,
            q,
            others,
            others_from,
            later,
        )
    }

    /// Takes tiles for all cells that image p hides with these windows. Where there are areas, cells that meet none
    /// of them have theirs, and so have those of the windows before `from`. No pixel changes, and it takes no memory.
    pub fn take_hidden(
        &mut self,
        lists: &Lists,
        p: u32,
        windows: &[Window],
        from: usize,
        areas: &[Rect],
    )
        requires live { IsLive (shape lists.now) p }
        requires forms { form_at self.old ≡ forms_of (shape lists.now) }
        requires windows { All (StandsOn (shape lists.now) p) windows.now }
        requires one { AreOne windows.now }
        requires still { HasTakenOff (shape lists.now) p windows.now from areas.now (has_place self.old) }
        requires spare { wanted_in self.old (shape lists.now) p windows.now ≤ spare_in self.old }
        ensures kept { kept_at self.new ≡ kept_at self.old }
        ensures spare { spare_in self.old ≤ spare_in self.new + wanted_in self.old (shape lists.now) p windows.now }
        ensures has { (place : Place) → has_place self.new place ≡ (has_place self.old place || in_hidden (shape lists.now) p windows.now place) }
        ensures forms { form_at self.new ≡ form_at self.old }
        ensures moment { moment self.new ≡ moment self.old }
        ensures writes { writes self.new ≡ writes self.old }
        ensures room { room_of self.new ≡ room_of self.old }
    {
        self.cells.take_hidden(lists, p, windows, from, areas);
    }

    /// Gives back the tiles of all cells of these windows that image p shows with them. Where there are areas, cells that meet
    /// none of them have no such tile, nor have those of the windows before `from`. It takes no memory.
    pub fn give_shown(
        &mut self,
        lists: &Lists,
        p: u32,
        windows: &[Window],
        from: usize,
        areas: &[Rect],
    )
        requires live { IsLive (shape lists.now) p }
        requires forms { form_at self.old ≡ forms_of (shape lists.now) }
        requires windows { All (StandsOn (shape lists.now) p) windows.now }
        requires one { AreOne windows.now }
        requires still { HasGivenOff (shape lists.now) p windows.now from areas.now (has_place self.old) }
        ensures kept { (place : Place) → kept_at self.new place ≡ (if has_place self.new place then kept_at self.old place else 0) }
        ensures spare { spare_in self.old ≤ spare_in self.new }
        ensures has { (place : Place) → has_place self.new place ≡ (not (in_shown (shape lists.now) p windows.now place) && has_place self.old place) }
        ensures forms { form_at self.new ≡ form_at self.old }
        ensures moment { moment self.new ≡ moment self.old }
        ensures writes { writes self.new ≡ writes self.old }
        ensures room { room_of self.new ≡ room_of self.old }
    {
        self.cells.give_shown(lists, p, windows, from, areas);
    }
}
