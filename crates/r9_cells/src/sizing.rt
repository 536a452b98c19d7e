//! Tiles for the hidden cells of all windows of an image. Where a list of windows changes within some areas, cells that meet none
//! of these have their tiles already, and so have all cells of the first windows, above which none has changed: they are not looked
//! at. Where no area is given, all are looked at.

ghost use Rattle.std.specs.Prelude.{◌≡◌, ◌+◌, ◌<◌, ◌≤◌, ◌==◌, ◌&&◌, ◌||◌, ℕ, List, drop, false, nat_lt, not, is_none, is_some, length, slice_index_or, All, IfOk, OnErr, OnOk, if◌then◌else◌};
ghost use Rattle.std.specs.List.{list_any};
ghost use Rattle.r9_geom.specs.declared.Point.{Point as Spot};
ghost use Rattle.r9_geom.specs.declared.Rect.{Rect as Area};
ghost use Rattle.r9_geom.specs.Geometry.{is_empty, meet, IsRectNear};
ghost use Rattle.r9_store.specs.Tiles.{spare};
ghost use Rattle.model_forest.specs.declared.Window.{Window as Listed};
ghost use Rattle.model_forest.specs.World.{image_at, IsLive};
ghost use Rattle.model_kept.specs.Cells.{cell_count};
ghost use Rattle.r9_locate.specs.locate.Table.{shape};
ghost use Rattle.r9_cells.specs.Rows.{cell_at, row_at};
ghost use Rattle.r9_cells.specs.Fitting as spec;
ghost use Rattle.r9_cells.specs.Fitting.{hides_cell, hides_of, shows_of, wanted_all, wanted_among, wanted_later, AreGivenOff, AreOne, AreTakenOff, IsGivenOff, IsLaterTaken, IsSpan, IsTakenOff, IsWindowAt, IsWindowed};

use super::hiding::{is_nowhere, next_near, span};
use super::table::Cells;
use model_forest::Window;
use r9_geom::Rect;
use r9_locate::locate::Lists;
use r9_memory::Memory;

// The rectangle of an image.
fn rect_of(lists: &Lists, i: u32) -> Rect
    requires { IsLive (shape lists.now) i }
    ensures { result ≡ (image_at (shape lists.now) i).r }
{
    lists.get(i).r
}

impl Cells {
    ghost use Rattle.r9_cells.specs.Cells.{all_rows, cell_pixel, tiles_in};

    // The next window from one on that may have points in common with some areas, all points of which are in the span, and has
    // a cell without a tile: none of the list where there is none.
    fn next_lacking(&self, windows: &[Window], from: usize, near: &Option<Rect>) -> usize
        requires { All (λ w. w.image < length (all_rows self.now)) windows.now }
        ensures least { from ≤ result }
        ensures off { (areas : List Area) → IsSpan near.now areas → (k : ℕ) (d : Listed) → from ≤ k → k < result → k < length windows.now → (spec.meets areas (slice_index_or windows.now k d).place && list_any is_none (row_at (all_rows self.now) (slice_index_or windows.now k d).image)) ≡ false }
    {
        let mut at = next_near(windows, from, near);
        while at < windows.len() {
            if self.lacks(windows[at].image) {
                return at;
            }
            at = next_near(windows, at + 1, near);
        }
        at
    }

    // How many cells of a window meet one of the areas, are hidden and have no tile.
    fn wanted_at(
        &self,
        lists: &Lists,
        below: &Rect,
        windows: &[Window],
        at: usize,
        w: &Window,
        areas: &[Rect],
    ) -> usize
        requires window { IsWindowAt windows.now at w.now }
        requires windowed { IsWindowed (all_rows self.now) (shape lists.now) w.now }
        requires places { All (λ v. IsRectNear v.place) windows.now }
        ensures { result ≡ spec.wanted_near (all_rows self.now) below.now windows.now areas.now w.now.image (image_at (shape lists.now) w.now.image).r }
    {
        let r = rect_of(lists, w.image);
        self.wanted(below, windows, at, w, areas, &r)
    }

    // Takes tiles for the cells of a window that are hidden and meet one of the areas.
    fn take_at(
        &mut self,
        lists: &Lists,
        below: &Rect,
        windows: &[Window],
        at: usize,
        w: &Window,
        areas: &[Rect],
    )
        requires window { IsWindowAt windows.now at w.now }
        requires windowed { IsWindowed (all_rows self.old) (shape lists.now) w.now }
        requires places { All (λ v. IsRectNear v.place) windows.now }
        requires still { IsTakenOff (all_rows self.old) below.now windows.now areas.now w.now.image (image_at (shape lists.now) w.now.image).r }
        requires room { spec.wanted (all_rows self.old) below.now windows.now w.now.image (image_at (shape lists.now) w.now.image).r ≤ spare (tiles_in self.old) }
        ensures pixels { (j l : ℕ) (p : Spot) → cell_pixel self.new j l p ≡ cell_pixel self.old j l p }
        ensures spare { spare (tiles_in self.new) + spec.wanted (all_rows self.old) below.now windows.now w.now.image (image_at (shape lists.now) w.now.image).r ≡ spare (tiles_in self.old) }
        ensures taken { (j l : ℕ) → is_some (cell_at (all_rows self.new) j l) ≡ (((j == w.now.image) && (nat_lt l (cell_count (image_at (shape lists.now) w.now.image).r) && hides_cell below.now windows.now w.now.image (image_at (shape lists.now) w.now.image).r l)) || is_some (cell_at (all_rows self.old) j l)) }
        ensures rows { length (all_rows self.new) ≡ length (all_rows self.old) }
        ensures lengths { (j : ℕ) → length (row_at (all_rows self.new) j) ≡ length (row_at (all_rows self.old) j) }
    {
        let r = rect_of(lists, w.image);
        self.take_window(below, windows, at, w, areas, &r);
    }

    // Gives back the tiles of the cells of a window that are not hidden and meet one of the areas.
    fn give_at(
        &mut self,
        lists: &Lists,
        below: &Rect,
        windows: &[Window],
        at: usize,
        w: &Window,
        areas: &[Rect],
    )
        requires window { IsWindowAt windows.now at w.now }
        requires windowed { IsWindowed (all_rows self.old) (shape lists.now) w.now }
        requires places { All (λ v. IsRectNear v.place) windows.now }
        requires still { IsGivenOff (all_rows self.old) below.now windows.now areas.now w.now.image (image_at (shape lists.now) w.now.image).r }
        ensures pixels { (j l : ℕ) (p : Spot) → cell_pixel self.new j l p ≡ (if is_some (cell_at (all_rows self.new) j l) then cell_pixel self.old j l p else 0) }
        ensures spare { spare (tiles_in self.old) ≤ spare (tiles_in self.new) }
        ensures given { (j l : ℕ) → is_some (cell_at (all_rows self.new) j l) ≡ (not ((j == w.now.image) && (nat_lt l (cell_count (image_at (shape lists.now) w.now.image).r) && not (hides_cell below.now windows.now w.now.image (image_at (shape lists.now) w.now.image).r l))) && is_some (cell_at (all_rows self.old) j l)) }
        ensures rows { length (all_rows self.new) ≡ length (all_rows self.old) }
        ensures lengths { (j : ℕ) → length (row_at (all_rows self.new) j) ≡ length (row_at (all_rows self.old) j) }
    {
        if !self.holds_any(w.image) {
            return;
        }
        let r = rect_of(lists, w.image);
        self.give_window(below, windows, at, w, areas, &r);
    }

    // How many cells of the windows from one on meet one of the areas, are hidden and have no tile, if that is a number of memory.
    fn wanted_from(
        &self,
        lists: &Lists,
        p: u32,
        windows: &[Window],
        from: usize,
        areas: &[Rect],
    ) -> Result<usize, Memory>
        requires live { IsLive (shape lists.now) p }
        requires windows { All (IsWindowed (all_rows self.now) (shape lists.now)) windows.now }
        requires one { AreOne windows.now }
        ensures { IfOk result (λ n. n ≡ wanted_among (all_rows self.now) (shape lists.now) p windows.now areas.now (drop from windows.now)) }
    {
        let below = rect_of(lists, p);
        let near = span(areas);
        let mut count: usize = 0;
        let mut at = self.next_lacking(windows, from, &near);
        while at < windows.len() {
            let more = self.wanted_at(lists, &below, windows, at, &windows[at], areas);
            count = match count.checked_add(more) {
                Some(count) => count,
                None => return Err(Memory),
            };
            at = self.next_lacking(windows, at + 1, &near);
        }
        Ok(count)
    }

    /// Makes room for the tiles of all cells that image p hides with these windows and that have none. Where there are areas,
    /// cells that meet none of them have theirs, and so have those of the windows before `from`.
    pub fn reserve_hidden(
        &mut self,
        lists: &Lists,
        p: u32,
        windows: &[Window],
        from: usize,
        areas: &[Rect],
    ) -> Result<(), Memory>
        requires live { IsLive (shape lists.now) p }
        requires windows { All (IsWindowed (all_rows self.old) (shape lists.now)) windows.now }
        requires one { AreOne windows.now }
        requires still { AreTakenOff (all_rows self.old) (shape lists.now) p windows.now from areas.now }
        ensures room { OnOk result (wanted_all (all_rows self.new) (shape lists.now) p windows.now windows.now ≤ spare (tiles_in self.new)) }
        ensures rows { all_rows self.new ≡ all_rows self.old }
        ensures pixels { (j l : ℕ) (x : Spot) → cell_pixel self.new j l x ≡ cell_pixel self.old j l x }
        ensures err { OnErr result (tiles_in self.new ≡ tiles_in self.old) }
    {
        let count = self.wanted_from(lists, p, windows, from, areas)?;
        self.reserve(count)
    }

    /// Makes room for the tiles of all cells that two images hide with their windows and that have none, one after the other.
    pub fn reserve_both(
        &mut self,
        lists: &Lists,
        p: u32,
        windows: &[Window],
        from: usize,
        areas: &[Rect],
        q: u32,
        others: &[Window],
        others_from: usize,
        later: &[Rect],
    ) -> Result<(), Memory>
        requires live { IsLive (shape lists.now) p }
        requires windows { All (IsWindowed (all_rows self.old) (shape lists.now)) windows.now }
        requires also { IsLive (shape lists.now) q }
        requires others { All (IsWindowed (all_rows self.old) (shape lists.now)) others.now }
        requires one { AreOne windows.now }
        requires others_one { AreOne others.now }
        requires still { AreTakenOff (all_rows self.old) (shape lists.now) p windows.now from areas.now }
        requires others_still { IsLaterTaken (all_rows self.old) (shape lists.now) p windows.now q others.now others_from later.now }
        ensures room { OnOk result (wanted_all (all_rows self.new) (shape lists.now) p windows.now windows.now + wanted_later (all_rows self.new) (shape lists.now) p windows.now q others.now ≤ spare (tiles_in self.new)) }
        ensures rows { all_rows self.new ≡ all_rows self.old }
        ensures pixels { (j l : ℕ) (x : Spot) → cell_pixel self.new j l x ≡ cell_pixel self.old j l x }
        ensures err { OnErr result (tiles_in self.new ≡ tiles_in self.old) }
    {
        let first = self.wanted_from(lists, p, windows, from, areas)?;
        let second = self.wanted_from(lists, q, others, others_from, later)?;
        match first.checked_add(second) {
            Some(count) => self.reserve(count),
            None => Err(Memory),
        }
    }

    /// Takes tiles for all cells that image p hides with these windows. Where there are areas, cells that meet none of
    /// them have theirs, and so have those of the windows before `from`. It takes no memory, and no pixel changes.
    pub fn take_hidden(
        &mut self,
        lists: &Lists,
        p: u32,
        windows: &[Window],
        from: usize,
        areas: &[Rect],
    )
        requires live { IsLive (shape lists.now) p }
        requires windows { All (IsWindowed (all_rows self.old) (shape lists.now)) windows.now }
        requires one { AreOne windows.now }
        requires still { AreTakenOff (all_rows self.old) (shape lists.now) p windows.now from areas.now }
        requires room { wanted_all (all_rows self.old) (shape lists.now) p windows.now windows.now ≤ spare (tiles_in self.old) }
        ensures pixels { (j l : ℕ) (x : Spot) → cell_pixel self.new j l x ≡ cell_pixel self.old j l x }
        ensures spare { spare (tiles_in self.old) ≤ spare (tiles_in self.new) + wanted_all (all_rows self.old) (shape lists.now) p windows.now windows.now }
        ensures taken { (j l : ℕ) → is_some (cell_at (all_rows self.new) j l) ≡ (is_some (cell_at (all_rows self.old) j l) || list_any (hides_of (shape lists.now) p windows.now j l) windows.now) }
        ensures rows { length (all_rows self.new) ≡ length (all_rows self.old) }
        ensures lengths { (j : ℕ) → length (row_at (all_rows self.new) j) ≡ length (row_at (all_rows self.old) j) }
    {
        let below = rect_of(lists, p);
        let near = span(areas);
        let mut at = self.next_lacking(windows, from, &near);
        while at < windows.len() {
            self.take_at(lists, &below, windows, at, &windows[at], areas);
            at = self.next_lacking(windows, at + 1, &near);
        }
    }

    /// Gives back the tiles of all cells of these windows that image p does not hide with them. Where there are areas, cells that
    /// meet none of them have no such tile, nor have those of the windows before `from`. It takes no memory.
    pub fn give_shown(
        &mut self,
        lists: &Lists,
        p: u32,
        windows: &[Window],
        from: usize,
        areas: &[Rect],
    )
        requires live { IsLive (shape lists.now) p }
        requires windows { All (IsWindowed (all_rows self.old) (shape lists.now)) windows.now }
        requires one { AreOne windows.now }
        requires still { AreGivenOff (all_rows self.old) (shape lists.now) p windows.now from areas.now }
        ensures pixels { (j l : ℕ) (x : Spot) → cell_pixel self.new j l x ≡ (if is_some (cell_at (all_rows self.new) j l) then cell_pixel self.old j l x else 0) }
        ensures spare { spare (tiles_in self.old) ≤ spare (tiles_in self.new) }
        ensures given { (j l : ℕ) → is_some (cell_at (all_rows self.new) j l) ≡ (not (list_any (shows_of (shape lists.now) p windows.now j l) windows.now) && is_some (cell_at (all_rows self.old) j l)) }
        ensures rows { length (all_rows self.new) ≡ length (all_rows self.old) }
        ensures lengths { (j : ℕ) → length (row_at (all_rows self.new) j) ≡ length (row_at (all_rows self.old) j) }
    {
        let below = rect_of(lists, p);
        let near = span(areas);
        if is_nowhere(&near) {
            return;
        }
        let mut at = next_near(windows, from, &near);
        while at < windows.len() {
            self.give_at(lists, &below, windows, at, &windows[at], areas);
            at = next_near(windows, at + 1, &near);
        }
    }
}
