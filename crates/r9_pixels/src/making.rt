//! Images that get a plane or tiles for their pixels, and that lose them.

ghost use Rattle.std.specs.Prelude.{◌≡◌, ◌+◌, ◌^◌, ◌<◌, ◌≤◌, ℕ, false, Some, None, OnErr, OnOk};
ghost use Rattle.r9_geom.specs.Geometry.{height, holds, width, IsOrdered, IsRectNear};
ghost use Rattle.r9_plane.specs.Pixels.{pixel_at, rect_of};
ghost use Rattle.model_kept.specs.Restack.{with_own};
ghost use Rattle.r9_pixels.specs.Owns.{plane_form, window_form};
ghost use Rattle.r9_pixels.specs.Places.{with_form, with_places};
ghost use Rattle.r9_locate.specs.watched.Moments.{moment_at, with_moment};

use super::keeping::KeptPixels;
use super::own::{Extent, Own};
use r9_cells::cell_count;
use r9_memory::Memory;
use r9_plane::Plane;

impl KeptPixels {
    ghost use Rattle.r9_pixels.specs.Kept.{form_at, has_place, kept_at, moment, room_of, spare_in, writes, IsUnchanged};

    /// Makes room for an image under a number.
    pub fn make_room(&mut self, i: u32) -> Result<(), Memory>
        ensures room { OnOk result (i < room_of self.new) }
        ensures kept { IsUnchanged self.old self.new }
        ensures spare { spare_in self.new ≡ spare_in self.old }
    {
        while self.owns.len() <= i as usize {
            self.push()?;
        }
        Ok(())
    }

    // Makes room for one image more.
    fn push(&mut self) -> Result<(), Memory>
        ensures room { OnOk result (room_of self.new ≡ room_of self.old + 1) }
        ensures kept { IsUnchanged self.old self.new }
        ensures spare { spare_in self.new ≡ spare_in self.old }
    {
        self.owns.reserve(1)?;
        self.cells.push()?;
        self.owns.push_reserved(None);
        Ok(())
    }

    /// Puts an image that stands nowhere under a number that has none, with the pixels of a plane.
    pub fn insert_whole(&mut self, i: u32, plane: Plane)
        requires room { i < room_of self.old }
        requires free { form_at self.old i ≡ None }
        ensures kept { kept_at self.new ≡ with_own i (pixel_at plane) (kept_at self.old) }
        ensures has { has_place self.new ≡ with_places i (holds (rect_of plane)) (has_place self.old) }
        ensures forms { form_at self.new ≡ with_form i (Some (plane_form plane)) (form_at self.old) }
        ensures moment { moment self.new ≡ with_moment i (Some (moment_at plane (writes self.old))) (moment self.old) }
        ensures writes { writes self.new ≡ writes self.old }
        ensures room { room_of self.new ≡ room_of self.old }
        ensures spare { spare_in self.new ≡ spare_in self.old }
    {
        let watched = self.watch(plane);
        self.owns[i as usize] = Some(Own::Whole(watched));
    }

    /// Puts a window under a number that has no image. There is no place for a pixel of it yet.
    pub fn insert_hidden(&mut self, i: u32, extent: Extent) -> Result<(), Memory>
        requires room { i < room_of self.old }
        requires free { form_at self.old i ≡ None }
        requires near { IsRectNear extent.r }
        requires ordered { IsOrdered extent.r }
        requires columns { width extent.r ≤ 2 ^ 35 }
        requires rows { height extent.r ≤ 2 ^ 35 }
        ensures kept { kept_at self.new ≡ kept_at self.old }
        ensures has { has_place self.new ≡ has_place self.old }
        ensures forms { OnOk result (form_at self.new ≡ with_form i (Some (window_form extent)) (form_at self.old)) }
        ensures moment { moment self.new ≡ moment self.old }
        ensures writes { writes self.new ≡ writes self.old }
        ensures room { room_of self.new ≡ room_of self.old }
        ensures spare { spare_in self.new ≡ spare_in self.old }
        ensures err { OnErr result (form_at self.new ≡ form_at self.old) }
    {
        self.cells.make(i as usize, cell_count(&extent.r))?;
        self.owns[i as usize] = Some(Own::Hidden(extent));
        Ok(())
    }

    /// Takes an image away with its pixels, and gives its tiles back. It takes no memory.
    pub fn remove(&mut self, i: u32)
        requires { i < room_of self.old }
        ensures kept { kept_at self.new ≡ with_own i (λ _. 0) (kept_at self.old) }
        ensures has { has_place self.new ≡ with_places i (λ _. false) (has_place self.old) }
        ensures forms { form_at self.new ≡ with_form i None (form_at self.old) }
        ensures moment { moment self.new ≡ with_moment i None (moment self.old) }
        ensures writes { writes self.new ≡ writes self.old }
        ensures room { room_of self.new ≡ room_of self.old }
    {
        self.cells.give_all(i as usize);
        self.cells.clear(i as usize);
        self.owns[i as usize] = None;
    }
}
