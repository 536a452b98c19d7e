//! Images by number, and the numbers that came back.

ghost use Rattle.std.specs.Prelude.{◌≡◌, ◌^◌, ◌<◌, ◌≤◌, ℕ, None, vec_capacity, vec_len, IfOk, OnErr, OnOk};
ghost use Rattle.r9_geom.specs.Geometry.{area_of, IsOrdered, IsRectNearBy};
ghost use Rattle.model_pixel.specs.Channels as channels;
ghost use Rattle.model_forest.specs.Numbers.{next_number, no_numbers, taken};
ghost use Rattle.model_forest.specs.World.{IsForest, IsLive};
ghost use Rattle.model_forest.specs.Steps.{after_image};
ghost use Rattle.r9_locate.specs.locate.Table.{made, shape, HasRoom};
ghost use Rattle.r9_pixels.specs.Kept.{room_of};
ghost use Rattle.r9_locate.specs.locate.Lists.{frame_image};
ghost use Rattle.r9_forest.specs.Numbered.{bare_image, IsTaken};
ghost use Rattle.r9_forest.specs.Room.{HasFillRoom};
ghost use Rattle.r9_forest.specs.Sound.{IsSound};

use r9_chan::Chan;
use r9_geom::Rect;
use r9_locate::locate::{Frame, Lists};
use r9_memory::Memory;
use r9_pixels::KeptPixels;
use r9_plane::Plane;
use std::alloc::Global;

/// Images by number, each with the windows that stand on it. A number that came back is given out again, the last one first.
///
/// Contracts see the world of images, `world`, and the numbers that were given out and came back, `numbers`. A call that
/// answers `Memory` leaves both as they were. Coordinates that are given are within 2^34 of 0.
#[derive(Drop)]
pub struct Images {
    pub(crate) lists: Lists,
    pub(crate) pixels: KeptPixels,
    // The numbers that came back, the last one at the end. There is room for all.
    pub(crate) spare: Vec<u32>,
    // Room for the pixels that fill what a window uncovers, for each window.
    pub(crate) room: Vec<u32>,
    pub(crate) alloc: Global,
    ghost sound: { IsSound lists pixels spare.items },
    ghost back: { made lists ≤ vec_capacity spare },
    ghost fills: { HasFillRoom (shape lists) (vec_len room) },
}

impl Images {
    ghost use Rattle.r9_forest.specs.Images.{moment, numbers, world, writes, IsUnchanged};

    /// No image, and no number given out.
    pub fn new(alloc: Global) -> Self
        ensures world { world result ≡ (λ _. None) }
        ensures numbers { numbers result ≡ no_numbers }
    {
        Images {
            lists: Lists::new(alloc),
            pixels: KeptPixels::new(alloc),
            spare: Vec::new(alloc),
            room: Vec::new(alloc),
            alloc,
        }
    }

    /// What each world of images keeps: nothing is done.
    pub fn keeps(&self)
        ensures { IsForest (world self.now) }
    {}

    /// Makes room for an image under the next number, whichever that is.
    pub(crate) fn reserve(&mut self) -> Result<(), Memory>
        ensures list { OnOk result ((i : ℕ) → i ≤ made self.new.lists → HasRoom self.new.lists i) }
        ensures pixels { OnOk result (made self.new.lists < room_of self.new.pixels) }
        ensures back { OnOk result (made self.new.lists < vec_capacity self.new.spare) }
        ensures kept { IsUnchanged self.old self.new }
        ensures moment { moment self.new ≡ moment self.old }
        ensures writes { writes self.new ≡ writes self.old }
    {
        let count = self.lists.len();
        self.lists.reserve()?;
        self.pixels.make_room(count as u32)?;
        self.spare.reserve(count + 1)?;
        Ok(())
    }

    /// Makes room for a window of this rectangle under the next number, and for the pixels that fill what it uncovers.
    pub(crate) fn reserve_window(&mut self, r: &Rect) -> Result<(), Memory>
        requires { IsOrdered r.now }
        ensures list { OnOk result ((i : ℕ) → i ≤ made self.new.lists → HasRoom self.new.lists i) }
        ensures pixels { OnOk result (made self.new.lists < room_of self.new.pixels) }
        ensures back { OnOk result (made self.new.lists < vec_capacity self.new.spare) }
        ensures fills { OnOk result (area_of r.now ≤ vec_len self.new.room) }
        ensures kept { IsUnchanged self.old self.new }
        ensures moment { moment self.new ≡ moment self.old }
        ensures writes { writes self.new ≡ writes self.old }
    {
        self.reserve()?;
        let Some(count) = r.width().checked_mul(r.height()) else {
            return Err(Memory);
        };
        if self.room.len() < count as usize {
            self.room = zeros(self.alloc, count as usize)?;
        }
        Ok(())
    }

    /// Makes an image of one raw pixel that stands nowhere, with all of r as its clip rectangle, under the next number.
    pub fn image(&mut self, r: Rect, chan: Chan, raw: u32) -> Result<u32, Memory>
        requires near { IsRectNearBy (2 ^ 34) r }
        requires ordered { IsOrdered r }
        requires raw { raw < 2 ^ channels.depth chan }
        ensures number { IfOk result (λ i. i ≡ next_number (numbers self.old)) }
        ensures free { IfOk result (λ i. world self.old i ≡ None) }
        ensures made { IfOk result (λ i. world self.new ≡ after_image (world self.old) i r chan raw) }
        ensures taken { OnOk result (numbers self.new ≡ taken (numbers self.old)) }
        ensures err { OnErr result (IsUnchanged self.old self.new) }
        ensures moment { (j : ℕ) → IsLive (world self.old) j → moment self.new j ≡ moment self.old j }
        ensures writes { writes self.new ≡ writes self.old }
    {
        // Its word is a descriptor, as those of all images are.
        let _ = chan.word();
        let plane = Plane::new(self.alloc, r, chan, raw)?;
        self.reserve()?;
        let number = take_number(self.lists.len(), &mut self.spare);
        self.lists.insert(number, whole_frame(self.alloc, r, chan));
        self.pixels.insert_whole(number, plane);
        Ok(number)
    }
}

/// So many pixels that are 0.
pub(crate) fn zeros(alloc: Global, count: usize) -> Result<Vec<u32>, Memory>
    ensures { IfOk result (λ room. vec_len room ≡ count) }
{
    Ok(vec![in alloc; 0; count]?)
}

/// Takes the number that came back last, or where none is back the next one.
pub(crate) fn take_number(made: usize, spare: &mut Vec<u32>) -> u32
    requires { made < 2 ^ 32 }
    ensures number { IsTaken made spare.old.items spare.new.items result }
    ensures room { vec_capacity spare.new ≡ vec_capacity spare.old }
{
    match spare.pop() {
        Some(number) => number,
        None => made as u32,
    }
}

// The frame of an image that stands nowhere.
fn whole_frame(alloc: Global, r: Rect, chan: Chan) -> Frame
    ensures { frame_image result ≡ bare_image r chan }
{
    Frame {
        r,
        clipr: r,
        repl: false,
        chan,
        standing: None,
        depth: 0,
        windows: Vec::new(alloc),
    }
}
