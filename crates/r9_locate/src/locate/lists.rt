//! Images by number, without their pixels.

ghost use Rattle.std.specs.Prelude.{◌≡◌, ◌+◌, ◌≤◌, ℕ, None, Some, max, min, OnOk};
ghost use Rattle.std.specs.Option.{option_map_or};
ghost use Rattle.model_forest.specs.Steps.{after_set};
ghost use Rattle.model_forest.specs.World.{image_at, no_rect, with_image, IsLive};
ghost use Rattle.model_kept.specs.Keeping as kept;
ghost use Rattle.model_kept.specs.Keeping.{HasOnePlaces, IsStanding};
ghost use Rattle.model_kept.specs.Restack.{with_list};
ghost use Rattle.r9_locate.specs.locate.Lists.{shape_of, IsNearby};

use crate::numbered::Numbered;
use model_forest::{Standing, Window};
use r9_chan::Chan;
use r9_geom::{Point, Rect};
use r9_memory::Memory;
use std::alloc::Global;
use std::mem;

/// What an image has beside its pixels.
#[derive(Drop)]
pub struct Frame {
    pub r: Rect,
    pub clipr: Rect,
    pub repl: bool,
    pub chan: Chan,
    pub standing: Option<Standing>,
    pub depth: u32,
    /// Topmost first.
    pub windows: Vec<Window>,
}

/// Images by number, and where they stand. An image that stands on another may be missing in the list of that.
#[derive(Drop)]
pub struct Lists {
    frames: Numbered<Frame>,
    ghost standing: { IsStanding (shape_of frames) },
    ghost places: { HasOnePlaces (shape_of frames) },
    ghost near: { IsNearby (shape_of frames) },
}

/// The place of an image in a list of windows.
pub fn place_among(windows: &[Window], i: u32) -> Rect
    ensures { result ≡ kept.place_among windows.now i }
{
    let found = windows.iter().find(|w| w.image == i).copied();
    place_of(found)
}

fn place_of(found: Option<Window>) -> Rect
    ensures { result ≡ option_map_or (λ w. w.place) found no_rect }
{
    match found {
        Some(w) => w.place,
        None => Rect {
            min: Point { x: 0, y: 0 },
            max: Point { x: 0, y: 0 },
        },
    }
}

impl Lists {
    ghost use Rattle.r9_locate.specs.locate.Lists.{frame_image};
    ghost use Rattle.r9_locate.specs.locate.Table.{made, shape, HasRoom};

    /// No image, and no number given out.
    pub fn new(alloc: Global) -> Self
        ensures world { shape result ≡ (λ _. None) }
        ensures made { made result ≡ 0 }
    {
        Lists {
            frames: Numbered::new(alloc),
        }
    }

    /// How many numbers were given out.
    pub fn len(&self) -> usize
        ensures value { result ≡ made self.now }
        ensures most { result ≤ 4294967295 }
    {
        self.frames.len()
    }

    /// The image of a number.
    pub fn get(&self, i: u32) -> &Frame
        requires { IsLive (shape self.now) i }
        ensures { image_at (shape self.now) i ≡ frame_image result.now }
    {
        match self.frames.get(i) {
            Some(frame) => frame,
            None => unreachable!(),
        }
    }

    /// Makes room for one more image, also under the next number.
    pub fn reserve(&mut self) -> Result<(), Memory>
        ensures room { OnOk result ((i : ℕ) → i ≤ made self.old → HasRoom self.new i) }
        ensures world { shape self.new ≡ shape self.old }
        ensures made { made self.new ≡ made self.old }
    {
        self.frames.reserve()
    }

    /// Puts an image under a number that has none, or is the next one. Nothing is said of the list of its parent.
    pub fn insert(&mut self, i: u32, frame: Frame)
        requires room { HasRoom self.old i }
        requires free { shape self.old i ≡ None }
        requires standing { IsStanding (with_image (shape self.old) i (Some (frame_image frame))) }
        requires places { HasOnePlaces (with_image (shape self.old) i (Some (frame_image frame))) }
        requires near { IsNearby (with_image (shape self.old) i (Some (frame_image frame))) }
        ensures world { shape self.new ≡ with_image (shape self.old) i (Some (frame_image frame)) }
        ensures made { made self.new ≡ max (made self.old) (i + 1) }
    {
        self.frames.insert(i, frame);
    }

    /// Takes an image away, which stands in no list. It takes no memory.
    pub fn remove(&mut self, i: u32)
        requires live { IsLive (shape self.old) i }
        requires standing { IsStanding (with_image (shape self.old) i None) }
        requires places { HasOnePlaces (with_image (shape self.old) i None) }
        requires near { IsNearby (with_image (shape self.old) i None) }
        ensures world { shape self.new ≡ with_image (shape self.old) i None }
        ensures made { made self.new ≡ made self.old }
    {
        let _ = self.frames.remove(i);
    }

    /// Takes the numbers from `count` on back, none of which has an image: they were not given out then. It takes no memory.
    pub fn shorten(&mut self, count: usize)
        requires { (n : ℕ) → count ≤ n → shape self.old n ≡ None }
        ensures world { shape self.new ≡ shape self.old }
        ensures made { made self.new ≡ min (made self.old) count }
    {
        self.frames.shorten(count);
    }

    /// Gives an image another list of windows, for the one that it had. It takes no memory.
    pub fn set_windows(&mut self, p: u32, windows: Vec<Window>) -> Vec<Window>
        requires live { IsLive (shape self.old) p }
        requires standing { IsStanding (with_list (shape self.old) p windows.items) }
        requires places { HasOnePlaces (with_list (shape self.old) p windows.items) }
        requires near { IsNearby (with_list (shape self.old) p windows.items) }
        ensures had { result.items ≡ (image_at (shape self.old) p).windows }
        ensures world { shape self.new ≡ with_list (shape self.old) p windows.items }
        ensures made { made self.new ≡ made self.old }
    {
        let mut frame = self.frames.remove(p);
        let had = mem::replace(&mut frame.windows, windows);
        self.frames.insert(p, frame);
        had
    }

    /// Gives an image another frame, for the one that it had. It takes no memory.
    pub fn replace(&mut self, i: u32, frame: Frame) -> Frame
        requires live { IsLive (shape self.old) i }
        requires standing { IsStanding (with_image (shape self.old) i (Some (frame_image frame))) }
        requires places { HasOnePlaces (with_image (shape self.old) i (Some (frame_image frame))) }
        requires near { IsNearby (with_image (shape self.old) i (Some (frame_image frame))) }
        ensures had { image_at (shape self.old) i ≡ frame_image result }
        ensures world { shape self.new ≡ with_image (shape self.old) i (Some (frame_image frame)) }
        ensures made { made self.new ≡ made self.old }
    {
        let had = self.frames.remove(i);
        self.frames.insert(i, frame);
        had
    }

    /// Makes an image repeat or not, and gives it another clip rectangle. It takes no memory.
    pub fn set(&mut self, i: u32, repl: bool, clipr: Rect)
        requires { IsLive (shape self.old) i }
        ensures world { shape self.new ≡ after_set (shape self.old) i repl clipr }
        ensures made { made self.new ≡ made self.old }
    {
        let mut frame = self.frames.remove(i);
        frame.repl = repl;
        frame.clipr = clipr;
        self.frames.insert(i, frame);
    }
}
