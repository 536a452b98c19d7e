//! The device, and the connections that begin and end.

ghost use Rattle.std.specs.Prelude.{ℕ, ◌+◌, true, false, Ok, is_some, ◌≡◌, ◌≤◌, ◌<◌, ◌^◌, ◌<ℤ◌, pos, None, Some, IfOk, OnOk, OnErr, IsSome};
ghost use Rattle.r9_geom.specs.Geometry.{area_of, IsOrdered};
ghost use Rattle.r9_layers.specs.Forest.{moment, numbers, room, world, writes};
ghost use Rattle.std.specs.List.{fold};
ghost use Rattle.model_text.specs.text.Map.{lookup};
ghost use Rattle.model_draw.specs.draw.Sound.{IsAllUsed};
ghost use Rattle.model_draw.specs.draw.Orders.{dot, everywhere, with_root_rio};
ghost use Rattle.model_draw.specs.draw.World.{started, after_connect, after_leave};
ghost use Rattle.model_draw.specs.cost.Cost.{going_all, leave_cost};
ghost use Rattle.model_forest.specs.Numbers.{next_number, taken};
ghost use Rattle.model_forest.specs.World.{IsLive};
ghost use Rattle.model_forest.specs.Steps.{after_image, after_set};
ghost use Rattle.model_draw_parts.specs.images.Book.{add_id, empty_book, new_screen, Book as Ids};
ghost use Rattle.model_pixel.specs.Channels as channels;
ghost use Rattle.model_draw_parts.specs.images.Ties.{HasTies};
ghost use Rattle.r9_device.specs.device.Kept.{IsKept};
ghost use Rattle.r9_device.specs.device.Spare.{AreSpare};
ghost use Rattle.r9_device.specs.device.Gone.{images_without, numbers_without, CanRelease};

use crate::client::{Client, Clients, lives, remove};
use model_draw_parts::images::leave_frees;
use r9_chan::{Chan, Colour};
use r9_geom::{Point, Rect};
use r9_images::images::{Book, Thing};
use r9_layers::{Forest, ImageNo};
use r9_marks::steps::Steps;
use r9_memory::Memory;
use std::alloc::Global;
use std::collections::BTreeMap;
use std::sync::ledger::Ledger;

/// The display with which a device starts.
#[derive(Clone, Copy, PartialEq, Eq, Debug)]
pub struct Opening {
    pub r: Rect,
    pub chan: Chan,
}

/// The draw device: images, what the ids of connections refer to, and the connections, each of which has a number of its own
/// that the caller chooses, from 1 on. Whoever changes one of them leaves what they keep together, which stands below them.
#[derive(Drop)]
pub struct Device {
    pub alloc: Global,
    pub opening: Opening,
    pub forest: Forest,
    pub book: Book,
    pub clients: Clients,
    pub ghost kept: { IsKept (world forest) book.book },
    // The numbers of screens that came back are those of none.
    pub ghost spare: { AreSpare book.book },
    // An image that has a name is used.
    pub ghost ties: { HasTies book.book },
    // A drawing of at most as many points as the display had at the start takes no memory.
    pub ghost room: { area_of opening.r ≤ room forest },
    // Number 0 is the window manager's.
    pub ghost manager: { lookup clients.entries 0 ≡ None },
}

// The display has image id 0 of the window manager.
fn add_display(book: &mut Book, display: ImageNo) -> Result<(), Memory>
    requires { book.old.book ≡ empty_book }
    ensures { OnOk result (add_id empty_book 0 0 display.0 None ≡ Ok book.new.book) }
{
    match book.add_id(0, 0, display.0, None) {
        Ok(()) => Ok(()),
        Err(_) => Err(Memory),
    }
}

// How far the clip rectangle of a rio's fill reaches.
const EVERYWHERE: i64 = 1 << 33;

// The fill of each rio: the display's grey, at every point.
fn root_fill(forest: &mut Forest, chan: Chan, grey: u32) -> Result<ImageNo, Memory>
    requires { grey < 2 ^ channels.depth chan }
    ensures number { IfOk result (λ i. i.0 ≡ next_number (numbers forest.old)) }
    ensures free { IfOk result (λ i. world forest.old i.0 ≡ None) }
    ensures made { IfOk result (λ i. world forest.new ≡ after_set (after_image (world forest.old) i.0 dot chan grey) i.0 true everywhere) }
    ensures taken { OnOk result (numbers forest.new ≡ taken (numbers forest.old)) }
    ensures room { room forest.old ≤ room forest.new }
    ensures moment { (j : ℕ) → IsLive (world forest.old) j → moment forest.new j ≡ moment forest.old j }
    ensures writes { writes forest.new ≡ writes forest.old }
{
    let dot = Rect {
        min: Point { x: 0, y: 0 },
        max: Point { x: 1, y: 1 },
    };
    let everywhere = Rect {
        min: Point {
            x: -EVERYWHERE,
            y: -EVERYWHERE,
        },
        max: Point {
            x: EVERYWHERE,
            y: EVERYWHERE,
        },
    };
    let fill = forest.image(dot, chan, grey)?;
    forest.set(fill, true, everywhere);
    Ok(fill)
}

// The root rio's screen on the display has screen id 0 of the window manager.
fn add_root(book: &mut Book, display: ImageNo, fill: ImageNo) -> Result<(), Memory>
    ensures { OnOk result (new_screen book.old.book 0 0 false display.0 fill.0 ≡ Ok book.new.book) }
{
    match book.new_screen(0, 0, false, display.0, fill.0) {
        Ok(_) => Ok(()),
        Err(_) => Err(Memory),
    }
}

/// The images among the things that have gone go, one after the other, and their numbers come back.
pub fn release<L: Ledger>(forest: &mut Forest, gone: &[Thing], steps: &mut Steps<L>)
    requires { (book : Ids) × CanRelease (world forest.old) book gone.now }
    ensures world { world forest.new ≡ fold images_without (world forest.old) gone.now }
    ensures numbers { numbers forest.new ≡ fold numbers_without (numbers forest.old) gone.now }
    ensures room { room forest.old ≤ room forest.new }
    ensures steps { steps.new ≤ steps.old + going_all (world forest.old) gone.now }
    ensures moment { (j : ℕ) → IsLive (world forest.new) j → moment forest.new j ≡ moment forest.old j }
    ensures writes { writes forest.new + steps.old ≡ writes forest.old + steps.new }
{
    forest.keeps();
    for thing in gone {
        if let Thing::Image(i) = thing {
            forest.keeps();
            forest.release(ImageNo(*i), steps);
        }
    }
}

impl Device {
    ghost use Rattle.r9_device.specs.device.World.{moment_of, world_of, writes_of};

    /// A device with its display, all of it the grey of the background, and the root rio's screen on it.
    pub fn start(alloc: Global, r: Rect, chan: Chan) -> Result<Self, Memory>
        requires left { r.min.x ≡ pos 0 }
        requires top { r.min.y ≡ pos 0 }
        requires ordered { IsOrdered r }
        requires width { r.max.x <ℤ pos (2 ^ 32) }
        requires height { r.max.y <ℤ pos (2 ^ 32) }
        ensures { IfOk result (λ device. world_of device ≡ with_root_rio (started (record { r = r; chan = chan }))) }
    {
        let mut forest = Forest::new(alloc);
        let background = chan.pack(Colour::of_word(0x7777_77ff));
        let display = forest.image(r, chan, background)?;
        let fill = root_fill(&mut forest, chan, background)?;
        forest.room(r.width() * r.height())?;
        let mut book = Book::new(alloc);
        add_display(&mut book, display)?;
        add_root(&mut book, display, fill)?;
        Ok(Device {
            alloc,
            opening: Opening { r, chan },
            forest,
            book,
            clients: BTreeMap::new(alloc),
        })
    }

    /// What each device keeps: the images and the screens that are there are those that are used, so that nothing is left
    /// behind. Nothing is done.
    pub fn keeps(&self)
        ensures { IsAllUsed (world_of self.now) }
    {}

    /// Whether the connection lives.
    pub fn is_live(&self, client: u64) -> bool
        ensures { result ≡ is_some (lookup (world_of self.now).clients client) }
    {
        lives(&self.clients, client)
    }

    /// A connection begins, under a number that none has. After Memory all is as before.
    pub fn connect(&mut self, client: u64) -> Result<(), Memory>
        requires some { 1 ≤ client }
        requires fresh { lookup (world_of self.old).clients client ≡ None }
        ensures made { OnOk result (world_of self.new ≡ after_connect (world_of self.old) client) }
        ensures kept { OnErr result (world_of self.new ≡ world_of self.old) }
        ensures moment { moment_of self.new ≡ moment_of self.old }
        ensures writes { writes_of self.new ≡ writes_of self.old }
    {
        let begun = Client::new(self.alloc);
        self.clients.insert(client, begun)?;
        Ok(())
    }

    /// A connection ends: its ids are freed, and what nothing refers to any more goes. After Memory all is as before.
    pub fn leave<L: Ledger>(&mut self, client: u64, steps: &mut Steps<L>) -> Result<(), Memory>
        requires { IsSome (lookup (world_of self.old).clients client) }
        ensures left { OnOk result (world_of self.new ≡ after_leave (world_of self.old) client) }
        ensures kept { OnErr result (world_of self.new ≡ world_of self.old) }
        ensures steps { steps.new ≤ steps.old + leave_cost (world_of self.old) client }
        ensures uncounted { OnErr result (steps.new ≡ steps.old) }
        ensures moment { moment_of self.new ≡ moment_of self.old }
        ensures writes { writes_of self.new + steps.old ≡ writes_of self.old + steps.new }
    {
        leave_frees();
        self.forest.keeps();
        let gone = self.book.leave(client)?;
        release(&mut self.forest, gone.as_slice(), steps);
        remove(&mut self.clients, client);
        Ok(())
    }
}
