//! The hall: what its history led to, and the entries of it that are still stored.

ghost use Rattle.std.specs.Prelude.{◌≡◌, ◌<◌, ◌≤◌, ◌+◌, ◌-◌, ◌^◌, ◌++◌, ◌∷◌, ◌↔◌, [], true, false, length, None, IsTrue, IfOk, IfSome, OnOk, OnErr, IsOk};
ghost use Rattle.std.specs.Vec.{vec_len, vec_capacity};
ghost use Rattle.r9_event.specs.declared.event.event.Event.{Event};
ghost use Rattle.model_draw.specs.cost.Cells.{cells};
ghost use Rattle.model_draw.specs.draw.Files.{screen_file};
ghost use Rattle.model_draw.specs.draw.Orders.{is_side, picture_of};
ghost use Rattle.model_draw.specs.draw.World.{at_number};
ghost use Rattle.model_history.specs.event.Legal.{roll_after};
ghost use Rattle.model_served.specs.served.Served.{journal_of};
ghost use Rattle.model_world.specs.Replay.{marked, outbox, replay, step};
ghost use Rattle.r9_geom.specs.declared.Point.{Point as Spot};
ghost use Rattle.r9_geom.specs.Geometry.{height, holds, width, HasPoints, IsNear, IsOrdered, IsRectNearBy};
ghost use Rattle.model_pixel.specs.Channels.{depth};
ghost use Rattle.model_pixel.specs.Rows.{rows_of};
ghost use Rattle.model_forest.specs.Paint.{paint};
ghost use Rattle.r9_marks.specs.marks.Cells.{cells_over};
ghost use Rattle.r9_desktop.specs.Marks.{IsCleared, IsMarked};
ghost use Rattle.r9_hall.specs.hall.Acts.{IsMadeOf};
ghost use Rattle.r9_hall.specs.hall.HallView.{AllowedNext, IsAsStored, OfHistories, StandsFor, StandsOn, entries};
ghost use Rattle.r9_hall.specs.hall.Outboxes.{taken};
ghost use Rattle.r9_hall.specs.hall.WorldView.{IsSizeOf, display_in, world_in};

use crate::hall::outboxes::{post, waiting_for};
use crate::hall::world::World;
use law_devices::sides::each_history_has_a_display;
use model_history::words::Size;
use r9_event::event::{Did, Entry, Event, Notes, Opening, Replies, Uses};
use r9_geom::{Point, Rect};
use r9_journal::Roll;
use r9_marks::steps::Steps;
use r9_memory::Memory;
use r9_text::Bytes;
use std::alloc::Global;
use std::collections::BTreeMap;
use std::marker::Model;
use std::sync::ledger::Ledger;

/// The server: an opening, what has happened since, and to what that led. It stands for a whole history, whose entries are numbered
/// from 1, and stores those from the number `first` on; those before were forgotten. Once memory ran out in the middle of an event
/// it is broken, and takes no event but a Stop.
#[derive(Drop)]
pub struct Hall {
    alloc: Global,
    pub(crate) world: World,
    outboxes: BTreeMap<u32, Bytes>,
    roll: Roll,
    first: u64,
    stored: Vec<Entry>,
    pub(crate) broken: bool,
}

impl Model for Hall {
    ghost use Rattle.r9_hall.specs.hall.HallView.{HallValue, value_of, IsHall};

    ghost Value = { HallValue };

    ghost use Rattle.r9_hall.specs.contracts.hall.sessions.Sessions as kept;
    ghost use Rattle.std.specs.Coded.{codes};

    ghost coded = { Prim.hlevel (codes, kept.the_row.coded) };

    ghost view = { value_of };

    ghost invariant = { IsHall };
}

/// What an event gave, and the bytes that it took of what waited for its session.
#[derive(Drop)]
pub(crate) struct Given {
    did: Did,
    pub(crate) taken: Bytes,
}

/// Enters an event at the end of entries that have room for it, the first of which has this number.
fn enter(roll: &mut Roll, stored: &mut Vec<Entry>, first: u64, event: Event) -> Result<(), Memory>
    requires room { vec_len stored.old < vec_capacity stored.old }
    requires few { first + length stored.old.items < 2 ^ 62 }
    ensures roll { OnOk result (roll.new ≡ roll_after roll.old event) }
    ensures stored { OnOk result (stored.new.items ≡ stored.old.items ++ record { number = first + length stored.old.items; event = event } ∷ []) }
    ensures len { OnOk result (vec_len stored.new ≡ vec_len stored.old + 1) }
    ensures capacity { vec_capacity stored.old ≤ vec_capacity stored.new }
    ensures err { OnErr result ((roll.new ≡ roll.old) × (stored.new.items ≡ stored.old.items) × (vec_len stored.new ≡ vec_len stored.old)) }
    ensures stop { event ≡ Event.Stop → IsOk result }
{
    roll.enter(&event)?;
    let number = first + stored.len() as u64;
    stored.push(Entry { number, event })?;
    Ok(())
}

/// The event as the history has it: with the mark where memory ran out in its data write.
fn marked(event: Event, short: Option<u32>) -> Event
    ensures { result ≡ marked event short }
{
    let Some(done) = short else {
        return event;
    };
    match event {
        Event::Msg { session, bytes, .. } => Event::Msg {
            session,
            bytes,
            mark: Some(done),
        },
        other => other,
    }
}

/// What a Stop gives.
fn nothing(alloc: Global) -> Given
    ensures did { result.did ≡ record { replies = []; notes = []; uses = []; short = None; closed = None } }
    ensures taken { result.taken ≡ [] }
{
    Given {
        did: Did {
            replies: Replies::new(alloc),
            notes: Notes::new(alloc),
            uses: Uses::new(alloc),
            short: None,
            closed: None,
        },
        taken: Bytes::new(alloc),
    }
}

/// A side of the display as its size has it, in pixels. Only in a broken hall can it be longer than that.
fn side(pixels: u64) -> u32
    ensures { pixels < 2 ^ 32 → result ≡ pixels }
{
    pixels.min(u64::from(u32::MAX)) as u32
}

impl Hall {
    /// A hall in which nothing has happened. Where it watches, each `Did` tells what its event used by which a session could notice another
    /// one, for which each message is read once more.
    fn start_as(alloc: Global, opening: Opening, watches: bool) -> Result<Self, Memory>
        ensures opening { IfOk result (λ hall. hall.opening ≡ opening) }
        ensures watches { IfOk result (λ hall. hall.world.watches ≡ watches) }
        ensures first { IfOk result (λ hall. hall.first ≡ 1) }
        ensures whole { IfOk result (λ hall. hall.broken ≡ false) }
        ensures stands { IfOk result (λ hall. StandsFor hall []) }
    {
        let mut stored = Vec::new(alloc);
        stored.reserve(1)?;
        let world = World::start(alloc, opening, watches)?;
        Ok(Hall {
            alloc,
            world,
            outboxes: BTreeMap::new(alloc),
            roll: Roll::new(alloc),
            first: 1,
            stored,
            broken: false,
        })
    }

    /// A hall in which nothing has happened, which tells of each event what it used.
    pub fn start(alloc: Global, opening: Opening) -> Result<Self, Memory>
        ensures opening { IfOk result (λ hall. hall.opening ≡ opening) }
        ensures watches { IfOk result (λ hall. hall.world.watches ≡ true) }
        ensures first { IfOk result (λ hall. hall.first ≡ 1) }
        ensures whole { IfOk result (λ hall. hall.broken ≡ false) }
        ensures stands { IfOk result (λ hall. StandsFor hall []) }
    {
        Hall::start_as(alloc, opening, true)
    }

    /// The same, but that it tells of no event what it used, and so reads each message once alone.
    pub fn start_unwatched(alloc: Global, opening: Opening) -> Result<Self, Memory>
        ensures opening { IfOk result (λ hall. hall.opening ≡ opening) }
        ensures first { IfOk result (λ hall. hall.first ≡ 1) }
        ensures whole { IfOk result (λ hall. hall.broken ≡ false) }
        ensures stands { IfOk result (λ hall. StandsFor hall []) }
    {
        Hall::start_as(alloc, opening, false)
    }

    /// The entries that are stored, in order.
    pub fn journal(&self) -> &[Entry]
        ensures { result.now ≡ self.now.stored }
    {
        &self.stored
    }

    /// The number of the first entry that is stored, and 1 more than `entries` where none is.
    pub fn first(&self) -> u64
        ensures { result ≡ self.now.first }
    {
        self.first
    }

    /// How many entries the history has, with those that were forgotten.
    pub fn entries(&self) -> u64
        ensures count { result ≡ entries self.now }
        ensures few { result ≤ 2 ^ 61 }
    {
        self.first - 1 + self.stored.len() as u64
    }

    /// Where its memory comes from.
    pub fn alloc(&self) -> Global {
        self.alloc
    }

    /// The bytes of the replies to a session that no Take has handed out. Nothing is said of a broken hall.
    pub fn outbox(&self, session: u32) -> &[u8]
        ensures { OfHistories self.now (λ events. result.now ≡ outbox (journal_of self.now.opening events) session) }
    {
        waiting_for(&self.outboxes, session)
    }

    /// The display as an image(6) file, which the file `screen` outside of windows has, too. Nothing is said of that of a broken hall.
    pub fn screen(&self) -> Result<Bytes, Memory>
        ensures file { IfOk result (λ file. self.now.broken ≡ false → file ≡ screen_file (world_in self.now.world).desktop.device) }
        ensures picture { self.now.broken ≡ false → picture_of (world_in self.now.world).desktop.device 0 ≡ screen_file (world_in self.now.world).desktop.device }
    {
        self.world.screen()
    }

    /// How many tiles keep hidden pixels: one for each pair of a window and a cell of it, of 32 by 32 points counted from the window's
    /// min, that has a hidden point. It takes no memory. Nothing is said of those of a broken hall.
    pub fn tiles(&self) -> usize
        ensures { self.now.broken ≡ false → result ≡ cells (world_in self.now.world).desktop.device }
    {
        self.world.tiles()
    }

    /// Whether a cell of the display, of 32 by 32 pixels, is marked: whether a pixel of it was written since its marks were cleared.
    pub fn marked(&self, column: u32, row: u32) -> bool
        requires column { column < cells_over (width (display_in self.now.world).r) }
        requires row { row < cells_over (height (display_in self.now.world).r) }
        ensures { result ≡ (display_in self.now.world).marked column row }
    {
        self.world.marked(column, row)
    }

    /// The sides of the display, in pixels. Nothing is said of those of a broken hall.
    pub fn size(&self) -> Size
        ensures { is_side self.now.opening.width ≡ true → is_side self.now.opening.height ≡ true → OfHistories self.now (λ events. IsSizeOf (at_number (replay self.now.opening events).desktop.device 0).r result) }
    {
        each_history_has_a_display();
        self.world.sound();
        let r = self.world.display();
        Size {
            width: side(r.width()),
            height: side(r.height()),
        }
    }

    /// The rectangle of the display, in pixels, also of a broken hall.
    pub fn display(&self) -> Rect
        ensures r { result ≡ (display_in self.now.world).r }
        ensures near { IsRectNearBy (2 ^ 33) result }
        ensures ordered { IsOrdered result }
    {
        self.world.display()
    }

    /// The rows of a part of the display (image(6)): what is painted from back to front, on it and on all that stands on it. Nothing is
    /// said of those of a broken hall.
    pub fn rows(&self, r: Rect) -> Result<Bytes, Memory>
        requires points { HasPoints r }
        requires inside { (p : Spot) → IsTrue (holds r p) → IsTrue (holds (display_in self.now.world).r p) }
        ensures { IfOk result (λ rows. OfHistories self.now (λ events. rows ≡ rows_of r (depth (at_number (replay self.now.opening events).desktop.device 0).chan) (paint (replay self.now.opening events).desktop.device.images 0))) }
    {
        let rows = self.world.with_rows(r, Vec::new(self.alloc))?;
        Ok(Bytes::from(rows))
    }

    /// Where the mouse was last, in pixels of the display: the point of the last event that was written to `mousein`. None before any.
    /// Nothing is said of that of a broken hall.
    pub fn pointer(&self) -> Option<Point>
        ensures pointer { OfHistories self.now (λ events. result ≡ (replay self.now.opening events).desktop.pointer) }
        ensures near { IfSome result IsNear }
    {
        self.world.pointer()
    }

    /// Clears the marks of the display. The history that the hall stands for stays, and all else.
    pub fn clear_marks(&mut self)
        ensures opening { self.new.opening ≡ self.old.opening }
        ensures first { self.new.first ≡ self.old.first }
        ensures stored { IsAsStored self.old self.new }
        ensures whole { self.new.broken ≡ self.old.broken }
        ensures watches { self.new.world.watches ≡ self.old.world.watches }
        ensures world { world_in self.new.world ≡ world_in self.old.world }
        ensures cleared { IsCleared (display_in self.old.world) (display_in self.new.world) }
    {
        self.world.clear_marks();
    }

    /// Whether an event may come next.
    pub fn can(&self, event: &Event) -> bool
        ensures { IsTrue result ↔ AllowedNext self.now event.now }
    {
        self.roll.allows(event) && (!self.broken || matches!(event, Event::Stop))
    }

    /// Makes an event, and gives as well what it took of what waited.
    pub(crate) fn make<L: Ledger>(
        &mut self,
        event: Event,
        pixels: &mut Steps<L>,
    ) -> Result<Given, Memory>
        requires can { AllowedNext self.old event }
        requires room { entries self.old < 2 ^ 61 }
        ensures opening { self.new.opening ≡ self.old.opening }
        ensures first { self.new.first ≡ self.old.first }
        ensures made { IfOk result (λ given. IsMadeOf self.old event given.did self.new) }
        ensures taken { IfOk result (λ given. given.taken ≡ taken self.old.outboxes event) }
        ensures whole { OnOk result (self.new.broken ≡ self.old.broken) }
        ensures watches { self.new.world.watches ≡ self.old.world.watches }
        ensures stop { event ≡ Event.Stop → IsOk result }
        ensures stopped { event ≡ Event.Stop → IfOk result (λ given. given.did ≡ record { replies = []; notes = []; uses = []; short = None; closed = None }) }
        ensures err { OnErr result (IsAsStored self.old self.new) }
        ensures pixels { IfOk result (λ given. OfHistories self.old (λ events. pixels.new ≤ pixels.old + (step (replay self.old.opening events) (marked event given.did.short)).cost)) }
        ensures marks { IfOk result (λ _. OfHistories self.old (λ _. IsMarked (display_in self.old.world) (display_in self.new.world) (pixels.new - pixels.old))) }
        ensures uncounted { OnErr result (pixels.new ≡ pixels.old) }
        ensures silent { event ≡ Event.Stop → pixels.new ≡ pixels.old }
    {
        if let Event::Stop = event {
            enter(&mut self.roll, &mut self.stored, self.first, event)?;
            return Ok(nothing(self.alloc));
        }
        self.stored.reserve(2)?;
        self.broken = true;
        each_history_has_a_display();
        self.world.sound();
        let stepped = self.world.make(&event)?;
        let taken = post(
            self.alloc,
            &mut self.outboxes,
            &event,
            stepped.did.replies.as_slice(),
        )?;
        let event = marked(event, stepped.did.short);
        enter(&mut self.roll, &mut self.stored, self.first, event)?;
        self.broken = false;
        pixels.add(stepped.pixels);
        Ok(Given {
            did: stepped.did,
            taken,
        })
    }

    /// Makes an event: its entry is one more in the history, and the answer is what it gave. A data write in which memory ran out has
    /// in the history the mark that the answer tells, with which it may come next as well. For want of memory elsewhere the history
    /// stays as it was, and the hall is as before or broken. A Stop takes no memory. Each pixel that the event wrote is counted in
    /// `pixels`; for want of memory none is, and none at a Stop, which writes nothing.
    pub fn event<L: Ledger>(&mut self, event: Event, pixels: &mut Steps<L>) -> Result<Did, Memory>
        requires can { AllowedNext self.old event }
        requires room { entries self.old < 2 ^ 61 }
        ensures opening { self.new.opening ≡ self.old.opening }
        ensures first { self.new.first ≡ self.old.first }
        ensures made { IfOk result (λ did. IsMadeOf self.old event did self.new) }
        ensures whole { OnOk result (self.new.broken ≡ self.old.broken) }
        ensures watches { self.new.world.watches ≡ self.old.world.watches }
        ensures stop { event ≡ Event.Stop → IsOk result }
        ensures stopped { event ≡ Event.Stop → IfOk result (λ did. did ≡ record { replies = []; notes = []; uses = []; short = None; closed = None }) }
        ensures err { OnErr result (IsAsStored self.old self.new) }
        // It writes at most the pixels that what it asks costs.
        ensures pixels { IfOk result (λ did. OfHistories self.old (λ events. pixels.new ≤ pixels.old + (step (replay self.old.opening events) (marked event did.short)).cost)) }
        // Each cell of the display in which a pixel has changed was marked, none has lost its mark, and no more were marked than pixels were
        // written.
        ensures marks { IfOk result (λ _. OfHistories self.old (λ _. IsMarked (display_in self.old.world) (display_in self.new.world) (pixels.new - pixels.old))) }
        ensures uncounted { OnErr result (pixels.new ≡ pixels.old) }
        ensures silent { event ≡ Event.Stop → pixels.new ≡ pixels.old }
    {
        let given = self.make(event, pixels)?;
        Ok(given.did)
    }

    /// Forgets all stored entries. The history that the hall stands for stays, and all else. It takes no memory.
    pub fn forget(&mut self)
        ensures forgotten { self.new ≡ record self.old { first = entries self.old + 1; stored = [] } }
        ensures first { self.new.first ≡ self.old.first + length self.old.stored }
        ensures stands { StandsOn self.old self.new }
    {
        self.first += self.stored.len() as u64;
        self.stored.clear();
    }
}
