//! The world, without the history that led to it.

ghost use Rattle.std.specs.Prelude.{◌≡◌, ◌≤◌, ◌<◌, ◌+◌, ◌-◌, ◌^◌, ◌++◌, true, false, None, option_map, IfOk, OnErr, IfSome, IsSome, IsTrue};
ghost use Rattle.std.specs.Option.{option_map_or};
ghost use Rattle.model_text.specs.text.Map.{lookup};
ghost use Rattle.model_draw.specs.cost.Cells.{cells};
ghost use Rattle.model_draw.specs.draw.Files.{screen_file};
ghost use Rattle.model_draw.specs.draw.Orders.{picture_of};
ghost use Rattle.model_draw.specs.draw.World.{at_number};
ghost use Rattle.model_alone.specs.alone.Uses.{event_used};
ghost use Rattle.model_world.specs.Cut.{IsCutEvent, IsWantingEvent};
ghost use Rattle.model_world.specs.Links.{IsNext, begun_after};
ghost use Rattle.model_world.specs.Replay.{marked, step};
ghost use Rattle.r9_geom.specs.declared.Point.{Point as Spot};
ghost use Rattle.r9_geom.specs.Geometry.{height, holds, width, HasPoints, IsNear, IsOrdered, IsRectNearBy};
ghost use Rattle.model_pixel.specs.Channels.{depth};
ghost use Rattle.model_pixel.specs.Rows.{rows_of};
ghost use Rattle.model_forest.specs.Paint.{paint};
ghost use Rattle.model_forest.specs.World.{IsForest};
ghost use Rattle.r9_marks.specs.marks.Cells.{cells_over};
ghost use Rattle.r9_desktop.specs.Marks.{IsCleared, IsMarked, IsOf, IsSound};
ghost use Rattle.r9_hall.specs.hall.StateView.{IsWhole};
ghost use Rattle.r9_hall.specs.hall.WorldView.{IsFirst, IsStepped, display_in, world_in};

use crate::hall::sessions::{Sessions, Stepped};
use r9_event::event::{Did, Event, Opening};
use r9_geom::{Point, Rect};
use r9_marks::steps::Steps;
use r9_memory::Memory;
use r9_text::Bytes;
use std::alloc::Global;
use std::marker::Model;
use std::sync::ledger::Ledger;

/// What a history leads to, as a replay needs it: the opening, the sessions that live and what they share. It keeps neither
/// the events that were made nor the replies to them, so a long history takes no more memory than a short one. Contracts see it
/// as the world, how many sessions have begun, whether it tells what events used, and whether it is broken: once memory ran out in an
/// event it takes no other.
#[derive(Drop)]
pub struct World {
    alloc: Global,
    opening: Opening,
    watches: bool,
    sessions: Sessions,
    begun: u32,
    broken: bool,
}

impl Model for World {
    ghost use Rattle.r9_hall.specs.hall.WorldView.{WorldValue, value_of, IsWorld};

    ghost Value = { WorldValue };

    ghost use Rattle.r9_hall.specs.contracts.hall.sessions.Sessions as kept;
    ghost use Rattle.std.specs.Coded.{codes};

    ghost coded = { Prim.hlevel (codes, kept.the_row.coded) };

    ghost view = { value_of };

    ghost invariant = { IsWorld };
}

/// How many sessions have begun after an event.
fn begun_after(begun: u32, event: &Event) -> u32
    ensures { result ≡ begun_after begun event.now }
{
    match event {
        Event::Begin { session } => *session,
        _ => begun,
    }
}

impl World {
    /// The world in which nothing has happened. Where it watches, it tells what each event used by which a session could notice another
    /// one, for which it reads each message once more.
    pub fn start(alloc: Global, opening: Opening, watches: bool) -> Result<Self, Memory>
        ensures first { IfOk result (λ world. IsFirst opening world) }
        ensures watches { IfOk result (λ world. world.watches ≡ watches) }
    {
        let sessions = Sessions::start(alloc, &opening)?;
        Ok(World {
            alloc,
            opening,
            watches,
            sessions,
            begun: 0,
            broken: false,
        })
    }

    /// Makes an event, and gives the replies to it, what the windows were told, what it used where that is watched, the mark with which it
    /// stands in the history where that is not its own, and how many pixels it wrote. A session that begins is the next one. Where memory
    /// ran out the world is broken, and nothing else is said of it.
    pub(crate) fn make(&mut self, event: &Event) -> Result<Stepped, Memory>
        requires whole { IsWhole event.now }
        requires next { IsNext self.old.begun event.now }
        requires going { self.old.broken ≡ false }
        ensures opening { self.new.opening ≡ self.old.opening }
        ensures watches { self.new.watches ≡ self.old.watches }
        ensures world { IfOk result (λ gave. IsStepped self.old (marked event.now gave.did.short) self.new) }
        ensures replies { IfOk result (λ gave. gave.did.replies ≡ (step (world_in self.old) (marked event.now gave.did.short)).replies) }
        ensures notes { IfOk result (λ gave. gave.did.notes ≡ (step (world_in self.old) (marked event.now gave.did.short)).notes) }
        ensures uses { self.old.watches ≡ true → IfOk result (λ gave. gave.did.uses ≡ event_used (world_in self.old) (step (world_in self.old) (marked event.now gave.did.short)).world (marked event.now gave.did.short)) }
        ensures closed { IfOk result (λ gave. gave.did.closed ≡ (step (world_in self.old) (marked event.now gave.did.short)).closed) }
        ensures short { IfOk result (λ gave. IfSome gave.did.short (λ k. IsCutEvent (world_in self.old) event.now k)) }
        ensures told { IfOk result (λ gave. IsWantingEvent (world_in self.old) (marked event.now gave.did.short) → IsSome gave.did.short) }
        ensures pixels { IfOk result (λ gave. gave.pixels ≤ (step (world_in self.old) (marked event.now gave.did.short)).cost) }
        ensures marks { IfOk result (λ gave. (display_in self.old).nowhere ≡ true → IsMarked (display_in self.old) (display_in self.new) gave.pixels) }
    {
        self.broken = true;
        let stepped = self.sessions.step(self.alloc, event, self.watches)?;
        self.begun = begun_after(self.begun, event);
        self.broken = false;
        Ok(stepped)
    }

    /// Makes an event, and gives the replies to it, what the windows were told, what it used where that is watched, and the mark with which
    /// it stands in the history where that is not its own. A session that begins is the next one. Each pixel that the event wrote is counted
    /// in `pixels`. Where memory ran out the world is broken, and nothing else is said of it, and none is counted.
    pub fn step<L: Ledger>(&mut self, event: &Event, pixels: &mut Steps<L>) -> Result<Did, Memory>
        requires whole { IsWhole event.now }
        requires next { IsNext self.old.begun event.now }
        requires going { self.old.broken ≡ false }
        ensures opening { self.new.opening ≡ self.old.opening }
        ensures watches { self.new.watches ≡ self.old.watches }
        ensures world { IfOk result (λ did. IsStepped self.old (marked event.now did.short) self.new) }
        ensures replies { IfOk result (λ did. did.replies ≡ (step (world_in self.old) (marked event.now did.short)).replies) }
        ensures notes { IfOk result (λ did. did.notes ≡ (step (world_in self.old) (marked event.now did.short)).notes) }
        ensures uses { self.old.watches ≡ true → IfOk result (λ did. did.uses ≡ event_used (world_in self.old) (step (world_in self.old) (marked event.now did.short)).world (marked event.now did.short)) }
        ensures closed { IfOk result (λ did. did.closed ≡ (step (world_in self.old) (marked event.now did.short)).closed) }
        // A mark is told only of a write of an open `data` file, where its own mark took effect or the message may want memory.
        ensures short { IfOk result (λ did. IfSome did.short (λ k. IsCutEvent (world_in self.old) event.now k)) }
        // A reply that is the refusal of want of memory tells one.
        ensures told { IfOk result (λ did. IsWantingEvent (world_in self.old) (marked event.now did.short) → IsSome did.short) }
        // It writes at most the pixels that what it asks costs.
        ensures pixels { IfOk result (λ did. pixels.new ≤ pixels.old + (step (world_in self.old) (marked event.now did.short)).cost) }
        // Each cell of the display in which a pixel has changed was marked, none has lost its mark, and no more were marked than pixels were
        // written.
        ensures marks { IfOk result (λ did. (display_in self.old).nowhere ≡ true → IsMarked (display_in self.old) (display_in self.new) (pixels.new - pixels.old)) }
        ensures uncounted { OnErr result (pixels.new ≡ pixels.old) }
    {
        let stepped = self.make(event)?;
        pixels.add(stepped.pixels);
        Ok(stepped.did)
    }

    /// How many sessions have begun. Nothing is said of a broken world.
    pub fn begun(&self) -> u32
        ensures { result ≡ self.now.begun }
    {
        self.begun
    }

    /// The greatest size in bytes of a session's next message; None where the session does not live.
    pub fn session_size(&self, session: u32) -> Option<u32>
        ensures { result ≡ option_map (λ found. found.msize) (lookup (world_in self.now).sessions session) }
    {
        match self.sessions.live.get(&session) {
            Some(found) => Some(found.msize()),
            None => None,
        }
    }

    /// The tag by which a session that lives was closed; None where it is open, or does not live.
    pub fn closed_by(&self, session: u32) -> Option<u16>
        ensures { result ≡ option_map_or (λ found. found.closed) (lookup (world_in self.now).sessions session) None }
    {
        match self.sessions.live.get(&session) {
            Some(found) => found.closed(),
            None => None,
        }
    }

    /// Whether a cell of the display, of 32 by 32 pixels, is marked: whether a pixel of it was written since its marks were cleared.
    pub fn marked(&self, column: u32, row: u32) -> bool
        requires column { column < cells_over (width (display_in self.now).r) }
        requires row { row < cells_over (height (display_in self.now).r) }
        ensures { result ≡ (display_in self.now).marked column row }
    {
        self.sessions.marked(column, row)
    }

    /// What is known of the display and its marks. Nothing is done.
    pub fn sound(&self)
        ensures shows { IsOf (world_in self.now).desktop.device (display_in self.now) }
        ensures forest { IsForest (world_in self.now).desktop.device.images }
        ensures sound { (display_in self.now).nowhere ≡ true → IsSound (display_in self.now) }
    {
        self.sessions.sound();
    }

    /// The rectangle of the display, in pixels.
    pub fn display(&self) -> Rect
        ensures r { result ≡ (display_in self.now).r }
        ensures near { IsRectNearBy (2 ^ 33) result }
        ensures ordered { IsOrdered result }
    {
        self.sessions.display()
    }

    /// Bytes with the rows of a part of the display behind them (image(6)): of what is painted from back to front, on it and on all that
    /// stands on it. For want of memory there are none.
    pub fn with_rows(&self, r: Rect, front: Vec<u8>) -> Result<Vec<u8>, Memory>
        requires points { HasPoints r }
        requires inside { (p : Spot) → IsTrue (holds r p) → IsTrue (holds (display_in self.now).r p) }
        ensures { IfOk result (λ all. all.items ≡ front.items ++ rows_of r (depth (at_number (world_in self.now).desktop.device 0).chan) (paint (world_in self.now).desktop.device.images 0)) }
    {
        self.sessions.with_rows(r, front)
    }

    /// Where the mouse was last, in pixels of the display: the point of the last event that was written to `mousein`. None before any.
    pub fn pointer(&self) -> Option<Point>
        ensures pointer { result ≡ (world_in self.now).desktop.pointer }
        ensures near { IfSome result IsNear }
    {
        self.sessions.pointer()
    }

    /// Clears the marks of the display.
    pub fn clear_marks(&mut self)
        ensures opening { self.new.opening ≡ self.old.opening }
        ensures watches { self.new.watches ≡ self.old.watches }
        ensures begun { self.new.begun ≡ self.old.begun }
        ensures broken { self.new.broken ≡ self.old.broken }
        ensures world { world_in self.new ≡ world_in self.old }
        ensures cleared { IsCleared (display_in self.old) (display_in self.new) }
    {
        self.sessions.clear_marks();
    }

    /// The display as an image(6) file, which the file `screen` outside of windows has, too.
    pub fn screen(&self) -> Result<Bytes, Memory>
        ensures file { IfOk result (λ file. file ≡ screen_file (world_in self.now).desktop.device) }
        ensures picture { picture_of (world_in self.now).desktop.device 0 ≡ screen_file (world_in self.now).desktop.device }
    {
        self.sessions.screen()
    }

    /// How many tiles keep hidden pixels: one for each pair of a window and a cell of it, of 32 by 32 points counted from the window's
    /// min, that has a hidden point. It takes no memory.
    pub fn tiles(&self) -> usize
        ensures { result ≡ cells (world_in self.now).desktop.device }
    {
        self.sessions.tiles()
    }
}
