//! The sessions that live and what they share, and what an event makes of them.

ghost use Rattle.std.specs.Prelude.{◌≡◌, ◌≤◌, ◌^◌, ◌++◌, ℕ, [], true, length, None, Option, IfOk, OnOk, IfSome, IsSome, IsTrue, ◌<◌};
ghost use Rattle.model_text.specs.text.Map.{lookup};
ghost use Rattle.model_draw.specs.cost.Cells.{cells};
ghost use Rattle.model_draw.specs.draw.Files.{screen_file};
ghost use Rattle.model_draw.specs.draw.Orders.{picture_of};
ghost use Rattle.model_world.specs.Cut.{IsCutEvent, IsWantingEvent};
ghost use Rattle.model_world.specs.Desktop.{first_desktop};
ghost use Rattle.model_world.specs.Links.{AreLinked, IsLinked};
ghost use Rattle.model_world.specs.Replay.{marked, step};
ghost use Rattle.model_world.specs.World.{display_of as display_opened, opened};
ghost use Rattle.r9_geom.specs.declared.Point.{Point as Spot};
ghost use Rattle.r9_geom.specs.Geometry.{height, holds, width, HasPoints, IsNear, IsOrdered, IsRectNearBy};
ghost use Rattle.model_pixel.specs.Channels.{depth};
ghost use Rattle.model_pixel.specs.Rows.{rows_of};
ghost use Rattle.model_forest.specs.Paint.{paint};
ghost use Rattle.model_forest.specs.World.{IsForest};
ghost use Rattle.model_draw.specs.draw.World.{at_number};
ghost use Rattle.r9_marks.specs.marks.Cells.{cells_over};
ghost use Rattle.r9_desktop.specs.Marks.{IsCleared, IsMarked, IsOf, IsSound};
ghost use Rattle.r9_desktop.specs.World.{began_of, desktop_of, display_of};
ghost use Rattle.r9_event.specs.declared.event.event.Event.{Event};
ghost use Rattle.r9_event.specs.declared.event.event.Opening.{Opening};
ghost use Rattle.r9_hall.specs.hall.Settling.{WaitsAt};
ghost use Rattle.model_alone.specs.alone.Uses.{event_used};
ghost use Rattle.r9_hall.specs.hall.StateView.{world_with, IsAnswered, IsLeft, IsMade, IsServed, IsTurn, IsWhole};
ghost use Rattle.r9_hall.specs.hall.Watching.{IsSeenAs, IsSeenOf};

use crate::hall::settling::spelled;
use crate::hall::watching::{Sight, answer_watched};
use crate::shared::leave as leave_shared;
use r9_desktop::Desktop;
use r9_event::event::{Did, Event, Opening, Replies, Uses};
use r9_geom::{Point, Rect};
use r9_memory::Memory;
use r9_session::Session;
use r9_text::Bytes;
use std::alloc::Global;
use std::collections::BTreeMap;

/// The live sessions by number, and the draw device and the windows, which they share.
#[derive(Drop)]
pub struct Sessions {
    pub(crate) live: BTreeMap<u32, Session>,
    pub(crate) desktop: Desktop,
}

/// What an event gave but for what the windows were told: the replies to it, what it used, the mark with which it stands in the history
/// where that is not its own, and the tag by which it closed its session.
#[derive(Drop)]
struct Made {
    replies: Replies,
    uses: Uses,
    short: Option<u32>,
    closed: Option<u16>,
}

/// What an event gave, and how many pixels it wrote.
#[derive(Drop)]
pub(crate) struct Stepped {
    pub(crate) did: Did,
    pub(crate) pixels: u64,
}

/// What a message gave by itself: its reply, if it has one, the mark with which it stands in the history where that is not its own, the
/// tag by which it closed its session, and the serial of the window or rio whose file it wrote, 0 where it wrote none.
#[derive(Drop)]
struct Own {
    replies: Replies,
    short: Option<u32>,
    closed: Option<u16>,
    wrote: u32,
}

/// No windows, and a draw device with the display of an opening.
fn start_desktop(alloc: Global, opening: &Opening) -> Result<Desktop, Memory>
    ensures { IfOk result (λ desktop. desktop_of desktop ≡ first_desktop (display_opened opening.now)) }
{
    let min = Point { x: 0, y: 0 };
    let max = Point {
        x: i64::from(opening.width),
        y: i64::from(opening.height),
    };
    Desktop::start(alloc, Rect { min, max }, opening.chan)
}

/// What a session's message gives by itself.
fn answer(
    alloc: Global,
    found: &mut Session,
    desktop: &mut Desktop,
    session: u32,
    bytes: &[u8],
    mark: Option<u32>,
    watches: bool,
    sight: &mut Option<Sight>,
) -> Result<Own, Memory>
    requires long { 7 ≤ length bytes.now }
    requires linked { IsLinked session found.old.made found.old.connections (desktop_of desktop.old).device }
    ensures answered { IfOk result (λ own. IsAnswered session found.old (desktop_of desktop.old) bytes.now mark own found.new (desktop_of desktop.new)) }
    ensures began { began_of desktop.new ≡ began_of desktop.old }
    ensures seen { watches ≡ true → IfOk result (λ own. IsSeenAs session found.old (desktop_of desktop.old) bytes.now mark own.short sight.new) }
{
    let closed = found.closing_tag(bytes);
    let answered = answer_watched(alloc, found, desktop, session, bytes, mark, watches, sight)?;
    let mut replies = Replies::new(alloc);
    if let Some(reply) = &answered.reply {
        replies.push(spelled(alloc, session, reply)?)?;
    }
    Ok(Own {
        replies,
        short: answered.short,
        closed,
        wrote: answered.wrote,
    })
}

/// The same, or None where the session does not live.
fn answer_in(
    alloc: Global,
    sessions: &mut BTreeMap<u32, Session>,
    desktop: &mut Desktop,
    session: u32,
    bytes: &[u8],
    mark: Option<u32>,
    watches: bool,
    sight: &mut Option<Sight>,
) -> Result<Option<Own>, Memory>
    requires long { 7 ≤ length bytes.now }
    requires linked { AreLinked (desktop_of desktop.old).device sessions.old.entries }
    ensures seen { watches ≡ true → IfOk result (λ own. IsSeenOf session (lookup sessions.old.entries session) (desktop_of desktop.old) bytes.now mark own sight.new) }
    ensures served { IfOk result (λ own. IsServed session (lookup sessions.old.entries session) sessions.old.entries (desktop_of desktop.old) bytes.now mark own sessions.new.entries (desktop_of desktop.new)) }
    ensures linked { OnOk result (AreLinked (desktop_of desktop.new).device sessions.new.entries) }
    ensures began { began_of desktop.new ≡ began_of desktop.old }
{
    match sessions.get_mut(&session) {
        Some(found) => {
            let own = answer(alloc, found, desktop, session, bytes, mark, watches, sight)?;
            Ok(Some(own))
        }
        None => Ok(None),
    }
}

/// Ends all that goes with the fids of a session, and tells whether it lives.
fn leave(
    alloc: Global,
    sessions: &BTreeMap<u32, Session>,
    desktop: &mut Desktop,
    session: u32,
) -> Result<bool, Memory>
    requires { AreLinked (desktop_of desktop.old).device sessions.now.entries }
    ensures left { IfOk result (λ lived. IsLeft session (lookup sessions.now.entries session) (desktop_of desktop.old) lived (desktop_of desktop.new)) }
    ensures began { began_of desktop.new ≡ began_of desktop.old }
{
    match sessions.get(&session) {
        Some(found) => {
            leave_shared(alloc, found, desktop, session)?;
            Ok(true)
        }
        None => Ok(false),
    }
}

/// What an event gives that is no message.
fn silent(alloc: Global) -> Made
    ensures { result ≡ record { replies = []; uses = []; short = None; closed = None } }
{
    Made {
        replies: Replies::new(alloc),
        uses: Uses::new(alloc),
        short: None,
        closed: None,
    }
}

impl Sessions {
    /// No sessions and no windows, and a draw device with its display alone.
    pub fn start(alloc: Global, opening: &Opening) -> Result<Self, Memory>
        ensures { IfOk result (λ sessions. world_with opening.now sessions ≡ opened opening.now) }
    {
        Ok(Sessions {
            live: BTreeMap::new(alloc),
            desktop: start_desktop(alloc, opening)?,
        })
    }

    /// What a message gives: its own reply, if it has one, and then those to reads that waited; and what it used, where that is watched.
    fn serve(
        &mut self,
        alloc: Global,
        session: u32,
        bytes: &[u8],
        mark: Option<u32>,
        watches: bool,
    ) -> Result<Made, Memory>
        requires long { 7 ≤ length bytes.now }
        requires linked { AreLinked (desktop_of self.old.desktop).device self.old.live.entries }
        requires quiet { (c : ℕ) → WaitsAt self.old.live.entries (desktop_of self.old.desktop) c }
        ensures made { IfOk result (λ made. (opening : Opening) → IsMade opening self.old (marked (Event.Msg session bytes.now mark) made.short) made self.new) }
        ensures short { IfOk result (λ made. (opening : Opening) → IfSome made.short (λ k. IsCutEvent (world_with opening self.old) (Event.Msg session bytes.now mark) k)) }
        ensures told { IfOk result (λ made. (opening : Opening) → IsWantingEvent (world_with opening self.old) (marked (Event.Msg session bytes.now mark) made.short) → IsSome made.short) }
        ensures uses { watches ≡ true → IfOk result (λ made. (opening : Opening) → made.uses ≡ event_used (world_with opening self.old) (world_with opening self.new) (marked (Event.Msg session bytes.now mark) made.short)) }
        ensures began { began_of self.new.desktop ≡ began_of self.old.desktop }
    {
        let mut sight = None;
        let own = answer_in(
            alloc,
            &mut self.live,
            &mut self.desktop,
            session,
            bytes,
            mark,
            watches,
            &mut sight,
        )?;
        let Some(own) = own else {
            return Ok(silent(alloc));
        };
        let asked = self.woken(alloc, session, own.wrote)?;
        let mut replies = own.replies;
        self.settle(alloc, &asked, &mut replies)?;
        let uses = self.uses_at_end(alloc, session, sight)?;
        Ok(Made {
            replies,
            uses,
            short: own.short,
            closed: own.closed,
        })
    }

    fn begin(&mut self, alloc: Global, session: u32) -> Result<Made, Memory>
        ensures made { IfOk result (λ made. (opening : Opening) → IsMade opening self.old (Event.Begin session) made self.new) }
        ensures unmarked { IfOk result (λ made. made.short ≡ None) }
        ensures unused { IfOk result (λ made. made.uses ≡ []) }
        ensures began { began_of self.new.desktop ≡ began_of self.old.desktop }
    {
        self.live.insert(session, Session::fresh(alloc))?;
        Ok(silent(alloc))
    }

    fn end(&mut self, alloc: Global, session: u32) -> Result<Made, Memory>
        requires linked { AreLinked (desktop_of self.old.desktop).device self.old.live.entries }
        requires quiet { (c : ℕ) → WaitsAt self.old.live.entries (desktop_of self.old.desktop) c }
        ensures made { IfOk result (λ made. (opening : Opening) → IsMade opening self.old (Event.End session) made self.new) }
        ensures unmarked { IfOk result (λ made. made.short ≡ None) }
        ensures unused { IfOk result (λ made. made.uses ≡ []) }
        ensures began { began_of self.new.desktop ≡ began_of self.old.desktop }
    {
        let mut replies = Replies::new(alloc);
        if leave(alloc, &self.live, &mut self.desktop, session)? {
            self.live.remove(&session);
            let asked = self.woken(alloc, session, 0)?;
            self.settle(alloc, &asked, &mut replies)?;
        }
        Ok(Made {
            replies,
            uses: Uses::new(alloc),
            short: None,
            closed: None,
        })
    }

    /// Makes an event. Its turn has still to end: what the windows were told and how many pixels were written is to be taken.
    fn make(&mut self, alloc: Global, event: &Event, watches: bool) -> Result<Made, Memory>
        requires whole { IsWhole event.now }
        requires linked { AreLinked (desktop_of self.old.desktop).device self.old.live.entries }
        requires quiet { (c : ℕ) → WaitsAt self.old.live.entries (desktop_of self.old.desktop) c }
        ensures made { IfOk result (λ made. (opening : Opening) → IsMade opening self.old (marked event.now made.short) made self.new) }
        ensures short { IfOk result (λ made. (opening : Opening) → IfSome made.short (λ k. IsCutEvent (world_with opening self.old) event.now k)) }
        ensures told { IfOk result (λ made. (opening : Opening) → IsWantingEvent (world_with opening self.old) (marked event.now made.short) → IsSome made.short) }
        ensures uses { watches ≡ true → IfOk result (λ made. (opening : Opening) → made.uses ≡ event_used (world_with opening self.old) (world_with opening self.new) (marked event.now made.short)) }
        ensures began { began_of self.new.desktop ≡ began_of self.old.desktop }
    {
        match event {
            Event::Begin { session } => self.begin(alloc, *session),
            Event::Msg {
                session,
                bytes,
                mark,
            } => self.serve(alloc, *session, bytes.as_slice(), *mark, watches),
            Event::End { session } => self.end(alloc, *session),
            Event::Take { .. } | Event::Stop => Ok(silent(alloc)),
        }
    }

    /// Makes an event, and gives the replies to it, what the windows were told, what it used where that is watched, and the mark with
    /// which it stands in the history where that is not its own, and how many pixels it wrote. Nothing is said of the sessions and what
    /// they share where memory ran out.
    pub(crate) fn step(
        &mut self,
        alloc: Global,
        event: &Event,
        watches: bool,
    ) -> Result<Stepped, Memory>
        requires whole { IsWhole event.now }
        requires linked { AreLinked (desktop_of self.old.desktop).device self.old.live.entries }
        requires quiet { (c : ℕ) → WaitsAt self.old.live.entries (desktop_of self.old.desktop) c }
        ensures turn { IfOk result (λ gave. (opening : Opening) → IsTurn opening self.old (marked event.now gave.did.short) gave.did self.new) }
        ensures short { IfOk result (λ gave. (opening : Opening) → IfSome gave.did.short (λ k. IsCutEvent (world_with opening self.old) event.now k)) }
        ensures told { IfOk result (λ gave. (opening : Opening) → IsWantingEvent (world_with opening self.old) (marked event.now gave.did.short) → IsSome gave.did.short) }
        ensures uses { watches ≡ true → IfOk result (λ gave. (opening : Opening) → gave.did.uses ≡ event_used (world_with opening self.old) (world_with opening self.new) (marked event.now gave.did.short)) }
        ensures pixels { IfOk result (λ gave. (opening : Opening) → gave.pixels ≤ (step (world_with opening self.old) (marked event.now gave.did.short)).cost) }
        // Each cell of the display in which a pixel has changed was marked, none has lost its mark, and no more were marked than pixels were
        // written.
        ensures marks { IfOk result (λ gave. (display_of self.old.desktop).nowhere ≡ true → IsMarked (display_of self.old.desktop) (display_of self.new.desktop) gave.pixels) }
    {
        self.desktop.begin_turn();
        let made = self.make(alloc, event, watches)?;
        let turn = self.desktop.take_turn();
        Ok(Stepped {
            did: Did {
                replies: made.replies,
                notes: turn.notes,
                uses: made.uses,
                short: made.short,
                closed: made.closed,
            },
            pixels: turn.pixels,
        })
    }

    /// Whether a cell of the display, of 32 by 32 pixels, is marked: whether a pixel of it was written since its marks were cleared.
    pub(crate) fn marked(&self, column: u32, row: u32) -> bool
        requires column { column < cells_over (width (display_of self.now.desktop).r) }
        requires row { row < cells_over (height (display_of self.now.desktop).r) }
        ensures { result ≡ (display_of self.now.desktop).marked column row }
    {
        self.desktop.marked(column, row)
    }

    /// What is known of the display and its marks. Nothing is done.
    pub(crate) fn sound(&self)
        ensures shows { IsOf (desktop_of self.now.desktop).device (display_of self.now.desktop) }
        ensures forest { IsForest (desktop_of self.now.desktop).device.images }
        ensures sound { (display_of self.now.desktop).nowhere ≡ true → IsSound (display_of self.now.desktop) }
    {
        self.desktop.sound();
    }

    /// The rectangle of the display, in pixels.
    pub(crate) fn display(&self) -> Rect
        ensures r { result ≡ (display_of self.now.desktop).r }
        ensures near { IsRectNearBy (2 ^ 33) result }
        ensures ordered { IsOrdered result }
    {
        self.desktop.display()
    }

    /// Bytes with the rows of a part of the display behind them (image(6)).
    pub(crate) fn with_rows(&self, r: Rect, front: Vec<u8>) -> Result<Vec<u8>, Memory>
        requires points { HasPoints r }
        requires inside { (p : Spot) → IsTrue (holds r p) → IsTrue (holds (display_of self.now.desktop).r p) }
        ensures { IfOk result (λ all. all.items ≡ front.items ++ rows_of r (depth (at_number (desktop_of self.now.desktop).device 0).chan) (paint (desktop_of self.now.desktop).device.images 0)) }
    {
        self.desktop.with_rows(r, front)
    }

    /// Where the mouse was last, in pixels of the display. None before it was anywhere.
    pub(crate) fn pointer(&self) -> Option<Point>
        ensures pointer { result ≡ (desktop_of self.now.desktop).pointer }
        ensures near { IfSome result IsNear }
    {
        self.desktop.pointer()
    }

    /// Clears the marks of the display.
    pub(crate) fn clear_marks(&mut self)
        ensures live { self.new.live.entries ≡ self.old.live.entries }
        ensures desktop { desktop_of self.new.desktop ≡ desktop_of self.old.desktop }
        ensures cleared { IsCleared (display_of self.old.desktop) (display_of self.new.desktop) }
    {
        self.desktop.clear_marks();
    }

    /// The display as an image(6) file, which the file `screen` outside of windows has, too.
    pub fn screen(&self) -> Result<Bytes, Memory>
        ensures file { IfOk result (λ file. file ≡ screen_file (desktop_of self.now.desktop).device) }
        ensures picture { picture_of (desktop_of self.now.desktop).device 0 ≡ screen_file (desktop_of self.now.desktop).device }
    {
        self.desktop.screen()
    }

    /// How many tiles keep hidden pixels: one for each pair of a window and a cell of it, of 32 by 32 points counted from the window's
    /// min, that has a hidden point. It takes no memory.
    pub fn tiles(&self) -> usize
        ensures { result ≡ cells (desktop_of self.now.desktop).device }
    {
        self.desktop.tiles()
    }
}
