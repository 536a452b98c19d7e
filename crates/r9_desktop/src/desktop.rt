//! The desktop as one value.

ghost use Rattle.std.specs.Prelude.{◌≡◌, ◌≤◌, ◌<◌, ◌^◌, ◌++◌, ◌∷◌, ◌<ℤ◌, pos, true, [], map, IfOk, IfSome, IsTrue};
ghost use Rattle.r9_geom.specs.declared.Point.{Point as Spot};
ghost use Rattle.r9_geom.specs.Geometry.{height, holds, width, HasPoints, IsNear, IsOrdered, IsRectNearBy};
ghost use Rattle.r9_marks.specs.marks.Cells.{cells_over};
ghost use Rattle.model_draw.specs.cost.Cells.{cells};
ghost use Rattle.model_pixel.specs.Channels.{depth};
ghost use Rattle.model_pixel.specs.Rows.{rows_of};
ghost use Rattle.model_forest.specs.Paint.{paint};
ghost use Rattle.model_forest.specs.World.{IsForest};
ghost use Rattle.model_draw.specs.draw.Files.{screen_file};
ghost use Rattle.model_draw.specs.draw.Orders.{picture_of};
ghost use Rattle.model_draw.specs.draw.World.{at_number};
ghost use Rattle.model_rio.specs.rio.Table.{window_of};
ghost use Rattle.model_world.specs.Desktop.{first_desktop};
ghost use Rattle.r9_desktop.specs.Marks.{AreCounted, IsBegun, IsCleared, IsMarked, IsOf, IsSound};

use crate::spending::Spending;
use crate::telling::{Panes, Snarfs, Users};
use r9_chan::Chan;
use r9_draw::draw::{Draw, Shown};
use r9_event::event::{Note, Notes};
use r9_event::window::Window;
use r9_files::pane::Pane;
use r9_geom::{Point, Rect};
use r9_memory::Memory;
use r9_mouse::Mouse;
use r9_text::Bytes;
use r9_wmgr::wmgr::Manager;
use std::alloc::Global;
use std::collections::BTreeMap;
use std::snapshot::Snapshot;

/// What all sessions share: the draw device; the windows of all rios; whether the display has changed its size; by a window's
/// serial what its files have, and which sessions have a fid whose attach named it, in ascending order; by the serial of its host
/// the snarf of each rio; where the mouse was last; and of this turn what windows were told, and what was asked of the draw device.
#[derive(Drop)]
pub struct Desktop {
    pub(crate) alloc: Global,
    pub(crate) device: Draw,
    pub(crate) manager: Manager,
    pub(crate) sized: bool,
    pub(crate) panes: Panes,
    pub(crate) users: Users,
    pub(crate) snarfs: Snarfs,
    pub(crate) pointed: Option<Mouse>,
    pub(crate) notes: Notes,
    pub(crate) spending: Spending,
    // The moment of the display is the beginning of the turn, and what was written since then is counted.
    ghost begun: { IsBegun spending.began.value device },
    ghost counted: { AreCounted spending.began.value device spending.pixels },
}

/// What windows were told in a turn, each with the serial of its window, and how many pixels the turn wrote, or 2^64 - 1 where
/// they were more.
#[derive(Drop)]
pub struct Turn {
    pub notes: Notes,
    pub pixels: u64,
}

impl Desktop {
    ghost use Rattle.r9_desktop.specs.World.{began_of, desktop_of, display_of};

    /// The desktop with which a server starts: a display with these channels, and no windows.
    #[tactic(auto, unfolding(crate::specs::World::desktop_of))]
    pub fn start(alloc: Global, r: Rect, chan: Chan) -> Result<Self, Memory>
        requires left { r.min.x ≡ pos 0 }
        requires top { r.min.y ≡ pos 0 }
        requires ordered { IsOrdered r }
        requires width { r.max.x <ℤ pos (2 ^ 32) }
        requires height { r.max.y <ℤ pos (2 ^ 32) }
        ensures { IfOk result (λ desktop. desktop_of desktop ≡ first_desktop (record { r = r; chan = chan })) }
    {
        let mut device = Draw::start(alloc, r, chan)?;
        device.look();
        let spending = Spending::begun(&device);
        let mut snarfs = BTreeMap::new(alloc);
        snarfs.insert(0, Bytes::new(alloc))?;
        Ok(Desktop {
            alloc,
            device,
            manager: Manager::new(alloc, r),
            sized: false,
            panes: BTreeMap::new(alloc),
            users: BTreeMap::new(alloc),
            snarfs,
            pointed: None,
            notes: Notes::new(alloc),
            spending,
        })
    }

    /// What windows were told in this turn, each with the serial of its window.
    #[tactic(auto, unfolding(crate::specs::World::desktop_of))]
    pub fn notes(&self) -> &[(u32, Note)]
        ensures { result.now ≡ (desktop_of self.now).notes }
    {
        self.notes.as_slice()
    }

    /// The turn ends, and another begins: what windows were told in it, and how many pixels it wrote, which is at most what all that
    /// it asked of the draw device costs.
    #[tactic(auto, unfolding(crate::specs::World::desktop_of, crate::specs::World::display_of, crate::specs::World::began_of))]
    pub fn take_turn(&mut self) -> Turn
        ensures taken { result.notes ≡ (desktop_of self.old).notes }
        ensures pixels { result.pixels ≤ (desktop_of self.old).cost }
        ensures left { desktop_of self.new ≡ record (desktop_of self.old) { notes = []; cost = 0 } }
        ensures display { display_of self.new ≡ display_of self.old }
        // In the turn each cell of the display in which a pixel has changed was marked, none has lost its mark, and no more were marked
        // than pixels were written.
        ensures marks { (began_of self.old).nowhere ≡ true → IsMarked (began_of self.old) (display_of self.old) result.pixels }
    {
        self.device.since();
        self.device.look();
        let notes = std::mem::replace(&mut self.notes, Notes::new(self.alloc));
        let spending = std::mem::replace(&mut self.spending, Spending::begun(&self.device));
        Turn {
            notes,
            pixels: spending.pixels(),
        }
    }

    /// A turn begins. Nothing is done.
    #[tactic(auto, unfolding(crate::specs::World::desktop_of, crate::specs::World::display_of, crate::specs::World::began_of))]
    pub fn begin_turn(&mut self)
        ensures same { desktop_of self.new ≡ desktop_of self.old }
        ensures display { display_of self.new ≡ display_of self.old }
        ensures began { began_of self.new ≡ display_of self.old }
    {
        self.device.look();
        self.spending.began = Snapshot::of(&self.device);
    }

    /// Whether a cell of the display, of 32 by 32 pixels, is marked: whether a pixel of it was written since its marks were cleared.
    #[tactic(auto, unfolding(crate::specs::World::display_of))]
    pub fn marked(&self, column: u32, row: u32) -> bool
        requires column { column < cells_over (width (display_of self.now).r) }
        requires row { row < cells_over (height (display_of self.now).r) }
        ensures { result ≡ (display_of self.now).marked column row }
    {
        self.device.marked(column, row)
    }

    /// Clears the marks of the display. A turn begins.
    #[tactic(auto, unfolding(crate::specs::World::desktop_of, crate::specs::World::display_of, crate::specs::World::began_of))]
    pub fn clear_marks(&mut self)
        ensures same { desktop_of self.new ≡ desktop_of self.old }
        ensures cleared { IsCleared (display_of self.old) (display_of self.new) }
    {
        self.device.clear_marks();
        self.spending.began = Snapshot::of(&self.device);
    }

    /// What is known of the display and its marks. Nothing is done.
    #[tactic(auto, unfolding(crate::specs::World::desktop_of, crate::specs::World::display_of))]
    pub fn sound(&self)
        ensures shows { IsOf (desktop_of self.now).device (display_of self.now) }
        ensures forest { IsForest (desktop_of self.now).device.images }
        ensures sound { (display_of self.now).nowhere ≡ true → IsSound (display_of self.now) }
    {
        self.device.since();
    }

    /// The rectangle of the display, in pixels.
    #[tactic(auto, unfolding(crate::specs::World::display_of))]
    pub fn display(&self) -> Rect
        ensures r { result ≡ (display_of self.now).r }
        ensures near { IsRectNearBy (2 ^ 33) result }
        ensures ordered { IsOrdered result }
    {
        self.device.info(Shown::Display).r
    }

    /// Bytes with the rows of a part of the display behind them (image(6)): of what is painted from back to front, on it and on all that
    /// stands on it. For want of memory there are none.
    #[tactic(auto, unfolding(crate::specs::World::desktop_of, crate::specs::World::display_of))]
    pub fn with_rows(&self, r: Rect, front: Vec<u8>) -> Result<Vec<u8>, Memory>
        requires points { HasPoints r }
        requires inside { (p : Spot) → IsTrue (holds r p) → IsTrue (holds (display_of self.now).r p) }
        ensures { IfOk result (λ all. all.items ≡ front.items ++ rows_of r (depth (at_number (desktop_of self.now).device 0).chan) (paint (desktop_of self.now).device.images 0)) }
    {
        // A part of the display is as near as that.
        self.display();
        self.device.with_rows(Shown::Display, r, front)
    }

    /// Where the mouse was last, in pixels of the display: the point of the last event that was written to `mousein`. None before any.
    #[tactic(auto, unfolding(crate::specs::World::desktop_of))]
    pub fn pointer(&self) -> Option<Point>
        ensures pointer { result ≡ (desktop_of self.now).pointer }
        ensures near { IfSome result IsNear }
    {
        let e = self.pointed?;
        Some(Point {
            x: i64::from(e.x),
            y: i64::from(e.y),
        })
    }

    /// What the files of windows have, by the windows' serials.
    #[tactic(auto, unfolding(crate::specs::World::desktop_of))]
    pub fn panes(&self) -> &BTreeMap<u32, Pane>
        ensures { result.now.entries ≡ (desktop_of self.now).panes }
    {
        &self.panes
    }

    /// The live window with a serial.
    #[tactic(auto, unfolding(crate::specs::World::desktop_of))]
    pub fn window(&self, serial: u32) -> Option<Window>
        ensures { result ≡ window_of (desktop_of self.now).table serial }
    {
        self.manager.window_of(serial)
    }

    /// The serials of the hosts of all rios, in the order in which the rios began; that of the root rio is 0.
    #[tactic(auto, unfolding(crate::specs::World::desktop_of))]
    pub fn hosts(&self) -> Result<Vec<u32>, Memory>
        ensures { IfOk result (λ hosts. hosts.items ≡ map (λ rio. rio.host) ((desktop_of self.now).table.root ∷ (desktop_of self.now).table.rios)) }
    {
        self.manager.hosts()
    }

    /// The display as an image(6) file, which the file `screen` outside of windows has, too.
    #[tactic(auto, unfolding(crate::specs::World::desktop_of))]
    pub fn screen(&self) -> Result<Bytes, Memory>
        ensures file { IfOk result (λ file. file ≡ screen_file (desktop_of self.now).device) }
        ensures picture { picture_of (desktop_of self.now).device 0 ≡ screen_file (desktop_of self.now).device }
    {
        self.device.screen()
    }

    /// How many tiles keep hidden pixels: one for each pair of a window and a cell of it, of 32 by 32 points counted from the window's
    /// min, that has a hidden point. It takes no memory.
    #[tactic(auto, unfolding(crate::specs::World::desktop_of))]
    pub fn tiles(&self) -> usize
        ensures { result ≡ cells (desktop_of self.now).device }
    {
        self.device.tiles()
    }
}
