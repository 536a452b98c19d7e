//! New windows and new rios.

ghost use Rattle.std.specs.Prelude.{◌≡◌, ◌<◌, ◌^◌, ◌-◌, ◌/◌, ◌+ℤ◌, ◌≤ℤ◌, neg_ℤ, pos, Ok, Err, Some, None, IfOk, IfErr, OnOk};
ghost use Rattle.r9_geom.specs.Geometry.{distance, width, height, IsNear, IsNearBy, IsRectNear, IsRectNearBy};
ghost use Rattle.model_files.specs.wctl.Rectangle.{applied};
ghost use Rattle.model_rio.specs.rio.Rio as model;
ghost use Rattle.r9_wmgr.specs.wmgr.Acts.{IfRefused};

use crate::stacking::Change;
use crate::wmgr::act::ActFault;
use crate::wmgr::draft::Draft;
use crate::wmgr::manager::Manager;
use crate::wmgr::naming::DEEPEST;
use r9_event::event::{Note, Order};
use r9_event::window::{Bounds, Window};
use r9_geom::{Point, Rect};
use r9_memory::Memory;
use r9_wctl::wctl::{Options, apply};

/// How many windows there are at most.
const MOST_WINDOWS: usize = 64;

/// How deep rios are nested at most, counted from 0 for the root.
const MOST_NESTING: u32 = 8;

/// The refusals of a rectangle or a host, of one window more, and of a rio nested too deep.
pub(crate) const BAD_COMMAND: u8 = 47;

const TOO_MANY: u8 = 49;

const TOO_DEEP: u8 = 50;

/// The refusal of an act on a window that is gone.
pub(crate) const GONE: u8 = 42;

fn half(low: i64, high: i64) -> i64
    requires low { neg_ℤ (pos (2 ^ 33)) ≤ℤ low }
    requires high { high ≤ℤ pos (2 ^ 33) }
    ensures value { result ≡ pos (distance low high / 2) }
    ensures least { pos 0 ≤ℤ result }
    ensures most { result ≤ℤ pos (2 ^ 33) }
{
    if high <= low {
        return 0;
    }
    (high.abs_diff(low) / 2) as i64
}

// One coordinate of the first rectangle: so far past the one that is ten points in.
fn inward(low: i64, size: i64) -> i64
    requires least { neg_ℤ (pos (2 ^ 33)) ≤ℤ low }
    requires most { low ≤ℤ pos (2 ^ 33) }
    requires size_least { pos 0 ≤ℤ size }
    requires size_most { size ≤ℤ pos (2 ^ 33) }
    ensures value { result ≡ low +ℤ pos 10 +ℤ size }
    ensures least { neg_ℤ (pos (2 ^ 40)) ≤ℤ result }
    ensures most { result ≤ℤ pos (2 ^ 40) }
{
    low + 10 + size
}

fn first_corner(p: Point) -> Point
    requires { IsNearBy (2 ^ 33) p }
    ensures value { result ≡ record { x = p.x +ℤ pos 10; y = p.y +ℤ pos 10 } }
    ensures near { IsNear result }
{
    Point {
        x: inward(p.x, 0),
        y: inward(p.y, 0),
    }
}

fn last_corner(r: Rect) -> Point
    requires { IsRectNearBy (2 ^ 33) r }
    ensures value { result ≡ record { x = r.min.x +ℤ pos 10 +ℤ pos (width r / 2); y = r.min.y +ℤ pos 10 +ℤ pos (height r / 2) } }
    ensures near { IsNear result }
{
    let across = half(r.min.x, r.max.x);
    let down = half(r.min.y, r.max.y);
    Point {
        x: inward(r.min.x, across),
        y: inward(r.min.y, down),
    }
}

// The rectangle of a new window that has no options.
fn first_rectangle(r: Rect) -> Rect
    requires { IsRectNearBy (2 ^ 33) r }
    ensures value { result ≡ model.first_rectangle r }
    ensures near { IsRectNear result }
{
    Rect {
        min: first_corner(r.min),
        max: last_corner(r),
    }
}

// The rectangle that options make of a first one.
pub(crate) fn rectangle_by(options: &Options, start: Rect, moves: bool) -> Result<Bounds, ActFault>
    requires near { IsRectNear start }
    ensures rectangle { IfOk result (λ r. applied moves options.now start ≡ Some r) }
    ensures refused { IfErr result (λ f. IfRefused f (λ n. (n ≡ 47) × (applied moves options.now start ≡ None))) }
{
    let Ok(r) = apply(options, start, moves) else {
        return Err(ActFault::Refused(BAD_COMMAND));
    };
    match Bounds::new(r) {
        Some(r) => Ok(r),
        None => Err(ActFault::Refused(BAD_COMMAND)),
    }
}

impl Manager {
    fn is_full(&self) -> bool
        ensures { result ≡ model.is_full self.now }
    {
        self.count() >= MOST_WINDOWS || self.serials == u32::MAX
    }

    // The next window in the rio of a host.
    fn new_window(&self, host: u32, number: u32, hide: bool, r: Bounds) -> Window
        requires { self.now.serials < 2 ^ 32 - 1 }
        ensures { result ≡ model.new_window self.now host number hide r }
    {
        Window {
            serial: self.serials + 1,
            host,
            number,
            r,
            generation: 1,
            hidden: hide,
        }
    }
}

impl Draft {
    fn enter(&mut self, w: &Window) -> Result<(), Memory>
        ensures { OnOk result (self.new ≡ model.entered w.now self.old) }
    {
        self.table.enter(*w)?;
        self.table.change(w.host, Change::Next);
        Ok(())
    }

    // The window is made topmost and current, or hidden.
    #[tactic(auto, unfolding(model_rio::specs::rio::Rio::made))]
    fn make(&mut self, w: &Window) -> Result<(), Memory>
        ensures { OnOk result (self.new ≡ model.made w.now self.old) }
    {
        let depth = self.table.depth_in(w.host);
        let name = self.table.name_of(w.host, w.number, w.generation)?;
        let told = name.try_clone(self.table.alloc)?;
        let r = w.r.rect();
        self.enter(w)?;
        self.order(Order::Make {
            window: w.serial,
            host: w.host,
            r,
            name,
            hide: w.hidden,
            depth,
        })?;
        self.note(
            w.serial,
            Note::Made {
                number: w.number,
                serial: w.serial,
                name: told,
                r,
                depth,
            },
        )?;
        if w.hidden {
            self.note(w.serial, Note::Hidden(true))
        } else {
            self.set_current(w.host, Some(w.serial))
        }
    }

    /// A new window in the rio of a host.
    #[tactic(auto, unfolding(model_rio::specs::rio::Rio::new_in))]
    pub(crate) fn new_in(
        &mut self,
        host: u32,
        options: &Options,
        hide: bool,
    ) -> Result<(), ActFault>
        ensures done { OnOk result (model.new_in host options.now hide self.old ≡ Ok self.new) }
        ensures refused { IfErr result (λ f. IfRefused f (λ n. model.new_in host options.now hide self.old ≡ Err n)) }
    {
        let Some(rio) = self.table.rio_of(host) else {
            return Err(ActFault::Refused(GONE));
        };
        let start = first_rectangle(self.table.rectangle_of(host));
        let r = rectangle_by(options, start, false)?;
        if self.table.is_full() {
            return Err(ActFault::Refused(TOO_MANY));
        }
        let w = self.table.new_window(host, rio.next, hide, r);
        self.make(&w)?;
        Ok(())
    }

    /// A rio starts in a window.
    #[tactic(auto, unfolding(model_rio::specs::rio::Rio::hosted))]
    pub(crate) fn host(&mut self, w: &Window) -> Result<(), ActFault>
        ensures done { OnOk result (model.hosted w.now self.old ≡ Ok self.new) }
        ensures refused { IfErr result (λ f. IfRefused f (λ n. model.hosted w.now self.old ≡ Err n)) }
    {
        if self.table.is_host(w.serial) {
            return Err(ActFault::Refused(BAD_COMMAND));
        }
        if self.table.nesting(w.host) >= MOST_NESTING {
            return Err(ActFault::Refused(TOO_DEEP));
        }
        self.table.host(w.serial)?;
        self.order(Order::Host {
            window: w.serial,
            fill: true,
        })?;
        Ok(())
    }

    /// A window gets the rectangle that options make of its own.
    #[tactic(auto, unfolding(model_rio::specs::rio::Rio::moved_by))]
    pub(crate) fn move_by(
        &mut self,
        keep: bool,
        options: &Options,
        w: &Window,
    ) -> Result<(), ActFault>
        ensures done { OnOk result (model.moved_by keep options.now w.now self.old ≡ Ok self.new) }
        ensures refused { IfErr result (λ f. IfRefused f (λ n. model.moved_by keep options.now w.now self.old ≡ Err n)) }
    {
        let start = w.r.rect();
        let r = rectangle_by(options, start, keep)?;
        self.give_rectangle(DEEPEST, keep, w, r)
    }
}
