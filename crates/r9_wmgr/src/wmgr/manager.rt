//! The table of windows and rios.

ghost use Rattle.std.specs.Prelude.{◌≡◌, ◌==◌, ◌≤◌, ◌^◌, ◌++◌, ◌∷◌, [], length, reverse, map, filter, not, IfOk, IfErr, OnOk, OnErr, Ok, Err, if◌then◌else◌};
ghost use Rattle.r9_geom.specs.Geometry.{IsRectNearBy};
ghost use Rattle.model_rio.specs.rio.Table as model;
ghost use Rattle.model_rio.specs.rio.Step.{changed, in_place, without, raised, lowered};
ghost use Rattle.model_rio.specs.rio.Rio.{windows_off};
ghost use Rattle.model_rio.specs.rio.Sound.{IsSound};
ghost use Rattle.r9_wmgr.specs.stacking.Changes.{by};

use crate::stacking::{
    Change, bottom_up, change_rios, changed, find_numbered, find_rio, find_topmost, find_window,
    lower, made_in, push_hosts, raise, replace, windows_off, without, without_rio,
};
use r9_event::window::{Hold, Rio, Window};
use r9_geom::{Point, Rect};
use r9_memory::Memory;
use std::alloc::Global;
use std::marker::Model;

/// The windows of the root rio and of the rios that run in windows.
#[derive(Drop)]
pub struct Manager {
    pub(crate) alloc: Global,
    // The rectangle of the root rio.
    r: Rect,
    // How many windows were made.
    pub(crate) serials: u32,
    root: Rio,
    // The rios in windows.
    rios: Vec<Rio>,
    // The windows of all rios, the topmost first.
    windows: Vec<Window>,
    // The memory of the windows before the last step, which the next draft takes.
    spare: Vec<Window>,
}

impl Model for Manager {
    ghost use Rattle.std.specs.Prelude.{◌^◌};
    ghost use Rattle.r9_geom.specs.Geometry.{IsRectNearBy};
    ghost use Rattle.model_rio.specs.rio.Table.{Table};

    ghost Value = { Table };

    ghost view = { λ m. record { r = m.r; serials = m.serials; root = m.root; rios = m.rios.items; windows = m.windows.items } };

    ghost invariant = { λ m. IsRectNearBy (2 ^ 33) m.r };
}

impl Manager {
    /// The manager of a display with this rectangle: the root rio, and no windows.
    #[tactic(auto, using(model_rio::proofs::rio::Soundness::opened_sound))]
    pub fn new(alloc: Global, r: Rect) -> Self
        requires { IsRectNearBy (2 ^ 33) r }
        ensures value { result ≡ model.opened r }
        ensures sound { IsSound result }
    {
        Manager {
            alloc,
            r,
            serials: 0,
            root: Rio {
                host: 0,
                next: 1,
                current: None,
                hold: Hold::Free,
            },
            rios: Vec::new(alloc),
            windows: Vec::new(alloc),
            spare: Vec::new(alloc),
        }
    }

    /// The same once more, in the memory that is kept for it.
    pub(crate) fn try_clone(&mut self) -> Result<Self, Memory>
        ensures same { IfOk result (λ m. m ≡ self.old) }
        ensures kept { self.new ≡ self.old }
    {
        let mut windows = std::mem::replace(&mut self.spare, Vec::new(self.alloc));
        windows.clear();
        windows.extend_from_slice(&self.windows)?;
        Ok(Manager {
            alloc: self.alloc,
            r: self.r,
            serials: self.serials,
            root: self.root,
            rios: Vec::from_slice(self.alloc, &self.rios)?,
            windows,
            spare: Vec::new(self.alloc),
        })
    }

    /// Becomes another, and keeps the memory of its windows.
    pub(crate) fn replace_by(&mut self, next: Manager)
        ensures { self.new ≡ next }
    {
        let Manager { windows, .. } = std::mem::replace(self, next);
        self.spare = windows;
    }

    pub(crate) fn rio_of(&self, host: u32) -> Option<Rio>
        ensures { result ≡ model.rio_of self.now host }
    {
        if self.root.host == host {
            Some(self.root)
        } else {
            find_rio(&self.rios, host)
        }
    }

    /// Whether a rio runs in a window; the root rio's host is 0.
    pub fn is_host(&self, serial: u32) -> bool
        ensures { result ≡ model.is_host self.now serial }
    {
        self.rio_of(serial).is_some()
    }

    /// The serials of the hosts of all rios, in the order in which the rios began; that of the root rio is 0.
    pub fn hosts(&self) -> Result<Vec<u32>, Memory>
        ensures { IfOk result (λ hosts. hosts.items ≡ map (λ rio. rio.host) (self.now.root ∷ self.now.rios)) }
    {
        let mut hosts = Vec::new(self.alloc);
        hosts.push(self.root.host)?;
        push_hosts(&self.rios, &mut hosts)?;
        Ok(hosts)
    }

    pub(crate) fn current_of(&self, host: u32) -> Option<u32>
        ensures { result ≡ model.current_of self.now host }
    {
        self.rio_of(host)?.current
    }

    pub(crate) fn hold_of(&self, host: u32) -> Hold
        ensures { result ≡ model.hold_of self.now host }
    {
        match self.rio_of(host) {
            Some(rio) => rio.hold,
            None => Hold::Free,
        }
    }

    /// The live window with a serial.
    pub fn window_of(&self, serial: u32) -> Option<Window>
        ensures { result ≡ model.window_of self.now serial }
    {
        find_window(&self.windows, serial)
    }

    pub(crate) fn rectangle_of(&self, host: u32) -> Rect
        ensures value { result ≡ model.rectangle_of self.now host }
        ensures near { IsRectNearBy (2 ^ 33) result }
    {
        match find_window(&self.windows, host) {
            Some(w) => w.r.rect(),
            None => self.r,
        }
    }

    pub(crate) fn topmost(&self, host: u32, p: Point) -> Option<Window>
        ensures { result ≡ model.topmost self.now host p }
    {
        find_topmost(&self.windows, host, p)
    }

    /// The rectangle of the root rio, which is the display's.
    pub fn rect(&self) -> Rect
        ensures value { result ≡ self.now.r }
        ensures near { IsRectNearBy (2 ^ 33) result }
    {
        self.r
    }

    /// The windows of the rio of a host, the lowest first.
    pub(crate) fn bottom_up(&self, host: u32) -> Result<Vec<Window>, Memory>
        ensures { IfOk result (λ ws. ws.items ≡ reverse (model.windows_in self.now host)) }
    {
        bottom_up(self.alloc, &self.windows, host)
    }

    /// The windows of the root rio whose rectangles have no point of this one, the lowest first.
    pub(crate) fn windows_off(&self, r: &Rect) -> Result<Vec<Window>, Memory>
        ensures { IfOk result (λ ws. ws.items ≡ windows_off r.now self.now) }
    {
        windows_off(self.alloc, &self.windows, r)
    }

    /// The windows of the rio of a host in ascending serial. 0 is the root rio.
    pub fn made_in(&self, host: u32) -> Result<Vec<Window>, Memory>
        ensures { IfOk result (λ ws. ws.items ≡ model.made_in self.now host) }
    {
        made_in(self.alloc, &self.windows, host)
    }

    /// The serial that was given last, 0 where there was no window yet.
    pub fn last_serial(&self) -> u32
        ensures { result ≡ self.now.serials }
    {
        self.serials
    }

    pub(crate) fn numbered(&self, host: u32, number: u32) -> Option<u32>
        ensures { result ≡ model.numbered self.now host number }
    {
        match find_numbered(&self.windows, host, number) {
            Some(w) => Some(w.serial),
            None => None,
        }
    }

    /// How many windows there are.
    pub(crate) fn count(&self) -> usize
        ensures { result ≡ length self.now.windows }
    {
        self.windows.len()
    }

    pub(crate) fn change(&mut self, host: u32, what: Change)
        ensures { self.new ≡ record self.old { root = changed host (by what) self.old.root; rios = map (changed host (by what)) self.old.rios } }
    {
        self.root = changed(self.root, host, what);
        change_rios(&mut self.rios, host, what);
    }

    /// The display has another rectangle.
    pub(crate) fn set_rect(&mut self, r: Rect)
        requires { IsRectNearBy (2 ^ 33) r }
        ensures { self.new ≡ record self.old { r = r } }
    {
        self.r = r;
    }

    pub(crate) fn replace(&mut self, w: Window)
        ensures { self.new ≡ record self.old { windows = in_place w self.old.windows } }
    {
        replace(&mut self.windows, &w);
    }

    pub(crate) fn raise(&mut self, w: Window) -> Result<(), Memory>
        ensures { OnOk result (self.new ≡ record self.old { windows = raised w self.old.windows }) }
    {
        raise(&mut self.windows, w)
    }

    pub(crate) fn lower(&mut self, w: Window) -> Result<(), Memory>
        ensures { OnOk result (self.new ≡ record self.old { windows = lowered w self.old.windows }) }
    {
        lower(&mut self.windows, w)
    }

    /// The window with the next serial comes to the top.
    pub(crate) fn enter(&mut self, w: Window) -> Result<(), Memory>
        ensures { OnOk result (self.new ≡ record self.old { serials = w.serial; windows = w ∷ self.old.windows }) }
    {
        self.serials = w.serial;
        self.windows.insert(0, w)?;
        Ok(())
    }

    /// A rio begins in a window.
    pub(crate) fn host(&mut self, serial: u32) -> Result<(), Memory>
        ensures { OnOk result (self.new ≡ record self.old { rios = self.old.rios ++ model.no_windows serial ∷ [] }) }
    {
        self.rios.push(Rio {
            host: serial,
            next: 1,
            current: None,
            hold: Hold::Free,
        })?;
        Ok(())
    }

    /// A window goes, and the rio in it.
    pub(crate) fn forget(&mut self, serial: u32)
        ensures { self.new ≡ record self.old { rios = filter (λ rio. not (rio.host == serial)) self.old.rios; windows = without serial self.old.windows } }
    {
        without_rio(&mut self.rios, serial);
        without(&mut self.windows, serial);
    }
}
