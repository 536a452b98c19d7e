//! The windows while an act goes on, and what has been ordered and told so far.

ghost use Rattle.std.specs.Prelude.{◌≡◌, ◌∷◌, OnOk, Some, true, false, if◌then◌else◌};
ghost use Rattle.model_rio.specs.rio.Table as model;
ghost use Rattle.model_rio.specs.rio.Step.{ordered, noted, with_hold, with_windows, in_place, is_same, told_current, with_current, is_held, not_current, retired};
ghost use Rattle.model_rio.specs.rio.Rio.{to_top, to_bottom};

use crate::stacking::{Change, is_same};
use crate::wmgr::manager::Manager;
use r9_event::event::{Note, Notes, Order, Orders};
use r9_event::window::{Hold, Window};
use r9_memory::Memory;
use std::marker::Model;

/// The windows while an act goes on, and what has been ordered and told so far.
#[derive(Drop)]
pub(crate) struct Draft {
    pub(crate) table: Manager,
    pub(crate) orders: Orders,
    pub(crate) notes: Notes,
}

impl Model for Draft {
    ghost use Rattle.model_rio.specs.rio.Step.{Step};

    ghost Value = { Step };

    ghost view = { λ d. record { table = d.table; orders = d.orders; notes = d.notes } };
}

fn is_held(serial: u32, hold: Hold) -> bool
    ensures { result ≡ is_held serial hold }
{
    match hold {
        Hold::Held(holder) => holder == serial,
        Hold::Free | Hold::Nobody => false,
    }
}

impl Draft {
    pub(crate) fn order(&mut self, order: Order) -> Result<(), Memory>
        ensures { OnOk result (self.new ≡ ordered order self.old) }
    {
        self.orders.push(order)
    }

    pub(crate) fn note(&mut self, window: u32, note: Note) -> Result<(), Memory>
        ensures { OnOk result (self.new ≡ noted window note self.old) }
    {
        self.notes.push(window, note)
    }

    pub(crate) fn set_hold(&mut self, host: u32, hold: Hold)
        ensures { self.new ≡ with_hold host hold self.old }
    {
        self.table.change(host, Change::Hold(hold));
    }

    pub(crate) fn replace(&mut self, w: Window)
        ensures { self.new ≡ with_windows (in_place w) self.old }
    {
        self.table.replace(w);
    }

    /// The window comes to the top.
    pub(crate) fn raise(&mut self, w: Window) -> Result<(), Memory>
        ensures { OnOk result (self.new ≡ to_top w self.old) }
    {
        let window = w.serial;
        self.table.raise(w)?;
        self.order(Order::Raise { window })
    }

    /// The window goes to the bottom.
    pub(crate) fn lower(&mut self, w: Window) -> Result<(), Memory>
        ensures { OnOk result (self.new ≡ to_bottom w self.old) }
    {
        let window = w.serial;
        self.table.lower(w)?;
        self.order(Order::Lower { window })
    }

    fn tell_current(&mut self, window: Option<u32>, is: bool) -> Result<(), Memory>
        ensures { OnOk result (self.new ≡ told_current window is self.old) }
    {
        match window {
            Some(serial) => self.note(serial, Note::Current(is)),
            None => Ok(()),
        }
    }

    /// A rio's current window becomes another, or none.
    #[tactic(auto, unfolding(model_rio::specs::rio::Step::with_current))]
    pub(crate) fn set_current(&mut self, host: u32, new: Option<u32>) -> Result<(), Memory>
        ensures { OnOk result (self.new ≡ with_current host new self.old) }
    {
        let old = self.table.current_of(host);
        if is_same(old, new) {
            return Ok(());
        }
        self.table.change(host, Change::Current(new));
        self.tell_current(old, false)?;
        self.tell_current(new, true)
    }

    fn not_current(&mut self, host: u32, serial: u32) -> Result<(), Memory>
        ensures { OnOk result (self.new ≡ not_current host serial self.old) }
    {
        if is_same(self.table.current_of(host), Some(serial)) {
            self.set_current(host, None)
        } else {
            Ok(())
        }
    }

    /// A window is hidden or deleted: it is not current any more, and where it held the mouse nobody does.
    #[tactic(auto, unfolding(model_rio::specs::rio::Step::retired))]
    pub(crate) fn retire(&mut self, host: u32, serial: u32) -> Result<(), Memory>
        ensures { OnOk result (self.new ≡ retired host serial self.old) }
    {
        self.not_current(host, serial)?;
        if is_held(serial, self.table.hold_of(host)) {
            self.set_hold(host, Hold::Nobody);
        }
        Ok(())
    }
}
