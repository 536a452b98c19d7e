//! What the window manager tells of the session's window (rio(4)).

ghost use Rattle.std.specs.Prelude.{◌≡◌, false, option_map, IfOk, OnOk};
ghost use Rattle.std.specs.Option.{option_map_or};
ghost use Rattle.model_alone.specs.alone.Lone.{noted_alone, orders_of, window_noted};
ghost use Rattle.law_strangers.specs.near.Near.{IsNearNote};
ghost use Rattle.model_rio.specs.window.Heard.{Noted};
ghost use Rattle.model_rio.specs.window.Pane.{new_pane, pane_heard};
ghost use Rattle.r9_event.specs.declared.event.rio.Order.TheVariants as order;
ghost use Rattle.r9_isol.specs.isol.World.{desktop_of};

use crate::isol::desktop::{Desktop, Window};
use crate::isol::uncounted::obey;
use r9_event::event::{Note, Order, Orders};
use r9_files::pane::Pane;
use r9_geom::Rect;
use r9_memory::Memory;
use r9_text::Bytes;
use std::alloc::Global;
use std::marker::Brand;
use std::sync::ledger::Blank;

/// A new image for the window of a serial, under a name.
fn replacing(alloc: Global, window: u32, r: Rect, name: &Bytes, keep: bool) -> Result<Order, Memory>
    ensures { IfOk result (λ o. o ≡ order.Replace window 0 r name.now keep false) }
{
    Ok(Order::Replace {
        window,
        host: 0,
        r,
        name: name.try_clone(alloc)?,
        keep,
        hidden: false,
    })
}

/// The order to the draw device that a note stands for, where it stands for one; about the window of a serial where it is made already.
fn orders_of(alloc: Global, window: u32, note: &Note) -> Result<Orders, Memory>
    ensures { IfOk result (λ orders. orders ≡ orders_of window note.now) }
{
    let mut orders = Orders::new(alloc);
    match note {
        Note::Made {
            serial,
            name,
            r,
            depth,
            ..
        } => orders.push(Order::Make {
            window: *serial,
            host: 0,
            r: *r,
            name: name.try_clone(alloc)?,
            hide: false,
            depth: *depth,
        })?,
        Note::Moved { name, r } => orders.push(replacing(alloc, window, *r, name, true)?)?,
        Note::Resized { name, r } => orders.push(replacing(alloc, window, *r, name, false)?)?,
        Note::Deleted => orders.push(Order::Drop { window })?,
        Note::Current(_) | Note::Hidden(_) | Note::Mouse { .. } | Note::Key(_) => {}
    }
    Ok(orders)
}

/// The window that a first note tells of.
fn begun(alloc: Global, serial: u32, note: &Note) -> Result<Window, Memory>
    requires { IsNearNote note.now }
    ensures serial { IfOk result (λ w. w.serial ≡ serial) }
    ensures pane { IfOk result (λ w. w.pane ≡ pane_heard new_pane (Noted note.now)) }
{
    let mut pane = Pane::new(alloc)?;
    pane.note(note)?;
    Ok(Window { serial, pane })
}

/// What a note makes of the window.
fn noted(alloc: Global, window: Option<Window>, note: &Note) -> Result<Option<Window>, Memory>
    requires { IsNearNote note.now }
    ensures { IfOk result (λ w. option_map (λ w. (w.serial, w.pane)) w ≡ window_noted (option_map (λ w. (w.serial, w.pane)) window) note.now) }
{
    match note {
        Note::Made { serial, .. } => Ok(Some(begun(alloc, *serial, note)?)),
        Note::Deleted => Ok(None),
        _ => match window {
            Some(Window { serial, mut pane }) => {
                pane.note(note)?;
                Ok(Some(Window { serial, pane }))
            }
            None => Ok(None),
        },
    }
}

impl Desktop {
    // The serial of the window, 0 where there is none.
    fn serial(&self) -> u32
        ensures { result ≡ option_map_or (λ w. w.serial) self.now.window 0 }
    {
        match &self.window {
            Some(window) => window.serial,
            None => 0,
        }
    }

    /// The window manager tells something of the window. After Memory nothing is said of it all.
    #[tactic(auto, unfolding(crate::specs::isol::World::desktop_of))]
    pub fn note(&mut self, note: &Note) -> Result<(), Memory>
        requires { IsNearNote note.now }
        ensures { OnOk result (desktop_of self.new ≡ noted_alone (desktop_of self.old) note.now) }
    {
        let orders = orders_of(self.alloc, self.serial(), note)?;
        obey::<Brand>(&mut self.device, &orders, Blank::new(1))?;
        let window = std::mem::replace(&mut self.window, None);
        self.window = noted(self.alloc, window, note)?;
        Ok(())
    }
}
