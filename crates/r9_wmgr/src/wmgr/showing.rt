//! Hiding and showing windows.

ghost use Rattle.std.specs.Prelude.{◌≡◌, OnOk};
ghost use Rattle.model_rio.specs.rio.Rio as model;

use crate::wmgr::draft::Draft;
use r9_event::event::{Note, Order};
use r9_event::window::Window;
use r9_geom::Point;
use r9_memory::Memory;

/// Far outside of every display.
const OUTSIDE: i64 = 1_048_576;

fn with_hidden(w: &Window, hidden: bool) -> Window
    ensures { result ≡ record w.now { hidden = hidden } }
{
    let mut next = *w;
    next.hidden = hidden;
    next
}

impl Draft {
    /// The window goes outside of the display, and is not current any more.
    #[tactic(auto, unfolding(model_rio::specs::rio::Rio::hidden))]
    pub(crate) fn hide(&mut self, w: &Window) -> Result<(), Memory>
        ensures { OnOk result (self.new ≡ model.hidden w.now self.old) }
    {
        if w.hidden {
            return Ok(());
        }
        self.replace(with_hidden(w, true));
        let at = Point {
            x: OUTSIDE,
            y: OUTSIDE,
        };
        self.order(Order::Place {
            window: w.serial,
            at,
        })?;
        self.note(w.serial, Note::Hidden(true))?;
        self.retire(w.host, w.serial)
    }

    /// A hidden window comes back, to the top, and becomes current.
    #[tactic(auto, unfolding(model_rio::specs::rio::Rio::shown))]
    pub(crate) fn show(&mut self, w: &Window) -> Result<(), Memory>
        ensures { OnOk result (self.new ≡ model.shown w.now self.old) }
    {
        if !w.hidden {
            return Ok(());
        }
        let at = w.r.rect().min;
        self.order(Order::Place {
            window: w.serial,
            at,
        })?;
        self.note(w.serial, Note::Hidden(false))?;
        self.raise(with_hidden(w, false))?;
        self.set_current(w.host, Some(w.serial))
    }

    /// The window becomes current, and is shown where it is hidden.
    pub(crate) fn make_current(&mut self, w: &Window) -> Result<(), Memory>
        ensures { OnOk result (self.new ≡ model.made_current w.now self.old) }
    {
        if w.hidden {
            self.show(w)
        } else {
            self.set_current(w.host, Some(w.serial))
        }
    }
}
