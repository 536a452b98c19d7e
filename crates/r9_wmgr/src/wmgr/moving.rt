//! Windows that move, get another size or go, and what becomes of the windows in them.

ghost use Rattle.std.specs.Prelude.{◌≡◌, not, Ok, Err, IfOk, IfErr, OnOk};
ghost use Rattle.r9_geom.specs.declared.Rect.{Rect as Bounded};
ghost use Rattle.r9_event.specs.declared.window.Window.{Window as OneWindow};
ghost use Rattle.r9_event.specs.window.Ways.{way};
ghost use Rattle.model_text.specs.text.Outcome.{Outcome};
ghost use Rattle.model_rio.specs.rio.Step.{Step};
ghost use Rattle.model_rio.specs.rio.Moving as model;
ghost use Rattle.r9_wmgr.specs.wmgr.Acts.{IfRefused};

use crate::wmgr::act::ActFault;
use crate::wmgr::draft::Draft;
use crate::wmgr::making::BAD_COMMAND;
use r9_event::event::{Note, Order};
use r9_event::window::{Bounds, Window};
use r9_memory::Memory;

// The window with a new rectangle and the next name.
pub(crate) fn renewed(w: &Window, r: Bounds) -> Window
    ensures { result ≡ model.renewed r w.now }
{
    Window {
        serial: w.serial,
        host: w.host,
        number: w.number,
        r,
        generation: w.generation.saturating_add(1),
        hidden: w.hidden,
    }
}

impl Draft {
    // The window gets a new image in place of the old one.
    #[tactic(auto, unfolding(model_rio::specs::rio::Moving::replaced))]
    fn renew(&mut self, keep: bool, w: &Window, r: Bounds) -> Result<(), Memory>
        ensures { OnOk result (self.new ≡ model.replaced keep w.now r self.old) }
    {
        let next = renewed(w, r);
        let name = self.table.name_of(w.host, w.number, next.generation)?;
        let told = name.try_clone(self.table.alloc)?;
        let r = r.rect();
        self.replace(next);
        self.order(Order::Replace {
            window: w.serial,
            host: w.host,
            r,
            name,
            keep,
            hidden: w.hidden,
        })?;
        if keep {
            self.note(w.serial, Note::Moved { name: told, r })
        } else {
            self.note(w.serial, Note::Resized { name: told, r })
        }
    }

    // The window gets a new image, and where it hosts a rio, so does that: what it gives are the windows that follow, the
    // lowest first.
    fn lead(&mut self, keep: bool, w: &Window, r: Bounds) -> Result<Vec<Window>, Memory>
        ensures { IfOk result (λ inner. (move : OneWindow → Bounded → Step → Outcome Step) → model.each (model.carried move (way w.now.r r)) inner.items self.new ≡ model.followed move w.now.serial (not keep) (way w.now.r r) (model.replaced keep w.now r self.old)) }
    {
        self.renew(keep, w, r)?;
        if !self.table.is_host(w.serial) {
            return Ok(Vec::new(self.table.alloc));
        }
        let inner = self.table.bottom_up(w.serial)?;
        self.order(Order::Host {
            window: w.serial,
            fill: !keep,
        })?;
        Ok(inner)
    }

    /// A window gets a rectangle and keeps its contents or not, and the windows of the rio in it follow.
    pub(crate) fn give_rectangle(
        &mut self,
        levels: u32,
        keep: bool,
        w: &Window,
        r: Bounds,
    ) -> Result<(), ActFault>
        ensures done { OnOk result (model.moved levels keep w.now r self.old ≡ Ok self.new) }
        ensures refused { IfErr result (λ f. IfRefused f (λ n. model.moved levels keep w.now r self.old ≡ Err n)) }
    {
        if levels == 0 {
            return Ok(());
        }
        let inner = self.lead(keep, w, r)?;
        let by = w.r.way_to(&r);
        for v in &inner {
            let Some(to) = v.r.moved(by) else {
                return Err(ActFault::Refused(BAD_COMMAND));
            };
            self.give_rectangle(levels - 1, true, v, to)?;
        }
        Ok(())
    }

    // A window is gone, when those in it have gone.
    #[tactic(auto, unfolding(model_rio::specs::rio::Moving::dropped))]
    fn let_go(&mut self, w: &Window) -> Result<(), Memory>
        ensures { OnOk result (self.new ≡ model.dropped w.now self.old) }
    {
        self.retire(w.host, w.serial)?;
        self.table.forget(w.serial);
        self.order(Order::Drop { window: w.serial })?;
        self.note(w.serial, Note::Deleted)
    }

    /// A window is deleted, after the windows of the rio in it.
    pub(crate) fn delete(&mut self, levels: u32, w: &Window) -> Result<(), Memory>
        ensures { OnOk result (self.new ≡ model.deleted levels w.now self.old) }
    {
        if levels == 0 {
            return Ok(());
        }
        let inner = self.table.made_in(w.serial)?;
        for v in &inner {
            self.delete(levels - 1, v)?;
        }
        self.let_go(w)
    }
}
