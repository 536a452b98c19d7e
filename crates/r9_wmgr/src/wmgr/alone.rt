//! Windows in which no rio runs and that move or get another size: the table changes in place, after all that takes
//! memory, so that no copy of it is made.

ghost use Rattle.std.specs.Prelude.{◌≡◌, ◌++◌, ◌∷◌, [], false, if◌then◌else◌, Ok, Err, IfOk, IfErr, IfSome, IfNone, OnErr};
ghost use Rattle.r9_event.specs.declared.event.rio.Note.TheVariants as note;
ghost use Rattle.r9_event.specs.declared.event.rio.Order.TheVariants as order;
ghost use Rattle.model_rio.specs.rio.Table.{is_host, path_of, name_by};
ghost use Rattle.model_rio.specs.rio.Step.{begun};
ghost use Rattle.model_rio.specs.rio.Moving.{moved};
ghost use Rattle.model_rio.specs.rio.Rio as model;
ghost use Rattle.r9_wmgr.specs.wmgr.Acts.{act_of, IfRefused};

use crate::wmgr::act::{Act, ActFault, Step};
use crate::wmgr::making::rectangle_by;
use crate::wmgr::manager::Manager;
use crate::wmgr::moving::renewed;
use r9_event::event::{Note, Notes, Order, Orders};
use r9_event::window::{Bounds, Window};
use r9_geom::Rect;
use r9_memory::Memory;
use r9_text::Bytes;
use r9_wctl::wctl::{Options, Wctl};

fn told(keep: bool, name: Bytes, r: Rect) -> Note
    ensures { result ≡ (if keep then note.Moved name r else note.Resized name r) }
{
    if keep {
        Note::Moved { name, r }
    } else {
        Note::Resized { name, r }
    }
}

impl Manager {
    // What is ordered and told where a window becomes the next one, which has another image.
    fn renewal(&self, keep: bool, w: &Window, next: &Window) -> Result<Step, Memory>
        ensures orders { IfOk result (λ s. s.orders ≡ order.Replace w.now.serial w.now.host next.now.r (name_by (path_of self.now w.now.host ++ w.now.number ∷ []) next.now.generation) keep w.now.hidden ∷ []) }
        ensures notes { IfOk result (λ s. s.notes ≡ (w.now.serial, (if keep then note.Moved (name_by (path_of self.now w.now.host ++ w.now.number ∷ []) next.now.generation) next.now.r else note.Resized (name_by (path_of self.now w.now.host ++ w.now.number ∷ []) next.now.generation) next.now.r)) ∷ []) }
    {
        let name = self.name_of(w.host, w.number, next.generation)?;
        let r = next.r.rect();
        let mut notes = Notes::new(self.alloc);
        notes.push(w.serial, told(keep, name.try_clone(self.alloc)?, r))?;
        let mut orders = Orders::new(self.alloc);
        orders.push(Order::Replace {
            window: w.serial,
            host: w.host,
            r,
            name,
            keep,
            hidden: w.hidden,
        })?;
        Ok(Step { orders, notes })
    }

    // A window in which no rio runs gets a rectangle.
    fn renew_alone(&mut self, keep: bool, w: &Window, r: Bounds) -> Result<Step, Memory>
        requires { is_host self.old w.now.serial ≡ false }
        ensures done { IfOk result (λ s. moved 9 keep w.now r (begun self.old) ≡ Ok (record { table = self.new; orders = s.orders; notes = s.notes })) }
        ensures kept { OnErr result (self.new ≡ self.old) }
    {
        let next = renewed(w, r);
        let step = self.renewal(keep, w, &next)?;
        self.replace(next);
        Ok(step)
    }

    // The same with the rectangle that options make of its own.
    #[tactic(auto, unfolding(model_rio::specs::rio::Rio::moved_by))]
    fn move_one(&mut self, keep: bool, options: &Options, w: &Window) -> Result<Step, ActFault>
        requires { is_host self.old w.now.serial ≡ false }
        ensures done { IfOk result (λ s. model.moved_by keep options.now w.now (begun self.old) ≡ Ok (record { table = self.new; orders = s.orders; notes = s.notes })) }
        ensures refused { IfErr result (λ f. IfRefused f (λ n. model.moved_by keep options.now w.now (begun self.old) ≡ Err n)) }
        ensures kept { OnErr result (self.new ≡ self.old) }
    {
        let start = w.r.rect();
        let r = rectangle_by(options, start, keep)?;
        Ok(self.renew_alone(keep, w, r)?)
    }

    /// An act that moves a window in which no rio runs, or gives it another size. None for all others.
    #[tactic(auto, unfolding(model_rio::specs::rio::Rio::command_to))]
    pub(crate) fn move_alone(&mut self, act: &Act) -> Result<Option<Step>, ActFault>
        ensures done { IfOk result (λ o. IfSome o (λ s. model.rio self.old (act_of act.now) ≡ Ok (record { table = self.new; orders = s.orders; notes = s.notes }))) }
        ensures none { IfOk result (λ o. IfNone o (self.new ≡ self.old)) }
        ensures refused { IfErr result (λ f. IfRefused f (λ n. model.rio self.old (act_of act.now) ≡ Err n)) }
        ensures kept { OnErr result (self.new ≡ self.old) }
    {
        let Act::Command { window, what } = act else {
            return Ok(None);
        };
        let Some(w) = self.window_of(*window) else {
            return Ok(None);
        };
        if self.is_host(w.serial) {
            return Ok(None);
        }
        match what {
            Wctl::Move(options) => Ok(Some(self.move_one(true, options, &w)?)),
            Wctl::Resize(options) => Ok(Some(self.move_one(false, options, &w)?)),
            _ => Ok(None),
        }
    }
}
