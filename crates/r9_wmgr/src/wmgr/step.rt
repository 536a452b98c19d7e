//! Acts, one after the other.

ghost use Rattle.std.specs.Prelude.{◌≡◌, ◌≢◌, ◌<◌, ℕ, AllPairs, Ok, Err, IfOk, IfErr, IfSome, IfNone, IsSome, OnOk, OnErr};
ghost use Rattle.model_rio.specs.rio.Table.{found, serials_of, below, path_of, window_of};
ghost use Rattle.model_rio.specs.rio.Rio as model;
ghost use Rattle.model_rio.specs.rio.Step.{begun};
ghost use Rattle.model_rio.specs.rio.Sound.{IsSound};
ghost use Rattle.model_rio.specs.rio.Notes.{AreInTurn};
ghost use Rattle.r9_wctl.specs.wctl.Values.{wctl_of};
ghost use Rattle.r9_wmgr.specs.wmgr.Acts.{act_of, AreKeys, IfRefused};

use crate::wmgr::act::{Act, ActFault, Step};
use crate::wmgr::draft::Draft;
use crate::wmgr::making::GONE;
use crate::wmgr::manager::Manager;
use crate::wmgr::naming::DEEPEST;
use r9_event::event::{Notes, Orders};
use r9_event::window::Window;
use r9_memory::Memory;
use r9_text::Numbers;
use r9_wctl::wctl::Wctl;

impl Draft {
    fn command(&mut self, what: &Wctl, w: &Window) -> Result<(), ActFault>
        ensures done { OnOk result (model.commanded (wctl_of what.now) w.now self.old ≡ Ok self.new) }
        ensures refused { IfErr result (λ f. IfRefused f (λ n. model.commanded (wctl_of what.now) w.now self.old ≡ Err n)) }
    {
        match what {
            Wctl::New { options, hide } => return self.new_in(w.host, options, *hide),
            Wctl::Resize(options) => return self.move_by(false, options, w),
            Wctl::Move(options) => return self.move_by(true, options, w),
            Wctl::Host => return self.host(w),
            Wctl::Top => self.raise(*w)?,
            Wctl::Bottom => self.lower(*w)?,
            Wctl::Hide => self.hide(w)?,
            Wctl::Unhide => self.show(w)?,
            Wctl::Current => self.make_current(w)?,
            Wctl::Delete => self.delete(DEEPEST, w)?,
            Wctl::Scroll(_) | Wctl::Set => {}
        }
        Ok(())
    }

    // A command to the window with a serial.
    #[tactic(auto, unfolding(model_rio::specs::rio::Rio::command_to))]
    fn command_to(&mut self, serial: u32, what: &Wctl) -> Result<(), ActFault>
        ensures done { OnOk result (model.command_to serial (wctl_of what.now) self.old ≡ Ok self.new) }
        ensures refused { IfErr result (λ f. IfRefused f (λ n. model.command_to serial (wctl_of what.now) self.old ≡ Err n)) }
    {
        let Some(w) = self.table.window_of(serial) else {
            return Err(ActFault::Refused(GONE));
        };
        self.command(what, &w)
    }

    fn act(&mut self, act: &Act) -> Result<(), ActFault>
        requires keys { AreKeys act.now }
        ensures done { OnOk result (model.acted (act_of act.now) self.old ≡ Ok self.new) }
        ensures refused { IfErr result (λ f. IfRefused f (λ n. model.acted (act_of act.now) self.old ≡ Err n)) }
    {
        match act {
            Act::New { rio, options, hide } => return self.new_in(*rio, options, *hide),
            Act::Command { window, what } => return self.command_to(*window, what),
            Act::Gone { window } => return self.command_to(*window, &Wctl::Delete),
            Act::Size { width, height } => return self.resize(*width, *height),
            Act::Mouse(e) => self.mouse(DEEPEST, *e, 0)?,
            Act::Keys(bytes) => self.keys(bytes.as_slice())?,
        }
        Ok(())
    }
}

impl Manager {
    fn draft(&mut self) -> Result<Draft, Memory>
        ensures begun { IfOk result (λ draft. draft ≡ begun self.old) }
        ensures kept { self.new ≡ self.old }
    {
        Ok(Draft {
            table: self.try_clone()?,
            orders: Orders::new(self.alloc),
            notes: Notes::new(self.alloc),
        })
    }

    // Takes over the table of a draft.
    fn take_over(&mut self, draft: Draft) -> Step
        ensures { draft ≡ record { table = self.new; orders = result.orders; notes = result.notes } }
    {
        let Draft {
            table,
            orders,
            notes,
        } = draft;
        self.replace_by(table);
        Step { orders, notes }
    }

    // What an act does, by a draft.
    fn step_by_draft(&mut self, act: &Act) -> Result<Step, ActFault>
        requires keys { AreKeys act.now }
        ensures done { IfOk result (λ s. model.rio self.old (act_of act.now) ≡ Ok (record { table = self.new; orders = s.orders; notes = s.notes })) }
        ensures refused { IfErr result (λ f. IfRefused f (λ n. model.rio self.old (act_of act.now) ≡ Err n)) }
        ensures kept { OnErr result (self.new ≡ self.old) }
    {
        let mut draft = self.draft()?;
        draft.act(act)?;
        Ok(self.take_over(draft))
    }

    // What an act does, in place where that takes no draft.
    fn carry_out(&mut self, act: &Act) -> Result<Step, ActFault>
        requires keys { AreKeys act.now }
        ensures done { IfOk result (λ s. model.rio self.old (act_of act.now) ≡ Ok (record { table = self.new; orders = s.orders; notes = s.notes })) }
        ensures refused { IfErr result (λ f. IfRefused f (λ n. model.rio self.old (act_of act.now) ≡ Err n)) }
        ensures kept { OnErr result (self.new ≡ self.old) }
    {
        if let Some(step) = self.move_alone(act)? {
            return Ok(step);
        }
        self.step_by_draft(act)
    }

    /// What an act does: the table changes, and it gives what that asks of the draw device and what windows are told.
    /// Refused by 42 exactly where the window, or the rio of a new one, is not there; then by 47 where a rectangle or a
    /// host is refused, by 49 where there would be too many windows, and by 50 where rios would be nested too deep; another
    /// size of the display by 47 alone, where a window in one that moves would come too far out. Where it is refused or memory
    /// is short, nothing changes. A sound table stays sound, and what one window is told stands in the order made, moved or
    /// resized, hidden, current, mouse, key, deleted.
    pub fn step(&mut self, act: Act) -> Result<Step, ActFault>
        requires keys { AreKeys act }
        ensures done { IfOk result (λ s. model.rio self.old (act_of act) ≡ Ok (record { table = self.new; orders = s.orders; notes = s.notes })) }
        ensures refused { IfErr result (λ f. IfRefused f (λ n. model.rio self.old (act_of act) ≡ Err n)) }
        ensures kept { OnErr result (self.new ≡ self.old) }
        ensures sound { IsSound self.old → IsSound self.new }
        ensures in_turn { IfOk result (λ s. IsSound self.old → AreInTurn s.notes) }
    {
        self.carry_out(&act)
    }

    /// The serial of the live window of a path, the numbers from the root rio inward. None exactly where there is none.
    #[tactic(auto, unfolding(model_rio::specs::rio::Table::found))]
    pub fn find(&self, path: &[u32]) -> Option<u32>
        ensures value { result ≡ found self.now path.now }
        ensures window { IsSound self.now → IfSome result (λ serial. path_of self.now serial ≡ path.now) }
        ensures none { IsSound self.now → IfNone result ((serial : ℕ) → IsSome (window_of self.now serial) → path_of self.now serial ≢ path.now) }
    {
        if path.is_empty() {
            return None;
        }
        let mut at = 0;
        for number in path {
            at = self.numbered(at, *number)?;
        }
        Some(at)
    }

    /// The serials of the windows of a host's rio, in ascending order. 0 is the root rio.
    #[tactic(auto, unfolding(model_rio::specs::rio::Table::serials_of))]
    pub fn windows(&self, rio: u32) -> Result<Numbers, Memory>
        ensures value { IfOk result (λ serials. serials ≡ serials_of self.now rio) }
        ensures ascending { IfOk result (λ serials. IsSound self.now → AllPairs ◌<◌ serials) }
    {
        let windows = self.made_in(rio)?;
        let mut serials = Numbers::new(self.alloc);
        for w in &windows {
            serials.push(w.serial)?;
        }
        Ok(serials)
    }
}
