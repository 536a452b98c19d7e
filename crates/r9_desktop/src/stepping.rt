//! Steps of the window manager, and what comes of them (rio(4)).

ghost use Rattle.std.specs.Prelude.{◌≡◌, ◌+◌, ◌++◌, ◌<◌, ◌||◌, not, Ok, Err, IfErr, OnOk};
ghost use Rattle.std.specs.List.{fold};
ghost use Rattle.model_draw.specs.cost.Cost.{orders_cost};
ghost use Rattle.model_draw.specs.draw.Orders.{carried_out};
ghost use Rattle.model_rio.specs.rio.Rio.{rio};
ghost use Rattle.model_world.specs.Desktop.{is_as_large, panes_told, snarfs_ordered, stepped_if, stepped_or, users_told};
ghost use Rattle.model_world.specs.Whole.{with_cost};
ghost use Rattle.r9_wmgr.specs.wmgr.Acts.{act_of, AreKeys};
ghost use Rattle.r9_files.specs.around.Words.{IfRefused};
ghost use Rattle.r9_desktop.specs.Words.{SameClients};
ghost use Rattle.r9_desktop.specs.World.{began_in, parts_of};

use crate::desktop::Desktop;
use crate::sizing::is_as_large;
use crate::spending::{Ordered, Wasted};
use crate::telling::{order_snarfs, tell_panes, tell_users};
use model_draw::draw::orders_keep_connections;
use model_rio::rio::acts_end_no_connection;
use r9_event::event::{Notes, Orders};
use r9_files::files::Fault;
use r9_geom::Rect;
use r9_marks::steps::Steps;
use r9_memory::Memory;
use r9_wmgr::wmgr::{Act, ActFault, Step};
use std::marker::Brand;
use std::snapshot::Snapshot;
use std::sync::ledger::{Blank, Ledger};

impl Desktop {
    /// Carries out orders, with a count of the pixels that they write.
    fn obey<L: Ledger>(&mut self, orders: &Orders, blank: Blank) -> Result<(), Memory>
        requires name { blank.name ≡ L.name }
        requires parts { blank.parts ≡ L.parts }
        requires some { 0 < L.parts }
        ensures obeyed { OnOk result (parts_of self.new ≡ with_cost (parts_of self.old) (carried_out (parts_of self.old).device orders.now) (orders_cost (parts_of self.old).device orders.now)) }
        ensures began { began_in self.new ≡ began_in self.old }
    {
        let mut pixels = Steps::<L>::new(blank);
        let device = Snapshot::of(&self.device);
        let done = self.device.orders(orders, &mut pixels);
        let count = pixels.count();
        match done {
            Ok(()) => self.spending.add(count, &Ordered { device, orders }),
            Err(Memory) => self.spending.add(count, &Wasted(count)),
        }
        done
    }

    /// Windows were told notes, after those of this turn so far.
    fn keep_notes(&mut self, notes: Notes) -> Result<(), Memory>
        ensures kept { OnOk result (parts_of self.new ≡ record (parts_of self.old) { notes = (parts_of self.old).notes ++ notes }) }
        ensures began { began_in self.new ≡ began_in self.old }
    {
        // The first notes of a turn are not copied.
        if self.notes.as_slice().is_empty() {
            self.notes = notes;
            return Ok(());
        }
        self.notes.append(notes)
    }

    /// Does what a step asks of the draw device, and tells windows and rios what happened. The table of windows is that of
    /// the step already.
    fn follow(&mut self, step: Step) -> Result<(), Memory>
        ensures followed { OnOk result (parts_of self.new ≡ record {
          device = carried_out (parts_of self.old).device step.orders;
          table = (parts_of self.old).table;
          sized = (parts_of self.old).sized;
          panes = fold panes_told (parts_of self.old).panes step.notes;
          users = fold users_told (parts_of self.old).users step.notes;
          snarfs = fold snarfs_ordered (parts_of self.old).snarfs step.orders;
          pointer = (parts_of self.old).pointer;
          notes = (parts_of self.old).notes ++ step.notes;
          cost = (parts_of self.old).cost + orders_cost (parts_of self.old).device step.orders;
        }) }
        ensures began { began_in self.new ≡ began_in self.old }
    {
        let Step { orders, notes } = step;
        self.obey::<Brand>(&orders, Blank::new(1))?;
        tell_panes(self.alloc, &mut self.panes, notes.as_slice())?;
        tell_users(&mut self.users, notes.as_slice());
        order_snarfs(self.alloc, &mut self.snarfs, orders.as_slice())?;
        self.keep_notes(notes)
    }

    /// Whether the display has changed its size, where it had this rectangle before.
    fn notice_size(&mut self, before: &Rect)
        ensures noticed { parts_of self.new ≡ record (parts_of self.old) { sized = (parts_of self.old).sized || not (is_as_large before.now (parts_of self.old).table.r) } }
        ensures began { began_in self.new ≡ began_in self.old }
    {
        self.sized = self.sized || !is_as_large(before, &self.manager.rect());
    }

    /// What an act does to all. Refused exactly as the window manager refuses it, and then all is as before; of Memory nothing
    /// is said.
    #[tactic(auto, unfolding(model_world::specs::Desktop::stepped))]
    pub(crate) fn step(&mut self, act: Act) -> Result<(), Fault>
        requires keys { AreKeys act }
        ensures done { OnOk result (stepped_or (parts_of self.old) (rio (parts_of self.old).table (act_of act)) ≡ Ok (parts_of self.new)) }
        ensures refused { IfErr result (λ f. IfRefused f (λ n. rio (parts_of self.old).table (act_of act) ≡ Err n)) }
        ensures kept { IfErr result (λ f. IfRefused f (λ n. parts_of self.new ≡ parts_of self.old)) }
        ensures clients { OnOk result (SameClients (parts_of self.old) (parts_of self.new)) }
        ensures began { began_in self.new ≡ began_in self.old }
    {
        acts_end_no_connection();
        orders_keep_connections();
        let before = self.manager.rect();
        match self.manager.step(act) {
            Ok(step) => {
                self.notice_size(&before);
                Ok(self.follow(step)?)
            }
            Err(ActFault::Refused(refusal)) => Err(Fault::Refused(refusal)),
            Err(ActFault::Memory) => Err(Fault::Memory),
        }
    }

    /// The same, where an act that is refused leaves all as it was.
    pub(crate) fn step_if(&mut self, act: Act) -> Result<(), Memory>
        requires keys { AreKeys act }
        ensures done { OnOk result (parts_of self.new ≡ stepped_if (parts_of self.old) (rio (parts_of self.old).table (act_of act))) }
        ensures clients { OnOk result (SameClients (parts_of self.old) (parts_of self.new)) }
        ensures began { began_in self.new ≡ began_in self.old }
    {
        match self.step(act) {
            Ok(()) | Err(Fault::Refused(_)) => Ok(()),
            Err(Fault::Memory) => Err(Memory),
        }
    }
}
