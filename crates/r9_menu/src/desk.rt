//! The table of a desk.

ghost use Rattle.std.specs.Prelude.{◌≡◌, ◌∷◌, ◌+◌, Some, IfOk, OnOk, OnErr};
ghost use Rattle.model_client.specs.desk.Table.{start, done, without, with_raised};
ghost use Rattle.model_client.specs.desk.Asked.{asked, in_idle};
ghost use Rattle.model_client.specs.desk.Pilot.{after, written};

use crate::asked::{in_drag, in_drain, in_idle, in_menu, in_pick, in_sweep, in_sweeping};
use crate::panes::{put_on_top, set_rect, shifted, with_raised, without};
use crate::spelled::spell;
use crate::texts::Texts;
use model_client::desk::{Act, Ask, Mode, Pane};
use model_files::mouse::Mouse;
use r9_geom::Rect;
use r9_memory::Memory;
use std::alloc::Global;
use std::marker::Model;

/// The windows of a desk, and what stands of the events so far.
#[derive(Drop)]
pub struct Desk {
    alloc: Global,
    visible: Vec<Pane>,
    hidden: Vec<Pane>,
    next: u64,
    last: u8,
    mode: Mode,
}

impl Model for Desk {
    ghost use Rattle.model_client.specs.desk.Table.{Desk};

    ghost Value = { Desk };

    ghost view = { λ d. record { visible = d.visible.items; hidden = d.hidden.items; next = d.next; last = d.last; mode = d.mode } };
}

impl Desk {
    /// No windows. The first has number 1.
    pub fn new(alloc: Global) -> Result<Self, Memory>
        ensures { IfOk result (λ desk. desk ≡ start) }
    {
        Ok(Desk {
            alloc,
            visible: Vec::new(alloc),
            hidden: Vec::new(alloc),
            next: 1,
            last: 0,
            mode: Mode::Idle,
        })
    }

    /// An event comes. The texts are those that it writes (rio(4), mouse(3)), and the table is the one after it. Where there
    /// is no memory, or a window's number or place would leave 64 bits, the answer is Memory and the table the one before.
    #[tactic(auto, unfolding(model_client::specs::desk::Pilot::after, model_client::specs::desk::Pilot::written))]
    pub fn feed(&mut self, e: Mouse) -> Result<Texts, Memory>
        ensures texts { IfOk result (λ texts. texts ≡ written self.old e) }
        ensures table { OnOk result (self.new ≡ after self.old e) }
        ensures err { OnErr result (self.new ≡ self.old) }
    {
        let ask = self.asked(e);
        let texts = spell(self.alloc, ask.act, e)?;
        self.do_act(ask.act)?;
        self.last = e.buttons;
        self.mode = ask.mode;
        Ok(texts)
    }

    /// What the next event will mean.
    pub fn mode(&self) -> Mode
        ensures { result ≡ self.now.mode }
    {
        self.mode
    }

    #[tactic(auto, unfolding(model_client::specs::desk::Asked::asked))]
    fn asked(&self, e: Mouse) -> Ask
        ensures { result ≡ asked self.now e }
    {
        match self.mode {
            Mode::Idle => self.in_idle(e),
            Mode::Menu { at, window } => in_menu(at, window, e),
            Mode::Pick(item) => in_pick(item, &self.visible, e),
            Mode::Drain { sweep } => in_drain(sweep, e),
            Mode::Sweep { window } => in_sweep(window, e),
            Mode::Sweeping { window, from } => in_sweeping(window, from, e),
            Mode::Drag { pane, from } => in_drag(pane, from, e),
        }
    }

    fn in_idle(&self, e: Mouse) -> Ask
        ensures { result ≡ in_idle self.now e }
    {
        let count = self.visible.len() + self.hidden.len();
        in_idle(&self.visible, count, self.next, self.last, e)
    }

    #[tactic(auto, unfolding(model_client::specs::desk::Table::done))]
    fn do_act(&mut self, act: Act) -> Result<(), Memory>
        ensures ok { OnOk result (self.new ≡ done act self.old) }
        ensures err { OnErr result (self.new ≡ self.old) }
    {
        match act {
            Act::Nothing | Act::Pass { raised: None } => Ok(()),
            Act::Pass { raised: Some(pane) } => self.raise(pane),
            Act::New(r) => self.make(r),
            Act::Resize { window, r } => {
                set_rect(window, r, &mut self.visible);
                Ok(())
            }
            Act::Move { pane, by } => {
                let r = shifted(pane.r, by).ok_or(Memory)?;
                set_rect(pane.number, r, &mut self.visible);
                Ok(())
            }
            Act::Delete(window) => self.delete(window),
            Act::Hide(pane) => self.hide(pane),
        }
    }

    fn raise(&mut self, pane: Pane) -> Result<(), Memory>
        ensures ok { OnOk result (self.new ≡ record self.old { visible = with_raised (Some pane) self.old.visible }) }
        ensures err { OnErr result (self.new ≡ self.old) }
    {
        self.visible = with_raised(self.alloc, pane, &self.visible)?;
        Ok(())
    }

    fn make(&mut self, r: Rect) -> Result<(), Memory>
        ensures ok { OnOk result (self.new ≡ record self.old { visible = (record { number = self.old.next; r = r }) ∷ self.old.visible; next = self.old.next + 1 }) }
        ensures err { OnErr result (self.new ≡ self.old) }
    {
        let next = self.next.checked_add(1).ok_or(Memory)?;
        let pane = Pane {
            number: self.next,
            r,
        };
        put_on_top(pane, &mut self.visible)?;
        self.next = next;
        Ok(())
    }

    fn delete(&mut self, window: u64) -> Result<(), Memory>
        ensures ok { OnOk result (self.new ≡ record self.old { visible = without window self.old.visible }) }
        ensures err { OnErr result (self.new ≡ self.old) }
    {
        self.visible = without(self.alloc, window, &self.visible)?;
        Ok(())
    }

    fn hide(&mut self, pane: Pane) -> Result<(), Memory>
        ensures ok { OnOk result (self.new ≡ record self.old { visible = without pane.number self.old.visible; hidden = pane ∷ self.old.hidden }) }
        ensures err { OnErr result (self.new ≡ self.old) }
    {
        let left = without(self.alloc, pane.number, &self.visible)?;
        put_on_top(pane, &mut self.hidden)?;
        self.visible = left;
        Ok(())
    }
}
