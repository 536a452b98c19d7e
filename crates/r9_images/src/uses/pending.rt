//! Things that are still to be looked at.

ghost use Rattle.std.specs.Prelude.{◌≡◌, ◌<◌, ◌≤◌, ◌∷◌, [], length, vec_len, vec_capacity, IfOk, IfNone, IfSome, OnOk};

use model_draw_parts::images::Thing;
use r9_memory::Memory;
use std::marker::Model;

/// Things that have lost a reference and are still to be looked at, the next one first.
#[derive(Drop)]
pub(crate) struct Pending {
    // The next one last.
    stack: Vec<Thing>,
}

impl Model for Pending {
    ghost use Rattle.std.specs.Prelude.{reverse, vec_capacity};
    ghost use Rattle.r9_images.specs.uses.Pending.{Things};

    ghost Value = { Things };

    ghost view = { λ p. record { things = reverse p.stack.items; most = vec_capacity p.stack } };
}

impl Pending {
    // None, with room for so many, in memory that was kept.
    pub(crate) fn in_memory(mut stack: Vec<Thing>, most: usize) -> Result<Self, Memory>
        ensures none { IfOk result (λ p. p.things ≡ []) }
        ensures room { IfOk result (λ p. most ≤ p.most) }
    {
        stack.clear();
        stack.reserve(most)?;
        Ok(Pending { stack })
    }

    // Its memory, to be kept.
    pub(crate) fn into_memory(self) -> Vec<Thing> {
        self.stack
    }

    pub(crate) fn push(&mut self, thing: Thing)
        requires { length self.old.things < self.old.most }
        ensures things { self.new.things ≡ thing ∷ self.old.things }
        ensures room { self.new.most ≡ self.old.most }
    {
        self.stack.push_reserved(thing);
    }

    pub(crate) fn pop(&mut self) -> Option<Thing>
        ensures next { IfSome result (λ thing. self.old.things ≡ thing ∷ self.new.things) }
        ensures none { IfNone result (self.old.things ≡ []) }
        ensures kept { IfNone result (self.new.things ≡ []) }
        ensures room { self.new.most ≡ self.old.most }
    {
        self.stack.pop()
    }
}
