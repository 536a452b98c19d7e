//! What a session alone with its window is told, cut into steps.

ghost use Rattle.std.specs.Prelude.{◌≡◌, ◌==◌, ◌++◌, [], ◌∷◌, length, OnOk, OnErr};

use r9_event::event::Item;
use r9_memory::Memory;
use std::alloc::Global;
use std::marker::Model;

/// What the session is told by one event, in order.
#[derive(Debug, Drop)]
pub struct Step {
    items: Vec<Item>,
}

impl Model for Step {
    ghost use Rattle.std.specs.Prelude.{List};
    ghost use Rattle.r9_event.specs.declared.event.own.Item.{Item};

    ghost Value = { List Item };

    ghost view = { λ s. s.items.items };
}

impl Step {
    /// Nothing.
    pub fn new(alloc: Global) -> Self
        ensures { result ≡ [] }
    {
        Step {
            items: Vec::new(alloc),
        }
    }

    /// Adds an item at the end.
    pub fn push(&mut self, item: Item) -> Result<(), Memory>
        ensures ok { OnOk result (self.new ≡ self.old ++ item ∷ []) }
        ensures err { OnErr result (self.new ≡ self.old) }
    {
        self.items.push(item)?;
        Ok(())
    }

    /// The items in order.
    pub fn as_slice(&self) -> &[Item]
        ensures { result.now ≡ self.now }
    {
        self.items.as_slice()
    }

    /// Whether there are none.
    pub fn is_empty(&self) -> bool
        ensures { result ≡ (length self.now == 0) }
    {
        self.items.is_empty()
    }
}

/// What the session is told, a step for each event of which it is told something.
#[derive(Debug, Drop)]
pub struct Items {
    steps: Vec<Step>,
}

impl Model for Items {
    ghost use Rattle.std.specs.Prelude.{List};
    ghost use Rattle.r9_event.specs.declared.event.own.Item.{Item};

    ghost Value = { List (List Item) };

    ghost view = { λ i. i.steps.items };
}

impl Items {
    /// Nothing.
    pub fn new(alloc: Global) -> Self
        ensures { result ≡ [] }
    {
        Items {
            steps: Vec::new(alloc),
        }
    }

    /// Adds a step at the end.
    pub fn push(&mut self, step: Step) -> Result<(), Memory>
        ensures ok { OnOk result (self.new ≡ self.old ++ step ∷ []) }
        ensures err { OnErr result (self.new ≡ self.old) }
    {
        self.steps.push(step)?;
        Ok(())
    }

    /// The steps in order.
    pub fn as_slice(&self) -> &[Step]
        ensures { result.now ≡ self.now }
    {
        self.steps.as_slice()
    }
}
