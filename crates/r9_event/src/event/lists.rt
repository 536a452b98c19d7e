//! Lists of events, of replies, of notes, of orders and of uses.

ghost use Rattle.std.specs.Prelude.{◌≡◌, ◌++◌, [], ◌∷◌, OnOk, OnErr, IfSome, IfNone};

use crate::event::event::{Event, Reply};
use crate::event::own::Use;
use crate::event::rio::{Note, Order};
use r9_memory::Memory;
use std::alloc::Global;
use std::collections::VecDeque;
use std::marker::Model;

/// Events in the order in which they happened, which are taken from the front.
#[derive(Debug, Drop)]
pub struct Entries {
    items: VecDeque<Event>,
}

impl Model for Entries {
    ghost use Rattle.std.specs.Prelude.{List};
    ghost use Rattle.r9_event.specs.declared.event.event.Event.{Event};

    ghost Value = { List Event };

    ghost view = { λ e. e.items.items };
}

impl Entries {
    /// No events.
    pub fn new(alloc: Global) -> Self
        ensures { result ≡ [] }
    {
        Entries {
            items: VecDeque::new(alloc),
        }
    }

    /// Adds an event at the end.
    pub fn push(&mut self, event: Event) -> Result<(), Memory>
        ensures ok { OnOk result (self.new ≡ self.old ++ event ∷ []) }
        ensures err { OnErr result (self.new ≡ self.old) }
    {
        self.items.push_back(event)?;
        Ok(())
    }

    /// Takes the first event.
    pub fn pop_first(&mut self) -> Option<Event>
        ensures first { IfSome result (λ event. self.old ≡ event ∷ self.new) }
        ensures none { IfNone result (self.old ≡ []) }
    {
        self.items.pop_front()
    }
}

/// Replies in the order in which they were given.
#[derive(Debug, Drop)]
pub struct Replies {
    items: Vec<Reply>,
}

impl Model for Replies {
    ghost use Rattle.std.specs.Prelude.{List};
    ghost use Rattle.r9_event.specs.declared.event.event.Reply.{Reply};

    ghost Value = { List Reply };

    ghost view = { λ r. r.items.items };
}

impl Replies {
    /// No replies.
    pub fn new(alloc: Global) -> Self
        ensures { result ≡ [] }
    {
        Replies {
            items: Vec::new(alloc),
        }
    }

    /// Adds a reply at the end.
    pub fn push(&mut self, reply: Reply) -> Result<(), Memory>
        ensures ok { OnOk result (self.new ≡ self.old ++ reply ∷ []) }
        ensures err { OnErr result (self.new ≡ self.old) }
    {
        self.items.push(reply)?;
        Ok(())
    }

    /// The replies in order.
    pub fn as_slice(&self) -> &[Reply]
        ensures { result.now ≡ self.now }
    {
        self.items.as_slice()
    }
}

/// Notes in the order in which they arose, each with the serial of its window.
#[derive(Debug, Drop)]
pub struct Notes {
    items: Vec<(u32, Note)>,
}

impl Model for Notes {
    ghost use Rattle.std.specs.Prelude.{List, ℕ};
    ghost use Rattle.r9_event.specs.declared.event.rio.Note.{Note};

    ghost Value = { List (ℕ × Note) };

    ghost view = { λ n. n.items.items };
}

impl Notes {
    /// No notes.
    pub fn new(alloc: Global) -> Self
        ensures { result ≡ [] }
    {
        Notes {
            items: Vec::new(alloc),
        }
    }

    /// Adds a note for a window at the end.
    pub fn push(&mut self, window: u32, note: Note) -> Result<(), Memory>
        ensures ok { OnOk result (self.new ≡ self.old ++ (window, note) ∷ []) }
        ensures err { OnErr result (self.new ≡ self.old) }
    {
        self.items.push((window, note))?;
        Ok(())
    }

    /// Adds other notes at the end, in their order.
    pub fn append(&mut self, notes: Notes) -> Result<(), Memory>
        ensures ok { OnOk result (self.new ≡ self.old ++ notes) }
        ensures err { OnErr result (self.new ≡ self.old) }
    {
        let mut items = notes.items;
        self.items.append(&mut items)?;
        Ok(())
    }

    /// The notes in order.
    pub fn as_slice(&self) -> &[(u32, Note)]
        ensures { result.now ≡ self.now }
    {
        self.items.as_slice()
    }
}

/// Orders in the order in which they are carried out.
#[derive(Debug, Drop)]
pub struct Orders {
    items: Vec<Order>,
}

impl Model for Orders {
    ghost use Rattle.std.specs.Prelude.{List};
    ghost use Rattle.r9_event.specs.declared.event.rio.Order.{Order};

    ghost Value = { List Order };

    ghost view = { λ o. o.items.items };
}

impl Orders {
    /// No orders.
    pub fn new(alloc: Global) -> Self
        ensures { result ≡ [] }
    {
        Orders {
            items: Vec::new(alloc),
        }
    }

    /// Adds an order at the end.
    pub fn push(&mut self, order: Order) -> Result<(), Memory>
        ensures ok { OnOk result (self.new ≡ self.old ++ order ∷ []) }
        ensures err { OnErr result (self.new ≡ self.old) }
    {
        self.items.push(order)?;
        Ok(())
    }

    /// The orders in order.
    pub fn as_slice(&self) -> &[Order]
        ensures { result.now ≡ self.now }
    {
        self.items.as_slice()
    }
}

/// Uses in the order in which they came.
#[derive(Debug, Drop)]
pub struct Uses {
    items: Vec<Use>,
}

impl Model for Uses {
    ghost use Rattle.std.specs.Prelude.{List};
    ghost use Rattle.r9_event.specs.declared.event.own.Use.{Use};

    ghost Value = { List Use };

    ghost view = { λ u. u.items.items };
}

impl Uses {
    /// No uses.
    pub fn new(alloc: Global) -> Self
        ensures { result ≡ [] }
    {
        Uses {
            items: Vec::new(alloc),
        }
    }

    /// Adds a use at the end.
    pub fn push(&mut self, used: Use) -> Result<(), Memory>
        ensures ok { OnOk result (self.new ≡ self.old ++ used ∷ []) }
        ensures err { OnErr result (self.new ≡ self.old) }
    {
        self.items.push(used)?;
        Ok(())
    }

    /// The uses in order.
    pub fn as_slice(&self) -> &[Use]
        ensures { result.now ≡ self.now }
    {
        self.items.as_slice()
    }
}
