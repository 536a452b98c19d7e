//! A list of events.

ghost use Rattle.std.specs.Prelude.{◌≡◌, ◌++◌, [], ◌∷◌, OnOk};

use model_files::mouse::Mouse;
use r9_memory::Memory;
use std::alloc::Global;
use std::marker::Model;

/// Events in the order in which they happened.
#[derive(Drop)]
pub struct Events {
    items: Vec<Mouse>,
}

impl Model for Events {
    ghost use Rattle.std.specs.Prelude.{List};
    ghost use Rattle.model_files.specs.declared.mouse.Mouse.{Mouse};

    ghost Value = { List Mouse };

    ghost view = { λ events. events.items.items };
}

impl Events {
    /// No events.
    pub(crate) fn new(alloc: Global) -> Self
        ensures { result ≡ [] }
    {
        Events {
            items: Vec::new(alloc),
        }
    }

    /// Adds one at the end.
    pub(crate) fn push(&mut self, e: Mouse) -> Result<(), Memory>
        ensures { OnOk result (self.new ≡ self.old ++ e ∷ []) }
    {
        self.items.push(e)?;
        Ok(())
    }

    /// The events in order.
    pub fn as_slice(&self) -> &[Mouse]
        ensures { result.now ≡ self.now }
    {
        self.items.as_slice()
    }
}
