//! The options of a command that say something of a rectangle.

ghost use Rattle.std.specs.Prelude.{◌≡◌, ◌<◌, ◌++◌, ◌∷◌, [], length, OnOk, OnErr};

use model_files::wctl::Choice;
use r9_memory::Memory;
use std::alloc::Global;
use std::marker::Model;

/// The options in their order: at most 1,024, with numbers of at most 7 digits.
#[derive(Debug, Drop)]
pub struct Options {
    items: Vec<Choice>,
}

impl Model for Options {
    ghost use Rattle.std.specs.Prelude.{List};
    ghost use Rattle.model_files.specs.declared.wctl.Choice.{Choice};
    ghost use Rattle.r9_wctl.specs.wctl.Small.{AreOptions};

    ghost Value = { List Choice };

    ghost view = { λ o. o.items.items };

    ghost invariant = { λ o. AreOptions o.items.items };
}

impl Options {
    ghost use Rattle.r9_wctl.specs.wctl.Small.{AreOptions, IsSmallChoice};

    /// No options.
    pub fn new(alloc: Global) -> Self
        ensures { result ≡ [] }
    {
        Options {
            items: Vec::new(alloc),
        }
    }

    /// Adds one at the end.
    pub fn push(&mut self, choice: Choice) -> Result<(), Memory>
        requires few { length self.old < 1024 }
        requires small { IsSmallChoice choice }
        ensures ok { OnOk result (self.new ≡ self.old ++ choice ∷ []) }
        ensures err { OnErr result (self.new ≡ self.old) }
    {
        self.items.push(choice)?;
        Ok(())
    }

    /// The options in their order.
    pub fn as_slice(&self) -> &[Choice]
        ensures items { result.now ≡ self.now }
        ensures small { AreOptions self.now }
    {
        self.items.as_slice()
    }
}
