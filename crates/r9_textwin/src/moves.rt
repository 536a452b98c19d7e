//! A list of moves.

ghost use Rattle.std.specs.Prelude.{◌≡◌, [], ◌∷◌, ◌++◌, OnOk};

use model_client::textwin::Move;
use r9_memory::Memory;
use std::alloc::Global;
use std::marker::Model;

/// Moves in the order in which they are made.
#[derive(Drop)]
pub struct Moves {
    items: Vec<Move>,
}

impl Model for Moves {
    ghost use Rattle.std.specs.Prelude.{List};
    ghost use Rattle.model_client.specs.declared.textwin.Move.{Move};

    ghost Value = { List Move };

    ghost view = { λ moves. moves.items.items };
}

impl Moves {
    /// No moves.
    pub(crate) fn new(alloc: Global) -> Self
        ensures { result ≡ [] }
    {
        Moves {
            items: Vec::new(alloc),
        }
    }

    /// Adds one at the end.
    pub(crate) fn push(&mut self, next: Move) -> Result<(), Memory>
        ensures { OnOk result (self.new ≡ self.old ++ next ∷ []) }
    {
        self.items.push(next)?;
        Ok(())
    }

    /// The moves in order.
    pub fn as_slice(&self) -> &[Move]
        ensures { result.now ≡ self.now }
    {
        self.items.as_slice()
    }
}
