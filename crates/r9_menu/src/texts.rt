//! A list of texts.

ghost use Rattle.std.specs.Prelude.{◌≡◌, [], ◌∷◌, IfOk};

use model_client::desk::Text;
use r9_memory::Memory;
use std::alloc::Global;
use std::marker::Model;

/// Texts in the order in which they are written.
#[derive(Drop)]
pub struct Texts {
    items: Vec<Text>,
}

impl Model for Texts {
    ghost use Rattle.std.specs.Prelude.{List};
    ghost use Rattle.model_client.specs.declared.desk.Text.{Text};

    ghost Value = { List Text };

    ghost view = { λ texts. texts.items.items };
}

impl Texts {
    /// No texts.
    pub(crate) fn new(alloc: Global) -> Self
        ensures { result ≡ [] }
    {
        Texts {
            items: Vec::new(alloc),
        }
    }

    /// One text.
    pub(crate) fn one(alloc: Global, text: Text) -> Result<Self, Memory>
        ensures { IfOk result (λ texts. texts ≡ text ∷ []) }
    {
        let mut items = Vec::new(alloc);
        items.push(text)?;
        Ok(Texts { items })
    }

    /// The texts in order.
    pub fn as_slice(&self) -> &[Text]
        ensures { result.now ≡ self.now }
    {
        self.items.as_slice()
    }
}
