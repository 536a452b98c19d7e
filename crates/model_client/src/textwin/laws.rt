//! What the pieces of a text are.

ghost use Rattle.std.specs.Prelude.{◌≡◌, ℕ, List};
ghost use Rattle.std.specs.List.{concat};
ghost use Rattle.model_client.specs.textwin.Pieces.{pieces};

/// The pieces of a text, joined, are the text.
pub fn pieces_are_the_text()
    ensures { (text : List ℕ) → concat (pieces text) ≡ text }
{}
