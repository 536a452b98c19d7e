//! What a string is laid out to.

ghost use Rattle.std.specs.Prelude.{◌≡◌, List};
ghost use Rattle.model_draw_parts.specs.declared.fonts.Piece.{Piece};

use model_draw_parts::fonts::Piece;
use r9_geom::Point;
use std::marker::Model;

/// The pieces of a string, one for each of its characters in their order.
#[derive(Debug, Drop)]
pub struct Pieces {
    items: Vec<Piece>,
}

impl Model for Pieces {
    ghost Value = { List Piece };

    ghost view = { λ p. p.items.items };
}

impl Pieces {
    /// The pieces in order.
    pub fn as_slice(&self) -> &[Piece]
        ensures { result.now ≡ self.now }
    {
        self.items.as_slice()
    }
}

impl From<Vec<Piece>> for Pieces {
    ghost from_gives = { λ v p. p ≡ v.items };

    fn from(items: Vec<Piece>) -> Self {
        Pieces { items }
    }
}

/// A string laid out: its pieces, and where the pen ends.
#[derive(Debug, Drop)]
pub struct Layout {
    pub pieces: Pieces,
    pub end: Point,
}
