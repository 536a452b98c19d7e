//! The lines of the pieces of a text.

ghost use Rattle.std.specs.Prelude.{◌≤◌, [], ◌∷◌, length, All, OnOk};
ghost use Rattle.model_client.specs.textwin.Wrap.{blank};
ghost use Rattle.model_clients.specs.page.Text.{moves_bytes, write};
ghost use Rattle.law_text.specs.page.Page.{IsShape};
ghost use Rattle.r9_clients.specs.page.Shown.{IsWithin, shape_of};
ghost use Rattle.r9_clients.specs.saying.Lines.{IsSaid};
ghost use Rattle.r9_clients.specs.typing.Typed.{IsTyped};

use crate::page::{Shape, moves_bytes};
use crate::saying::push_write;
use crate::typing::opening::DATA;
use r9_memory::Memory;
use r9_text::Bytes;
use r9_textwin::{Move, TextWin, first_piece};
use std::alloc::Global;

/// Adds the line of a piece. Its moves stay in the window, and their draw messages fit into one message.
fn push_piece(alloc: Global, shape: Shape, moves: &[Move], out: &mut Bytes) -> Result<(), Memory>
    requires shape { IsShape (shape_of shape) }
    requires within { All (IsWithin (shape_of shape)) moves.now }
    requires short { length (moves_bytes (shape_of shape) moves.now) ≤ 65537 }
    ensures { OnOk result (IsSaid out.old out.new (write (moves_bytes (shape_of shape) moves.now) ∷ [])) }
{
    let bytes = moves_bytes(alloc, shape, moves)?;
    push_write(alloc, DATA, bytes.as_slice(), out)
}

/// Adds the lines of a text's pieces. The page is blank before them.
pub fn push_pieces(alloc: Global, shape: Shape, text: &[u8], out: &mut Bytes) -> Result<(), Memory>
    requires { IsShape (shape_of shape) }
    ensures { OnOk result (IsTyped (shape_of shape) blank text.now out.old out.new) }
{
    let mut window = TextWin::new(alloc, shape.columns, shape.rows, shape.width, shape.height)?;
    let mut rest = text;
    'pieces: while !rest.is_empty() {
        let piece = first_piece(rest);
        let moves = window.feed(piece)?;
        push_piece(alloc, shape, moves.as_slice(), out)?;
        rest = &rest[piece.len()..];
    }
    Ok(())
}
