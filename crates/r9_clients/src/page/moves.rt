//! The draw messages of a piece of the text.

ghost use Rattle.std.specs.Prelude.{◌≡◌, All, IfOk};
ghost use Rattle.model_client.specs.declared.textwin.Move.TheVariants.{Scroll, Put};
ghost use Rattle.model_clients.specs.page.Text.{last_row, move_bytes, moves_bytes, page_rect, upper};
ghost use Rattle.law_text.specs.page.Page.{IsShape};
ghost use Rattle.r9_clients.specs.drawing.Shown.{rect_of};
ghost use Rattle.r9_clients.specs.page.Shown.{IsWithin, shape_of};

use crate::drawing::{Area, Drawing, ORIGIN, Place, Writing, draw, string};
use crate::page::made::{BLACK, LETTERS, WHITE, WINDOW};
use crate::page::shape::Shape;
use model_client::textwin::Move;
use r9_memory::Memory;
use r9_text::Bytes;
use std::alloc::Global;

/// The rows but the last.
fn upper(shape: Shape) -> Area
    requires { IsShape (shape_of shape) }
    ensures { rect_of result ≡ upper (shape_of shape) }
{
    Area {
        left: 4,
        upper: 4,
        right: 4 + shape.columns * shape.width,
        lower: 4 + (shape.rows - 1) * shape.height,
    }
}

/// The last row.
fn last_row(shape: Shape) -> Area
    requires { IsShape (shape_of shape) }
    ensures { rect_of result ≡ last_row (shape_of shape) }
{
    let lower = 4 + (shape.rows - 1) * shape.height;
    Area {
        left: 4,
        upper: lower,
        right: 4 + shape.columns * shape.width,
        lower: lower + shape.height,
    }
}

/// The window.
fn page_area(shape: Shape) -> Area
    requires { IsShape (shape_of shape) }
    ensures { rect_of result ≡ page_rect (shape_of shape) }
{
    Area {
        left: 0,
        upper: 0,
        right: shape.columns * shape.width + 8,
        lower: shape.rows * shape.height + 8,
    }
}

/// Moves what the window shows up, and whitens the last row.
#[tactic(auto, unfolding(model_clients::specs::page::Text::move_bytes))]
fn scroll(alloc: Global, shape: Shape) -> Result<Bytes, Memory>
    requires { IsShape (shape_of shape) }
    ensures { IfOk result (λ bytes. bytes ≡ move_bytes (shape_of shape) Scroll) }
{
    let mut out = draw(
        alloc,
        Drawing {
            dst: WINDOW,
            src: WINDOW,
            mask: WHITE,
            r: upper(shape),
            sp: Place {
                x: 4,
                y: 4 + shape.height,
            },
            mp: ORIGIN,
        },
    )?;
    let whitened = draw(
        alloc,
        Drawing {
            dst: WINDOW,
            src: WHITE,
            mask: WHITE,
            r: last_row(shape),
            sp: ORIGIN,
            mp: ORIGIN,
        },
    )?;
    out.push_all(whitened.as_slice())?;
    Ok(out)
}

/// Writes characters to a row from a column on.
#[tactic(auto, unfolding(model_clients::specs::page::Text::move_bytes))]
fn put(alloc: Global, shape: Shape, row: u32, column: u32, codes: &[u8]) -> Result<Bytes, Memory>
    requires shape { IsShape (shape_of shape) }
    requires within { IsWithin (shape_of shape) (Put row column codes.now) }
    ensures { IfOk result (λ bytes. bytes ≡ move_bytes (shape_of shape) (Put row column codes.now)) }
{
    let writing = Writing {
        dst: WINDOW,
        src: BLACK,
        font: LETTERS,
        p: Place {
            x: 4 + column * shape.width,
            y: 4 + row * shape.height,
        },
        clipr: page_area(shape),
        sp: ORIGIN,
    };
    string(alloc, writing, codes)
}

fn move_bytes(alloc: Global, shape: Shape, change: &Move) -> Result<Bytes, Memory>
    requires shape { IsShape (shape_of shape) }
    requires within { IsWithin (shape_of shape) change.now }
    ensures { IfOk result (λ bytes. bytes ≡ move_bytes (shape_of shape) change.now) }
{
    match change {
        Move::Scroll => scroll(alloc, shape),
        Move::Put { row, column, codes } => put(alloc, shape, *row, *column, codes.as_slice()),
    }
}

/// The draw messages of moves, each of which stays in the window.
pub fn moves_bytes(alloc: Global, shape: Shape, moves: &[Move]) -> Result<Bytes, Memory>
    requires shape { IsShape (shape_of shape) }
    requires within { All (IsWithin (shape_of shape)) moves.now }
    ensures { IfOk result (λ bytes. bytes ≡ moves_bytes (shape_of shape) moves.now) }
{
    let mut out = Bytes::new(alloc);
    for change in moves {
        let message = move_bytes(alloc, shape, change)?;
        out.push_all(message.as_slice())?;
    }
    Ok(out)
}
