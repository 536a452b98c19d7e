//! The record of a text.

ghost use Rattle.std.specs.Prelude.{◌≡◌, ◌≤◌, ◌*◌, ℕ, length, Err, IfOk};
ghost use Rattle.model_clients.specs.page.Text.{cells};
ghost use Rattle.law_text.specs.page.Page.{IsShape};
ghost use Rattle.r9_clients.specs.textfile.Input.{input_of};
ghost use Rattle.r9_clients.specs.page.Shown.{shape_of};
ghost use Rattle.r9_clients.specs.typing.Typed.{IsRecordOf};
ghost use Rattle.r9_clients.specs.typing.Record.{IsTextRecord};

use crate::page::Shape;
use crate::saying::{are_bytes, begin};
use crate::textfile::{BadInput, read_input};
use crate::typing::opening::push_opening;
use crate::typing::pieces::push_pieces;
use r9_memory::Memory;
use r9_text::Bytes;
use std::alloc::Global;
use thiserror::Error;

/// Why no record of a text was made.
#[derive(Clone, Copy, Debug, PartialEq, Eq, Error)]
pub enum TextFault {
    /// The input goes wrong at this place, as `BadInput` tells.
    #[error("bad input at byte {place}")]
    Bad { place: u64 },
    /// There was no memory.
    #[error("out of memory")]
    Memory,
}

impl From<Memory> for TextFault {
    ghost use Rattle.std.specs.Prelude.{◌≡◌};
    ghost use Rattle.r9_clients.specs.declared.typing.record.TextFault.TheVariants as fault;

    ghost from_gives = { λ _ e. e ≡ fault.Memory };

    fn from(_: Memory) -> Self {
        TextFault::Memory
    }
}

impl From<BadInput> for TextFault {
    ghost use Rattle.std.specs.Prelude.{◌≡◌};
    ghost use Rattle.r9_clients.specs.declared.typing.record.TextFault.TheVariants as fault;

    ghost from_gives = { λ bad e. e ≡ fault.Bad bad.place };

    fn from(bad: BadInput) -> Self {
        TextFault::Bad { place: bad.place }
    }
}

/// The record that shows a text with a font of these pixels.
fn record_of(alloc: Global, shape: Shape, pixels: &[u8], text: &[u8]) -> Result<Bytes, Memory>
    requires shape { IsShape (shape_of shape) }
    requires all { length pixels.now ≡ shape.height * (cells * shape.width) }
    ensures { IfOk result (IsRecordOf (shape_of shape) pixels.now text.now) }
{
    let mut out = begin(alloc)?;
    push_opening(alloc, shape, pixels, &mut out)?;
    push_pieces(alloc, shape, text, &mut out)?;
    are_bytes(pixels);
    Ok(out)
}

/// The record, headed `rio9 1`, of a session that shows the input's text in a window of so many columns and rows, from 4 to 200 and
/// from 4 to 100 (draw(3), rio(4)). An input that is bad gives the place where it is.
pub fn text_record(alloc: Global, columns: u32, rows: u32, input: &[u8]) -> Result<Bytes, TextFault>
    requires wide { 4 ≤ columns }
    requires most_columns { columns ≤ 200 }
    requires high { 4 ≤ rows }
    requires most_rows { rows ≤ 100 }
    ensures record { IfOk result (λ lines. IsTextRecord columns rows input.now lines) }
    ensures fault { (place : ℕ) → result ≡ Err (TextFault.Bad place) → input_of input.now ≡ Err place }
{
    let read = read_input(input)?;
    let shape = Shape {
        columns,
        rows,
        width: read.width,
        height: read.height,
    };
    let lines = record_of(alloc, shape, read.pixels, read.text)?;
    Ok(lines)
}
