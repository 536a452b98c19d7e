//! The lines of what the client says before the first piece of the text.

ghost use Rattle.std.specs.Prelude.{◌≡◌, ◌*◌, ◌++◌, [], ◌∷◌, length, IfOk, OnOk};
ghost use Rattle.model_files.specs.wire.Message.{Tattach, no_fid};
ghost use Rattle.model_clients.specs.client.Files.{to_data, to_new};
ghost use Rattle.model_clients.specs.client.Saying.{hello};
ghost use Rattle.model_clients.specs.page.Text.{asked, cells, opening};
ghost use Rattle.law_text.specs.page.Page.{IsShape};
ghost use Rattle.r9_clients.specs.page.Shown.{shape_of};
ghost use Rattle.r9_clients.specs.saying.Lines.{IsSaid, opens};

use crate::page::{Shape, making};
use crate::saying::{push_attach, push_hello, push_opens, push_write, way_to_data, way_to_new};
use r9_memory::Memory;
use r9_text::{Bytes, push_decimal};
use std::alloc::Global;

/// The fid of the data file to which draw messages are written.
pub const DATA: u32 = 2;

/// The name of the attach, which asks for a window.
#[tactic(auto, unfolding(model_clients::specs::page::Text::asked))]
fn asked(alloc: Global, shape: Shape) -> Result<Bytes, Memory>
    requires { IsShape (shape_of shape) }
    ensures { IfOk result (λ name. name ≡ asked (shape_of shape)) }
{
    let mut name = Bytes::from_slice(alloc, b"new -r 0 0 ")?;
    push_decimal(&mut name, u64::from(shape.columns * shape.width + 8))?;
    name.push_all(b" ")?;
    push_decimal(&mut name, u64::from(shape.rows * shape.height + 8))?;
    Ok(name)
}

/// Adds the lines with which the client agrees on a version, and attaches with a window of its own.
fn push_entering(alloc: Global, shape: Shape, out: &mut Bytes) -> Result<(), Memory>
    requires { IsShape (shape_of shape) }
    ensures { OnOk result (IsSaid out.old out.new (hello ∷ Tattach 1 0 no_fid [] (asked (shape_of shape)) ∷ [])) }
{
    push_hello(alloc, out)?;
    let name = asked(alloc, shape)?;
    push_attach(alloc, name, out)
}

/// Adds the lines with which it opens a connection, and its data file as fid 2.
fn push_connecting(alloc: Global, out: &mut Bytes) -> Result<(), Memory>
    ensures { OnOk result (IsSaid out.old out.new (opens to_new 1 2 ++ opens to_data 2 2)) }
{
    let to_new = way_to_new(alloc)?;
    push_opens(alloc, to_new, 1, 2, out)?;
    let to_data = way_to_data(alloc)?;
    push_opens(alloc, to_data, 2, 2, out)
}

/// Adds the lines of the messages that show an empty page. The font's pixels are rows of one byte for each.
pub fn push_opening(
    alloc: Global,
    shape: Shape,
    pixels: &[u8],
    out: &mut Bytes,
) -> Result<(), Memory>
    requires shape { IsShape (shape_of shape) }
    requires all { length pixels.now ≡ shape.height * (cells * shape.width) }
    ensures { OnOk result (IsSaid out.old out.new (opening (shape_of shape) pixels.now)) }
{
    push_entering(alloc, shape, out)?;
    push_connecting(alloc, out)?;
    let bytes = making(alloc, shape, pixels)?;
    push_write(alloc, DATA, bytes.as_slice(), out)
}
