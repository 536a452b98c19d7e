//! The lines of what the client says before the first event.

ghost use Rattle.std.specs.Prelude.{◌≡◌, [], ◌∷◌, ◌++◌, codes, IfOk, OnOk};
ghost use Rattle.model_clients.specs.client.Files.{to_data, to_new};
ghost use Rattle.model_clients.specs.piloted.History.{opening};
ghost use Rattle.r9_clients.specs.saying.Lines.{IsSaid, opens};

use crate::pointing::bands::inks;
use crate::saying::{push_attach, push_hello, push_opens, push_write, way_to_data, way_to_new};
use r9_memory::Memory;
use r9_text::Bytes;
use r9_wire::Names;
use std::alloc::Global;

/// The fids of the files: `mousein`, `wctl`, and the ctl and the data of the connection.
pub const MOUSEIN: u32 = 1;

pub const WCTL: u32 = 2;

const CTL: u32 = 3;

pub const DATA: u32 = 4;

/// The modes in which a file is opened to be written, and to be read and written.
const WRITE: u8 = 1;

const READ_AND_WRITE: u8 = 2;

/// The way to a file of the root.
fn way_to(alloc: Global, name: &[u8]) -> Result<Names, Memory>
    ensures { IfOk result (λ names. names ≡ name.now ∷ []) }
{
    let mut names = Names::new(alloc);
    names.push(Bytes::from_slice(alloc, name)?)?;
    Ok(names)
}

/// Adds the lines with which it opens the files by which windows are made and input is passed on.
fn push_rio(alloc: Global, out: &mut Bytes) -> Result<(), Memory>
    ensures { OnOk result (IsSaid out.old out.new (opens (codes "mousein" ∷ []) 1 1 ++ opens (codes "wctl" ∷ []) 2 1)) }
{
    let mousein = way_to(alloc, b"mousein")?;
    push_opens(alloc, mousein, MOUSEIN, WRITE, out)?;
    let wctl = way_to(alloc, b"wctl")?;
    push_opens(alloc, wctl, WCTL, WRITE, out)
}

/// Adds the lines with which it opens a connection to the draw device.
fn push_connection(alloc: Global, out: &mut Bytes) -> Result<(), Memory>
    ensures { OnOk result (IsSaid out.old out.new (opens to_new 3 2 ++ opens to_data 4 2)) }
{
    let new = way_to_new(alloc)?;
    push_opens(alloc, new, CTL, READ_AND_WRITE, out)?;
    let data = way_to_data(alloc)?;
    push_opens(alloc, data, DATA, READ_AND_WRITE, out)
}

/// Adds the lines of the messages that open the files and make the colours of the bands.
pub fn push_opening(alloc: Global, out: &mut Bytes) -> Result<(), Memory>
    ensures { OnOk result (IsSaid out.old out.new opening) }
{
    push_hello(alloc, out)?;
    push_attach(alloc, Bytes::new(alloc), out)?;
    push_rio(alloc, out)?;
    push_connection(alloc, out)?;
    let bytes = inks(alloc)?;
    push_write(alloc, DATA, bytes.as_slice(), out)
}
