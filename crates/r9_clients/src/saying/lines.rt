//! The line of one thing that the client says.

ghost use Rattle.std.specs.Prelude.{◌≡◌, ◌<◌, ◌≤◌, ◌+◌, ◌^◌, ◌++◌, [], ◌∷◌, length, None, IfOk, OnOk};
ghost use Rattle.r9_event.specs.declared.event.event.Event.TheVariants.{Msg};
ghost use Rattle.model_text.specs.text.Number.{AreBytes};
ghost use Rattle.model_history.specs.records.Line.{event_line};
ghost use Rattle.model_files.specs.wire.Message.{Twrite};
ghost use Rattle.r9_wire.specs.View.{t_of};
ghost use Rattle.r9_clients.specs.saying.Lines.{CanSay, IsSaid, write_head};

use r9_memory::Memory;
use r9_text::{Bytes, push_hex};
use r9_wire::{Tmsg, write_t};
use std::alloc::Global;

/// Each number of bytes is a byte.
pub fn are_bytes(_bytes: &[u8])
    ensures { AreBytes _bytes.now }
{}

/// Adds the line of a message of session 1, which has two parts.
fn push_message(head: &[u8], rest: &[u8], out: &mut Bytes) -> Result<(), Memory>
    ensures { OnOk result (out.new ≡ out.old ++ event_line (Msg 1 (head.now ++ rest.now) None)) }
{
    out.push_all(b"M 1 ")?;
    push_hex(out, head)?;
    push_hex(out, rest)?;
    out.push(b'\n')
}

/// Adds the line of a message of session 1, which fits into bytes.
pub fn push_said(alloc: Global, m: &Tmsg, out: &mut Bytes) -> Result<(), Memory>
    requires { CanSay (t_of m.now) }
    ensures { OnOk result (IsSaid out.old out.new (t_of m.now ∷ [])) }
{
    let mut bytes = Bytes::new(alloc);
    write_t(alloc, m, &mut bytes)?;
    let said = bytes.as_slice();
    are_bytes(said);
    push_message(said, b"", out)
}

/// What stands before so many bytes in the message that writes them to a file.
#[tactic(auto, unfolding(crate::specs::saying::Lines::write_head))]
fn write_head(alloc: Global, fid: u32, len: u32) -> Result<Bytes, Memory>
    requires { 23 + len < 2 ^ 32 }
    ensures { IfOk result (λ head. head ≡ write_head fid len) }
{
    let mut head = Bytes::new(alloc);
    head.push_all(&(23 + len).to_le_bytes())?;
    head.push(118)?;
    head.push_all(&1u16.to_le_bytes())?;
    head.push_all(&fid.to_le_bytes())?;
    head.push_all(&0u64.to_le_bytes())?;
    head.push_all(&len.to_le_bytes())?;
    Ok(head)
}

/// Adds the line of a write to a file, by a message of session 1. The bytes are copied only there.
pub fn push_write(alloc: Global, fid: u32, bytes: &[u8], out: &mut Bytes) -> Result<(), Memory>
    requires { length bytes.now ≤ 65537 }
    ensures { OnOk result (IsSaid out.old out.new (Twrite 1 fid 0 bytes.now ∷ [])) }
{
    let head = write_head(alloc, fid, bytes.len() as u32)?;
    let begun = head.as_slice();
    are_bytes(begun);
    are_bytes(bytes);
    push_message(begun, bytes, out)
}
