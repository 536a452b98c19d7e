//! The lines with which a client begins.

ghost use Rattle.std.specs.Prelude.{◌≡◌, ◌<◌, ◌^◌, [], ◌∷◌, IfOk, OnOk};
ghost use Rattle.r9_event.specs.declared.event.event.Event.TheVariants.{Begin};
ghost use Rattle.model_history.specs.records.Record.{record_of};
ghost use Rattle.model_files.specs.wire.Message.{Tattach, Twalk, no_fid};
ghost use Rattle.model_clients.specs.client.Files.{to_data, to_new};
ghost use Rattle.model_clients.specs.client.Saying.{hello};
ghost use Rattle.r9_wire.specs.View.{t_of};
ghost use Rattle.r9_clients.specs.saying.Lines.{CanSay, IsSaid, opens};

use crate::saying::lines::push_said;
use r9_memory::Memory;
use r9_text::Bytes;
use r9_wire::{NO_FID, NO_TAG, Names, Tmsg};
use std::alloc::Global;

/// The header of a record, and the line with which session 1 begins.
const BEGINNING: &[u8] = b"rio9 1\nB 1\n";

/// A record in which session 1 has begun, and nothing else has happened.
pub fn begin(alloc: Global) -> Result<Bytes, Memory>
    ensures { IfOk result (λ begun. begun ≡ record_of (Begin 1 ∷ [])) }
{
    Bytes::from_slice(alloc, BEGINNING)
}

fn hello(alloc: Global) -> Result<Tmsg, Memory>
    ensures { IfOk result (λ m. t_of m ≡ hello) }
{
    Ok(Tmsg::Version {
        tag: NO_TAG,
        msize: 65_560,
        version: Bytes::from_slice(alloc, b"9P2000")?,
    })
}

/// Adds the line with which the client agrees on a version, and on messages of up to 65,560 bytes.
pub fn push_hello(alloc: Global, out: &mut Bytes) -> Result<(), Memory>
    ensures { OnOk result (IsSaid out.old out.new (hello ∷ [])) }
{
    let version = hello(alloc)?;
    push_said(alloc, &version, out)
}

/// Adds the line with which it attaches fid 0 to the tree with a name.
pub fn push_attach(alloc: Global, name: Bytes, out: &mut Bytes) -> Result<(), Memory>
    requires { CanSay (Tattach 1 0 no_fid [] name) }
    ensures { OnOk result (IsSaid out.old out.new (Tattach 1 0 no_fid [] name ∷ [])) }
{
    let root = Tmsg::Attach {
        tag: 1,
        fid: 0,
        afid: NO_FID,
        uname: Bytes::new(alloc),
        aname: name,
    };
    push_said(alloc, &root, out)
}

/// The way to the file that makes a connection.
pub fn way_to_new(alloc: Global) -> Result<Names, Memory>
    ensures { IfOk result (λ names. names ≡ to_new) }
{
    let mut names = Names::new(alloc);
    names.push(Bytes::from_slice(alloc, b"draw")?)?;
    names.push(Bytes::from_slice(alloc, b"new")?)?;
    Ok(names)
}

/// The way to the data file of the first connection.
pub fn way_to_data(alloc: Global) -> Result<Names, Memory>
    ensures { IfOk result (λ names. names ≡ to_data) }
{
    let mut names = Names::new(alloc);
    names.push(Bytes::from_slice(alloc, b"draw")?)?;
    names.push(Bytes::from_slice(alloc, b"1")?)?;
    names.push(Bytes::from_slice(alloc, b"data")?)?;
    Ok(names)
}

/// Adds the lines with which it walks from fid 0 to a file, and opens that as another fid.
pub fn push_opens(
    alloc: Global,
    names: Names,
    fid: u32,
    mode: u8,
    out: &mut Bytes,
) -> Result<(), Memory>
    requires { CanSay (Twalk 1 0 fid names) }
    ensures { OnOk result (IsSaid out.old out.new (opens names fid mode)) }
{
    let walk = Tmsg::Walk {
        tag: 1,
        fid: 0,
        newfid: fid,
        names,
    };
    push_said(alloc, &walk, out)?;
    let open = Tmsg::Open { tag: 1, fid, mode };
    push_said(alloc, &open, out)
}
