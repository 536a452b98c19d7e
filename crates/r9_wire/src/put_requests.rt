//! The bodies of a client's messages.

ghost use Rattle.std.specs.Prelude.{◌≡◌, ◌<◌, ◌≤◌, ◌+◌, ◌^◌, ◌++◌, [], ◌∷◌, length, IfOk};
ghost use Rattle.std.specs.List.{All};
ghost use Rattle.model_text.specs.text.Number.{two_bytes, four_bytes, eight_bytes};
ghost use Rattle.model_files.specs.wire.Spelling.{sized, string, IsString, names_bytes, message, spelling_of_t, FitsT};
ghost use Rattle.r9_wire.specs.View.{t_of};

use crate::lists::Names;
use crate::message::Tmsg;
use crate::puts::{put_names, put_sized, put_u16, put_u32, put_u64};
use r9_memory::Memory;
use r9_text::Bytes;
use std::alloc::Global;

/// What stands behind the size of a message.
#[derive(Debug, Drop)]
pub struct Body {
    pub kind: u8,
    pub tag: u16,
    pub bytes: Bytes,
}

impl Body {
    fn new(kind: u8, tag: u16, bytes: Bytes) -> Self
        ensures kind { result.kind ≡ kind }
        ensures tag { result.tag ≡ tag }
        ensures bytes { result.bytes ≡ bytes }
    {
        Body { kind, tag, bytes }
    }
}

/// msize[4] version[s]
fn version_body(alloc: Global, msize: u32, version: &[u8]) -> Result<Bytes, Memory>
    requires { length version.now < 2 ^ 16 }
    ensures spelled { IfOk result (λ b. b ≡ four_bytes msize ++ string version.now) }
    ensures short { IfOk result (λ b. 7 + length b < 2 ^ 32) }
{
    let mut out = Bytes::new(alloc);
    put_u32(&mut out, msize)?;
    put_sized(&mut out, version)?;
    Ok(out)
}

/// afid[4] uname[s] aname[s]
fn auth_body(alloc: Global, afid: u32, uname: &[u8], aname: &[u8]) -> Result<Bytes, Memory>
    requires uname_fits { length uname.now < 2 ^ 16 }
    requires aname_fits { length aname.now < 2 ^ 16 }
    ensures spelled { IfOk result (λ b. b ≡ four_bytes afid ++ string uname.now ++ string aname.now) }
    ensures short { IfOk result (λ b. 7 + length b < 2 ^ 32) }
{
    let mut out = Bytes::new(alloc);
    put_u32(&mut out, afid)?;
    put_sized(&mut out, uname)?;
    put_sized(&mut out, aname)?;
    Ok(out)
}

/// fid[4] afid[4] uname[s] aname[s]
fn attach_body(
    alloc: Global,
    fid: u32,
    afid: u32,
    uname: &[u8],
    aname: &[u8],
) -> Result<Bytes, Memory>
    requires uname_fits { length uname.now < 2 ^ 16 }
    requires aname_fits { length aname.now < 2 ^ 16 }
    ensures spelled { IfOk result (λ b. b ≡ four_bytes fid ++ four_bytes afid ++ string uname.now ++ string aname.now) }
    ensures short { IfOk result (λ b. 7 + length b < 2 ^ 32) }
{
    let mut out = Bytes::new(alloc);
    put_u32(&mut out, fid)?;
    put_u32(&mut out, afid)?;
    put_sized(&mut out, uname)?;
    put_sized(&mut out, aname)?;
    Ok(out)
}

/// oldtag[2]
fn flush_body(alloc: Global, oldtag: u16) -> Result<Bytes, Memory>
    ensures spelled { IfOk result (λ b. b ≡ two_bytes oldtag) }
    ensures short { IfOk result (λ b. 7 + length b < 2 ^ 32) }
{
    let mut out = Bytes::new(alloc);
    put_u16(&mut out, oldtag)?;
    Ok(out)
}

/// fid[4] newfid[4] nwname[2] nwname*(wname[s])
fn walk_body(alloc: Global, fid: u32, newfid: u32, names: &Names) -> Result<Bytes, Memory>
    requires few { length names.now ≤ 16 }
    requires texts { All IsString names.now }
    ensures spelled { IfOk result (λ b. b ≡ four_bytes fid ++ four_bytes newfid ++ names_bytes names.now) }
    ensures short { IfOk result (λ b. 7 + length b < 2 ^ 32) }
{
    let mut out = Bytes::new(alloc);
    put_u32(&mut out, fid)?;
    put_u32(&mut out, newfid)?;
    put_names(&mut out, names)?;
    Ok(out)
}

/// fid[4] mode[1]
fn open_body(alloc: Global, fid: u32, mode: u8) -> Result<Bytes, Memory>
    ensures spelled { IfOk result (λ b. b ≡ four_bytes fid ++ mode ∷ []) }
    ensures short { IfOk result (λ b. 7 + length b < 2 ^ 32) }
{
    let mut out = Bytes::new(alloc);
    put_u32(&mut out, fid)?;
    out.push(mode)?;
    Ok(out)
}

/// fid[4] name[s] perm[4] mode[1]
fn create_body(alloc: Global, fid: u32, name: &[u8], perm: u32, mode: u8) -> Result<Bytes, Memory>
    requires { length name.now < 2 ^ 16 }
    ensures spelled { IfOk result (λ b. b ≡ four_bytes fid ++ string name.now ++ four_bytes perm ++ mode ∷ []) }
    ensures short { IfOk result (λ b. 7 + length b < 2 ^ 32) }
{
    let mut out = Bytes::new(alloc);
    put_u32(&mut out, fid)?;
    put_sized(&mut out, name)?;
    put_u32(&mut out, perm)?;
    out.push(mode)?;
    Ok(out)
}

/// fid[4] offset[8] count[4]
fn read_body(alloc: Global, fid: u32, offset: u64, count: u32) -> Result<Bytes, Memory>
    ensures spelled { IfOk result (λ b. b ≡ four_bytes fid ++ eight_bytes offset ++ four_bytes count) }
    ensures short { IfOk result (λ b. 7 + length b < 2 ^ 32) }
{
    let mut out = Bytes::new(alloc);
    put_u32(&mut out, fid)?;
    put_u64(&mut out, offset)?;
    put_u32(&mut out, count)?;
    Ok(out)
}

/// fid[4] offset[8] count[4] and that many bytes
fn write_body(alloc: Global, fid: u32, offset: u64, bytes: &[u8]) -> Result<Bytes, Memory>
    requires { 23 + length bytes.now < 2 ^ 32 }
    ensures spelled { IfOk result (λ b. b ≡ four_bytes fid ++ eight_bytes offset ++ four_bytes (length bytes.now) ++ bytes.now) }
    ensures short { IfOk result (λ b. 7 + length b < 2 ^ 32) }
{
    let mut out = Bytes::new(alloc);
    put_u32(&mut out, fid)?;
    put_u64(&mut out, offset)?;
    put_u32(&mut out, bytes.len() as u32)?;
    out.push_all(bytes)?;
    Ok(out)
}

/// fid[4]
fn fid_body(alloc: Global, fid: u32) -> Result<Bytes, Memory>
    ensures spelled { IfOk result (λ b. b ≡ four_bytes fid) }
    ensures short { IfOk result (λ b. 7 + length b < 2 ^ 32) }
{
    let mut out = Bytes::new(alloc);
    put_u32(&mut out, fid)?;
    Ok(out)
}

/// fid[4] n[2] and n bytes
fn wstat_body(alloc: Global, fid: u32, stat: &[u8]) -> Result<Bytes, Memory>
    requires { length stat.now < 2 ^ 16 }
    ensures spelled { IfOk result (λ b. b ≡ four_bytes fid ++ sized stat.now) }
    ensures short { IfOk result (λ b. 7 + length b < 2 ^ 32) }
{
    let mut out = Bytes::new(alloc);
    put_u32(&mut out, fid)?;
    put_sized(&mut out, stat)?;
    Ok(out)
}

/// Kind, tag and body of a client's message.
pub fn request_body(alloc: Global, m: &Tmsg) -> Result<Body, Memory>
    requires { FitsT (t_of m.now) }
    ensures spelled { IfOk result (λ b. spelling_of_t (t_of m.now) ≡ message b.kind b.tag b.bytes) }
    ensures short { IfOk result (λ b. 7 + length b.bytes < 2 ^ 32) }
{
    // A table with one row for each kind, which is long by the names of the fields alone.
    match m {
        Tmsg::Version {
            tag,
            msize,
            version,
        } => Ok(Body::new(100, *tag, version_body(alloc, *msize, version.as_slice())?)),
        Tmsg::Auth {
            tag,
            afid,
            uname,
            aname,
        } => Ok(Body::new(
            102,
            *tag,
            auth_body(alloc, *afid, uname.as_slice(), aname.as_slice())?,
        )),
        Tmsg::Attach {
            tag,
            fid,
            afid,
            uname,
            aname,
        } => Ok(Body::new(
            104,
            *tag,
            attach_body(alloc, *fid, *afid, uname.as_slice(), aname.as_slice())?,
        )),
        Tmsg::Flush { tag, oldtag } => Ok(Body::new(108, *tag, flush_body(alloc, *oldtag)?)),
        Tmsg::Walk {
            tag,
            fid,
            newfid,
            names,
        } => Ok(Body::new(110, *tag, walk_body(alloc, *fid, *newfid, names)?)),
        Tmsg::Open { tag, fid, mode } => Ok(Body::new(112, *tag, open_body(alloc, *fid, *mode)?)),
        Tmsg::Create {
            tag,
            fid,
            name,
            perm,
            mode,
        } => Ok(Body::new(
            114,
            *tag,
            create_body(alloc, *fid, name.as_slice(), *perm, *mode)?,
        )),
        Tmsg::Read {
            tag,
            fid,
            offset,
            count,
        } => Ok(Body::new(116, *tag, read_body(alloc, *fid, *offset, *count)?)),
        Tmsg::Write {
            tag,
            fid,
            offset,
            bytes,
        } => Ok(Body::new(
            118,
            *tag,
            write_body(alloc, *fid, *offset, bytes.as_slice())?,
        )),
        Tmsg::Clunk { tag, fid } => Ok(Body::new(120, *tag, fid_body(alloc, *fid)?)),
        Tmsg::Remove { tag, fid } => Ok(Body::new(122, *tag, fid_body(alloc, *fid)?)),
        Tmsg::Stat { tag, fid } => Ok(Body::new(124, *tag, fid_body(alloc, *fid)?)),
        Tmsg::Wstat { tag, fid, stat } => Ok(Body::new(
            126,
            *tag,
            wstat_body(alloc, *fid, stat.as_slice())?,
        )),
    }
}
