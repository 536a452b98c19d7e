//! The bodies of a client's messages, each of one kind.

ghost use Rattle.model_files.specs.wire.Reading.{t_version, t_auth, t_attach, t_flush, t_walk, t_open, t_create, t_read, t_write, t_clunk, t_remove, t_stat, t_wstat};
ghost use Rattle.r9_wire.specs.View.{t_of};
ghost use Rattle.r9_wire.specs.Gives.{Gives};

use crate::fields::{
    FieldFault, long_at, names_at, short_at, string_at, u8_at, u16_at, u32_at, u64_at,
};
use crate::message::Tmsg;
use r9_text::Bytes;
use std::alloc::Global;

#[tactic(auto, unfolding(model_files::specs::wire::Reading::t_version))]
pub fn version(alloc: Global, tag: u16, body: &[u8]) -> Result<Tmsg, FieldFault>
    ensures { Gives t_of result (t_version tag body.now) }
{
    let (msize, rest) = u32_at(body)?;
    let (version, rest) = string_at(rest)?;
    if !rest.is_empty() {
        return Err(FieldFault::Malformed);
    }
    let version = Bytes::from_slice(alloc, version)?;
    Ok(Tmsg::Version {
        tag,
        msize,
        version,
    })
}

#[tactic(auto, unfolding(model_files::specs::wire::Reading::t_auth))]
pub fn auth(alloc: Global, tag: u16, body: &[u8]) -> Result<Tmsg, FieldFault>
    ensures { Gives t_of result (t_auth tag body.now) }
{
    let (afid, rest) = u32_at(body)?;
    let (uname, rest) = string_at(rest)?;
    let (aname, rest) = string_at(rest)?;
    if !rest.is_empty() {
        return Err(FieldFault::Malformed);
    }
    let uname = Bytes::from_slice(alloc, uname)?;
    let aname = Bytes::from_slice(alloc, aname)?;
    Ok(Tmsg::Auth {
        tag,
        afid,
        uname,
        aname,
    })
}

#[tactic(auto, unfolding(model_files::specs::wire::Reading::t_attach))]
pub fn attach(alloc: Global, tag: u16, body: &[u8]) -> Result<Tmsg, FieldFault>
    ensures { Gives t_of result (t_attach tag body.now) }
{
    let (fid, rest) = u32_at(body)?;
    let (afid, rest) = u32_at(rest)?;
    let (uname, rest) = string_at(rest)?;
    let (aname, rest) = string_at(rest)?;
    if !rest.is_empty() {
        return Err(FieldFault::Malformed);
    }
    let uname = Bytes::from_slice(alloc, uname)?;
    let aname = Bytes::from_slice(alloc, aname)?;
    Ok(Tmsg::Attach {
        tag,
        fid,
        afid,
        uname,
        aname,
    })
}

#[tactic(auto, unfolding(model_files::specs::wire::Reading::t_flush))]
pub fn flush(tag: u16, body: &[u8]) -> Result<Tmsg, FieldFault>
    ensures { Gives t_of result (t_flush tag body.now) }
{
    let (oldtag, rest) = u16_at(body)?;
    if !rest.is_empty() {
        return Err(FieldFault::Malformed);
    }
    Ok(Tmsg::Flush { tag, oldtag })
}

#[tactic(auto, unfolding(model_files::specs::wire::Reading::t_walk))]
pub fn walk(alloc: Global, tag: u16, body: &[u8]) -> Result<Tmsg, FieldFault>
    ensures { Gives t_of result (t_walk tag body.now) }
{
    let (fid, rest) = u32_at(body)?;
    let (newfid, rest) = u32_at(rest)?;
    let (names, rest) = names_at(alloc, rest)?;
    if !rest.is_empty() {
        return Err(FieldFault::Malformed);
    }
    Ok(Tmsg::Walk {
        tag,
        fid,
        newfid,
        names,
    })
}

#[tactic(auto, unfolding(model_files::specs::wire::Reading::t_open))]
pub fn open(tag: u16, body: &[u8]) -> Result<Tmsg, FieldFault>
    ensures { Gives t_of result (t_open tag body.now) }
{
    let (fid, rest) = u32_at(body)?;
    let (mode, rest) = u8_at(rest)?;
    if !rest.is_empty() {
        return Err(FieldFault::Malformed);
    }
    Ok(Tmsg::Open { tag, fid, mode })
}

#[tactic(auto, unfolding(model_files::specs::wire::Reading::t_create))]
pub fn create(alloc: Global, tag: u16, body: &[u8]) -> Result<Tmsg, FieldFault>
    ensures { Gives t_of result (t_create tag body.now) }
{
    let (fid, rest) = u32_at(body)?;
    let (name, rest) = string_at(rest)?;
    let (perm, rest) = u32_at(rest)?;
    let (mode, rest) = u8_at(rest)?;
    if !rest.is_empty() {
        return Err(FieldFault::Malformed);
    }
    let name = Bytes::from_slice(alloc, name)?;
    Ok(Tmsg::Create {
        tag,
        fid,
        name,
        perm,
        mode,
    })
}

#[tactic(auto, unfolding(model_files::specs::wire::Reading::t_read))]
pub fn read(tag: u16, body: &[u8]) -> Result<Tmsg, FieldFault>
    ensures { Gives t_of result (t_read tag body.now) }
{
    let (fid, rest) = u32_at(body)?;
    let (offset, rest) = u64_at(rest)?;
    let (count, rest) = u32_at(rest)?;
    if !rest.is_empty() {
        return Err(FieldFault::Malformed);
    }
    Ok(Tmsg::Read {
        tag,
        fid,
        offset,
        count,
    })
}

#[tactic(auto, unfolding(model_files::specs::wire::Reading::t_write))]
pub fn write(alloc: Global, tag: u16, body: &[u8]) -> Result<Tmsg, FieldFault>
    ensures { Gives t_of result (t_write tag body.now) }
{
    let (fid, rest) = u32_at(body)?;
    let (offset, rest) = u64_at(rest)?;
    let (bytes, rest) = long_at(rest)?;
    if !rest.is_empty() {
        return Err(FieldFault::Malformed);
    }
    let bytes = Bytes::from_slice(alloc, bytes)?;
    Ok(Tmsg::Write {
        tag,
        fid,
        offset,
        bytes,
    })
}

#[tactic(auto, unfolding(model_files::specs::wire::Reading::t_clunk))]
pub fn clunk(tag: u16, body: &[u8]) -> Result<Tmsg, FieldFault>
    ensures { Gives t_of result (t_clunk tag body.now) }
{
    let (fid, rest) = u32_at(body)?;
    if !rest.is_empty() {
        return Err(FieldFault::Malformed);
    }
    Ok(Tmsg::Clunk { tag, fid })
}

#[tactic(auto, unfolding(model_files::specs::wire::Reading::t_remove))]
pub fn remove(tag: u16, body: &[u8]) -> Result<Tmsg, FieldFault>
    ensures { Gives t_of result (t_remove tag body.now) }
{
    let (fid, rest) = u32_at(body)?;
    if !rest.is_empty() {
        return Err(FieldFault::Malformed);
    }
    Ok(Tmsg::Remove { tag, fid })
}

#[tactic(auto, unfolding(model_files::specs::wire::Reading::t_stat))]
pub fn stat(tag: u16, body: &[u8]) -> Result<Tmsg, FieldFault>
    ensures { Gives t_of result (t_stat tag body.now) }
{
    let (fid, rest) = u32_at(body)?;
    if !rest.is_empty() {
        return Err(FieldFault::Malformed);
    }
    Ok(Tmsg::Stat { tag, fid })
}

#[tactic(auto, unfolding(model_files::specs::wire::Reading::t_wstat))]
pub fn wstat(alloc: Global, tag: u16, body: &[u8]) -> Result<Tmsg, FieldFault>
    ensures { Gives t_of result (t_wstat tag body.now) }
{
    let (fid, rest) = u32_at(body)?;
    let (stat, rest) = short_at(rest)?;
    if !rest.is_empty() {
        return Err(FieldFault::Malformed);
    }
    let stat = Bytes::from_slice(alloc, stat)?;
    Ok(Tmsg::Wstat { tag, fid, stat })
}
