//! Replies, each written whole into bytes of its own.

ghost use Rattle.std.specs.Prelude.{◌≡◌, ◌<◌, ◌≤◌, ◌+◌, ◌^◌, ◌++◌, ◌∷◌, [], length, IfOk};
ghost use Rattle.model_text.specs.text.Number.{two_bytes, four_bytes};
ghost use Rattle.model_files.specs.wire.Spelling.{sized, string, qid_bytes, qids_bytes, stat_bytes, message, spelling_of_r, FitsR, FitsStat};
ghost use Rattle.r9_wire.specs.Qid.{qid_of};
ghost use Rattle.r9_wire.specs.View.{r_of, stat_of};

use crate::lists::Qids;
use crate::message::{Qid, Rmsg, Stat};
use crate::put_stat::{put_stat, stat_len};
use crate::puts::{put_qid, put_qids, put_sized, put_u16, put_u32};
use r9_memory::Memory;
use r9_text::Bytes;
use std::alloc::Global;

/// Size, kind and tag of a message whose body has so many bytes, for which there is room behind them.
fn head(alloc: Global, kind: u8, tag: u16, len: usize) -> Result<Bytes, Memory>
    requires { 7 + len < 2 ^ 32 }
    ensures spelled { IfOk result (λ b. b ≡ four_bytes (7 + len) ++ kind ∷ two_bytes tag) }
    ensures len { IfOk result (λ b. length b ≡ 7) }
{
    let size = (7 + len as u32).to_le_bytes();
    let tag = tag.to_le_bytes();
    let mut out = Bytes::new(alloc);
    out.reserve(7 + len)?;
    out.push_all(&[size[0], size[1], size[2], size[3], kind, tag[0], tag[1]])?;
    Ok(out)
}

/// msize[4] version[s]
fn version_message(alloc: Global, tag: u16, msize: u32, version: &[u8]) -> Result<Bytes, Memory>
    requires { length version.now < 2 ^ 16 }
    ensures { IfOk result (λ b. b ≡ message 101 tag (four_bytes msize ++ string version.now)) }
{
    let mut out = head(alloc, 101, tag, 6 + version.len())?;
    put_u32(&mut out, msize)?;
    put_sized(&mut out, version)?;
    Ok(out)
}

/// qid[13]
fn attach_message(alloc: Global, tag: u16, qid: Qid) -> Result<Bytes, Memory>
    ensures { IfOk result (λ b. b ≡ message 105 tag (qid_bytes (qid_of qid))) }
{
    let mut out = head(alloc, 105, tag, 13)?;
    put_qid(&mut out, qid)?;
    Ok(out)
}

/// ename[s]
fn error_message(alloc: Global, tag: u16, ename: &[u8]) -> Result<Bytes, Memory>
    requires { length ename.now < 2 ^ 16 }
    ensures { IfOk result (λ b. b ≡ message 107 tag (string ename.now)) }
{
    let mut out = head(alloc, 107, tag, 2 + ename.len())?;
    put_sized(&mut out, ename)?;
    Ok(out)
}

/// nwqid[2] nwqid*(qid[13])
fn walk_message(alloc: Global, tag: u16, qids: &Qids) -> Result<Bytes, Memory>
    requires { length qids.now ≤ 16 }
    ensures { IfOk result (λ b. b ≡ message 111 tag (qids_bytes qids.now)) }
{
    let mut out = head(alloc, 111, tag, 2 + 13 * qids.len())?;
    put_qids(&mut out, qids)?;
    Ok(out)
}

/// qid[13] iounit[4]
fn open_message(alloc: Global, tag: u16, qid: Qid, iounit: u32) -> Result<Bytes, Memory>
    ensures { IfOk result (λ b. b ≡ message 113 tag (qid_bytes (qid_of qid) ++ four_bytes iounit)) }
{
    let mut out = head(alloc, 113, tag, 17)?;
    put_qid(&mut out, qid)?;
    put_u32(&mut out, iounit)?;
    Ok(out)
}

/// count[4] and that many bytes
fn read_message(alloc: Global, tag: u16, bytes: &[u8]) -> Result<Bytes, Memory>
    requires { 11 + length bytes.now < 2 ^ 32 }
    ensures { IfOk result (λ b. b ≡ message 117 tag (four_bytes (length bytes.now) ++ bytes.now)) }
{
    let mut out = head(alloc, 117, tag, 4 + bytes.len())?;
    put_u32(&mut out, bytes.len() as u32)?;
    out.push_all(bytes)?;
    Ok(out)
}

/// count[4]
fn write_message(alloc: Global, tag: u16, count: u32) -> Result<Bytes, Memory>
    ensures { IfOk result (λ b. b ≡ message 119 tag (four_bytes count)) }
{
    let mut out = head(alloc, 119, tag, 4)?;
    put_u32(&mut out, count)?;
    Ok(out)
}

/// n[2] and a stat of n bytes
#[tactic(auto, using(crate::proofs::Heads::twice_sized))]
fn stat_message(alloc: Global, tag: u16, s: &Stat) -> Result<Bytes, Memory>
    requires fits { FitsStat (stat_of s.now) }
    requires short { length (stat_bytes (stat_of s.now)) < 2 ^ 16 }
    ensures { IfOk result (λ b. b ≡ message 125 tag (sized (stat_bytes (stat_of s.now)))) }
{
    let len = stat_len(s);
    let mut out = head(alloc, 125, tag, 2 + len)?;
    put_u16(&mut out, len as u16)?;
    put_stat(&mut out, s)?;
    Ok(out)
}

/// A message without a body.
fn bare_message(alloc: Global, kind: u8, tag: u16) -> Result<Bytes, Memory>
    ensures { IfOk result (λ b. b ≡ message kind tag []) }
{
    head(alloc, kind, tag, 0)
}

/// The one spelling of a reply.
pub fn reply_bytes(alloc: Global, m: &Rmsg) -> Result<Bytes, Memory>
    requires { FitsR (r_of m.now) }
    ensures { IfOk result (λ b. b ≡ spelling_of_r (r_of m.now)) }
{
    match m {
        Rmsg::Version {
            tag,
            msize,
            version,
        } => version_message(alloc, *tag, *msize, version.as_slice()),
        Rmsg::Attach { tag, qid } => attach_message(alloc, *tag, *qid),
        Rmsg::Error { tag, ename } => error_message(alloc, *tag, ename.as_slice()),
        Rmsg::Flush { tag } => bare_message(alloc, 109, *tag),
        Rmsg::Walk { tag, qids } => walk_message(alloc, *tag, qids),
        Rmsg::Open { tag, qid, iounit } => open_message(alloc, *tag, *qid, *iounit),
        Rmsg::Read { tag, bytes } => read_message(alloc, *tag, bytes.as_slice()),
        Rmsg::Write { tag, count } => write_message(alloc, *tag, *count),
        Rmsg::Clunk { tag } => bare_message(alloc, 121, *tag),
        Rmsg::Stat { tag, stat } => stat_message(alloc, *tag, stat.as_ref()),
    }
}
