//! What a stat spells.

ghost use Rattle.std.specs.Prelude.{◌≡◌, ◌<◌, ◌+◌, ◌^◌, ◌++◌, length, OnOk, IfOk};
ghost use Rattle.model_text.specs.text.Number.{two_bytes, four_bytes, eight_bytes};
ghost use Rattle.model_files.specs.wire.Spelling.{sized, qid_bytes, stat_body, stat_bytes, FitsStat};
ghost use Rattle.r9_wire.specs.Qid.{qid_of};
ghost use Rattle.r9_wire.specs.View.{stat_of};

use crate::message::Stat;
use crate::puts::{put_qid, put_sized, put_u16, put_u32, put_u64};
use r9_memory::Memory;
use r9_text::Bytes;
use std::alloc::Global;

/// How many bytes the numbers of a stat and the lengths of its four strings have.
const FIXED: usize = 47;

/// How many bytes stand behind the size of a stat.
#[tactic(auto, unfolding(model_files::specs::wire::Spelling::stat_body, model_files::specs::wire::Spelling::sized, model_files::specs::wire::Spelling::qid_bytes))]
fn body_len(s: &Stat) -> usize
    requires { FitsStat (stat_of s.now) }
    ensures len { result ≡ length (stat_body (stat_of s.now)) }
    ensures short { result < 2 ^ 16 }
{
    FIXED + s.name.len() + s.uid.len() + s.gid.len() + s.muid.len()
}

/// Adds the numbers of a stat.
fn put_numbers(out: &mut Bytes, s: &Stat) -> Result<(), Memory>
    ensures { OnOk result (out.new ≡ out.old ++ two_bytes s.now.kind ++ four_bytes s.now.dev ++ qid_bytes (qid_of s.now.qid) ++ four_bytes s.now.mode ++ four_bytes s.now.atime ++ four_bytes s.now.mtime ++ eight_bytes s.now.length) }
{
    put_u16(out, s.kind)?;
    put_u32(out, s.dev)?;
    put_qid(out, s.qid)?;
    put_u32(out, s.mode)?;
    put_u32(out, s.atime)?;
    put_u32(out, s.mtime)?;
    put_u64(out, s.length)
}

/// Adds what stands behind the size of a stat.
#[tactic(auto, unfolding(model_files::specs::wire::Spelling::stat_body))]
fn put_body(out: &mut Bytes, s: &Stat) -> Result<(), Memory>
    requires { FitsStat (stat_of s.now) }
    ensures { OnOk result (out.new ≡ out.old ++ stat_body (stat_of s.now)) }
{
    put_numbers(out, s)?;
    put_sized(out, s.name.as_slice())?;
    put_sized(out, s.uid.as_slice())?;
    put_sized(out, s.gid.as_slice())?;
    put_sized(out, s.muid.as_slice())
}

/// How many bytes a stat has with its size before it.
#[tactic(auto, unfolding(model_files::specs::wire::Spelling::sized))]
pub fn stat_len(s: &Stat) -> usize
    requires { FitsStat (stat_of s.now) }
    ensures { result ≡ length (stat_bytes (stat_of s.now)) }
{
    2 + body_len(s)
}

/// Adds a stat with its size before it.
#[tactic(auto, unfolding(model_files::specs::wire::Spelling::sized))]
pub fn put_stat(out: &mut Bytes, s: &Stat) -> Result<(), Memory>
    requires { FitsStat (stat_of s.now) }
    ensures { OnOk result (out.new ≡ out.old ++ stat_bytes (stat_of s.now)) }
{
    put_u16(out, body_len(s) as u16)?;
    put_body(out, s)
}

/// A stat with its size before it.
pub fn sized_stat(alloc: Global, s: &Stat) -> Result<Bytes, Memory>
    requires { FitsStat (stat_of s.now) }
    ensures { IfOk result (λ b. b ≡ stat_bytes (stat_of s.now)) }
{
    let mut out = Bytes::new(alloc);
    out.reserve(stat_len(s))?;
    put_stat(&mut out, s)?;
    Ok(out)
}
