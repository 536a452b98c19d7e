//! Fields at the end of bytes. For want of memory a part of a field may be there.

ghost use Rattle.std.specs.Prelude.{◌≡◌, ◌<◌, ◌≤◌, ◌+◌, ◌*◌, ◌^◌, ◌++◌, [], ◌∷◌, length, map, OnOk, OnErr};
ghost use Rattle.std.specs.List.{All, flat_map};
ghost use Rattle.model_text.specs.text.Number.{two_bytes, four_bytes, eight_bytes};
ghost use Rattle.model_files.specs.wire.Spelling.{sized, string, IsString, qid_bytes, names_bytes, qids_bytes};
ghost use Rattle.r9_wire.specs.Qid.{qid_of};

use crate::lists::{Names, Qids};
use crate::message::Qid;
use r9_memory::Memory;
use r9_text::Bytes;

/// Adds a number of two bytes.
pub fn put_u16(out: &mut Bytes, n: u16) -> Result<(), Memory>
    ensures put { OnOk result (out.new ≡ out.old ++ two_bytes n) }
    ensures len { OnOk result (length out.new ≡ length out.old + 2) }
    ensures err { OnErr result (out.new ≡ out.old) }
{
    out.push_all(&n.to_le_bytes())
}

/// Adds a number of four bytes.
pub fn put_u32(out: &mut Bytes, n: u32) -> Result<(), Memory>
    ensures put { OnOk result (out.new ≡ out.old ++ four_bytes n) }
    ensures len { OnOk result (length out.new ≡ length out.old + 4) }
    ensures err { OnErr result (out.new ≡ out.old) }
{
    out.push_all(&n.to_le_bytes())
}

/// Adds a number of eight bytes.
pub fn put_u64(out: &mut Bytes, n: u64) -> Result<(), Memory>
    ensures put { OnOk result (out.new ≡ out.old ++ eight_bytes n) }
    ensures len { OnOk result (length out.new ≡ length out.old + 8) }
{
    out.push_all(&n.to_le_bytes())
}

/// Adds bytes, and before them their length in two bytes.
#[tactic(auto, unfolding(model_files::specs::wire::Spelling::sized))]
pub fn put_sized(out: &mut Bytes, bytes: &[u8]) -> Result<(), Memory>
    requires { length bytes.now < 2 ^ 16 }
    ensures put { OnOk result (out.new ≡ out.old ++ sized bytes.now) }
    ensures len { OnOk result (length out.new ≡ length out.old + 2 + length bytes.now) }
{
    put_u16(out, bytes.len() as u16)?;
    out.push_all(bytes)
}

/// Adds a qid.
#[tactic(auto, unfolding(model_files::specs::wire::Spelling::qid_bytes))]
pub fn put_qid(out: &mut Bytes, qid: Qid) -> Result<(), Memory>
    ensures put { OnOk result (out.new ≡ out.old ++ qid_bytes (qid_of qid)) }
    ensures len { OnOk result (length out.new ≡ length out.old + 13) }
{
    let vers = qid.vers.to_le_bytes();
    let path = qid.path.to_le_bytes();
    out.push_all(&[
        qid.kind, vers[0], vers[1], vers[2], vers[3], path[0], path[1], path[2], path[3], path[4],
        path[5], path[6], path[7],
    ])
}

/// Adds qids one after the other.
fn put_each_qid(out: &mut Bytes, qids: &[Qid]) -> Result<(), Memory>
    ensures put { OnOk result (out.new ≡ out.old ++ flat_map qid_bytes (map qid_of qids.now)) }
    ensures len { OnOk result (length out.new ≡ length out.old + 13 * length qids.now) }
{
    for qid in qids {
        put_qid(out, *qid)?;
    }
    Ok(())
}

/// Adds qids, and before them their count.
pub fn put_qids(out: &mut Bytes, qids: &Qids) -> Result<(), Memory>
    requires { length qids.now ≤ 16 }
    ensures put { OnOk result (out.new ≡ out.old ++ qids_bytes qids.now) }
    ensures len { OnOk result (length out.new ≡ length out.old + 2 + 13 * length qids.now) }
{
    put_u16(out, qids.len() as u16)?;
    put_each_qid(out, qids.as_slice())
}

/// Adds strings one after the other.
fn put_each_name(out: &mut Bytes, names: &[Bytes]) -> Result<(), Memory>
    requires { All IsString names.now }
    ensures put { OnOk result (out.new ≡ out.old ++ flat_map string names.now) }
    ensures len { OnOk result (length out.new ≤ length out.old + 65538 * length names.now) }
{
    for name in names {
        put_sized(out, name.as_slice())?;
    }
    Ok(())
}

/// Adds names, and before them their count.
pub fn put_names(out: &mut Bytes, names: &Names) -> Result<(), Memory>
    requires few { length names.now ≤ 16 }
    requires texts { All IsString names.now }
    ensures put { OnOk result (out.new ≡ out.old ++ names_bytes names.now) }
    ensures len { OnOk result (length out.new ≤ length out.old + 2 ^ 21) }
{
    put_u16(out, names.len() as u16)?;
    put_each_name(out, names.as_slice())
}
