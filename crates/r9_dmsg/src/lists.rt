//! The messages that have a list, with memory of their own. None where the bytes end too early; want of memory only where
//! they do not.

ghost use Rattle.std.specs.Prelude.{◌≡◌, ◌≤◌, ◌*◌, length, IfOk, IfSome, OnErr, IsSome};
ghost use Rattle.std.specs.Int.{w16, w32};
ghost use Rattle.std.specs.Option.{option_map};
ghost use Rattle.model_draw_parts.specs.dmsg.Reading.{numbers_of, up_n, low_n, low_s, low_t, low_x};
ghost use Rattle.r9_dmsg.specs.View.{message_of, IsNearMessage};
ghost use Rattle.r9_dmsg.specs.Listed.{writing_message};

use crate::fields::{split_u16, split_u32};
use crate::message::Dmsg;
use crate::naming::{NameUse, Naming, name_use_at, naming_at};
use crate::restacking::restacking_at;
use crate::writing::{Background, Writing, string_at, string_on_background_at};
use r9_memory::Memory;
use r9_text::{Bytes, Numbers};
use std::alloc::Global;

fn shorts(alloc: Global, count: usize, bytes: &[u8]) -> Result<Numbers, Memory>
    requires { count * 2 ≤ length bytes.now }
    ensures { IfOk result (λ items. items ≡ numbers_of w16 count bytes.now) }
{
    let mut items = Vec::with_capacity(alloc, count)?;
    let mut rest = bytes;
    let mut left = count;
    'numbers: while left > 0 {
        let (number, behind) = split_u16(rest);
        items.push(u32::from(number))?;
        rest = behind;
        left -= 1;
    }
    Ok(items.into())
}

fn longs(alloc: Global, count: usize, bytes: &[u8]) -> Result<Numbers, Memory>
    requires { count * 4 ≤ length bytes.now }
    ensures { IfOk result (λ items. items ≡ numbers_of w32 count bytes.now) }
{
    let mut items = Vec::with_capacity(alloc, count)?;
    let mut rest = bytes;
    let mut left = count;
    'numbers: while left > 0 {
        let (number, behind) = split_u32(rest);
        items.push(number)?;
        rest = behind;
        left -= 1;
    }
    Ok(items.into())
}

fn written(alloc: Global, writing: &Writing<'_>) -> Result<Dmsg, Memory>
    ensures near { IfOk result IsNearMessage }
    ensures message { IfOk result (λ m. message_of m ≡ writing_message writing.now) }
{
    let indices = shorts(alloc, writing.len(), writing.indices)?;
    let Writing {
        dstid,
        srcid,
        fontid,
        p,
        clipr,
        sp,
        background,
        ..
    } = *writing;
    match background {
        None => Ok(Dmsg::LowS {
            dstid,
            srcid,
            fontid,
            p,
            clipr,
            sp,
            indices,
        }),
        Some(Background { id: bgid, p: bgp }) => Ok(Dmsg::LowX {
            dstid,
            srcid,
            fontid,
            p,
            clipr,
            sp,
            bgid,
            bgp,
            indices,
        }),
    }
}

pub(crate) fn up_n(alloc: Global, bytes: &[u8]) -> Result<Option<Dmsg>, Memory>
    ensures near { IfOk result (λ m. IfSome m IsNearMessage) }
    ensures read { IfOk result (λ m. option_map message_of m ≡ option_map (λ x. x.0) (up_n bytes.now)) }
    ensures whole { OnErr result (IsSome (up_n bytes.now)) }
{
    let Some(Naming { id, tied, name }) = naming_at(bytes) else {
        return Ok(None);
    };
    let name = Bytes::from_slice(alloc, name)?;
    Ok(Some(Dmsg::UpN { id, tied, name }))
}

pub(crate) fn low_n(alloc: Global, bytes: &[u8]) -> Result<Option<Dmsg>, Memory>
    ensures near { IfOk result (λ m. IfSome m IsNearMessage) }
    ensures read { IfOk result (λ m. option_map message_of m ≡ option_map (λ x. x.0) (low_n bytes.now)) }
    ensures whole { OnErr result (IsSome (low_n bytes.now)) }
{
    let Some(NameUse { id, name }) = name_use_at(bytes) else {
        return Ok(None);
    };
    let name = Bytes::from_slice(alloc, name)?;
    Ok(Some(Dmsg::LowN { id, name }))
}

pub(crate) fn low_s(alloc: Global, bytes: &[u8]) -> Result<Option<Dmsg>, Memory>
    ensures near { IfOk result (λ m. IfSome m IsNearMessage) }
    ensures read { IfOk result (λ m. option_map message_of m ≡ option_map (λ x. x.0) (low_s bytes.now)) }
    ensures whole { OnErr result (IsSome (low_s bytes.now)) }
{
    let Some(writing) = string_at(bytes) else {
        return Ok(None);
    };
    Ok(Some(written(alloc, &writing)?))
}

pub(crate) fn low_t(alloc: Global, bytes: &[u8]) -> Result<Option<Dmsg>, Memory>
    ensures near { IfOk result (λ m. IfSome m IsNearMessage) }
    ensures read { IfOk result (λ m. option_map message_of m ≡ option_map (λ x. x.0) (low_t bytes.now)) }
    ensures whole { OnErr result (IsSome (low_t bytes.now)) }
{
    let Some(restacking) = restacking_at(bytes) else {
        return Ok(None);
    };
    let ids = longs(alloc, restacking.len(), restacking.ids)?;
    let top = restacking.top;
    Ok(Some(Dmsg::LowT { top, ids }))
}

pub(crate) fn low_x(alloc: Global, bytes: &[u8]) -> Result<Option<Dmsg>, Memory>
    ensures near { IfOk result (λ m. IfSome m IsNearMessage) }
    ensures read { IfOk result (λ m. option_map message_of m ≡ option_map (λ x. x.0) (low_x bytes.now)) }
    ensures whole { OnErr result (IsSome (low_x bytes.now)) }
{
    let Some(writing) = string_on_background_at(bytes) else {
        return Ok(None);
    };
    Ok(Some(written(alloc, &writing)?))
}
