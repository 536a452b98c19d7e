//! The fields behind the letters whose messages have no list. None where the bytes end too early.

ghost use Rattle.std.specs.Prelude.{◌≡◌, IfSome};
ghost use Rattle.std.specs.Option.{option_map};
ghost use Rattle.model_draw_parts.specs.dmsg.Reading.{low_b, up_a, low_c, low_d, up_d, low_f, up_f, low_i, low_l, low_o, up_o, low_r, up_s, low_y};
ghost use Rattle.r9_dmsg.specs.View.{message_of, IsNearMessage};

use crate::fields::{i8_at, point_at, rect_at, u8_at, u16_at, u32_at};
use crate::message::Dmsg;

#[inline]
#[tactic(auto, unfolding(model_draw_parts::specs::dmsg::Reading::low_b))]
pub(crate) fn low_b(bytes: &[u8]) -> Option<Dmsg>
    ensures near { IfSome result IsNearMessage }
    ensures message { option_map message_of result ≡ option_map (λ x. x.0) (low_b bytes.now) }
{
    let (id, rest) = u32_at(bytes)?;
    let (screenid, rest) = u32_at(rest)?;
    let (refresh, rest) = u8_at(rest)?;
    let (chan, rest) = u32_at(rest)?;
    let (repl, rest) = u8_at(rest)?;
    let (r, rest) = rect_at(rest)?;
    let (clipr, rest) = rect_at(rest)?;
    let (color, _) = u32_at(rest)?;
    Some(Dmsg::LowB {
        id,
        screenid,
        refresh,
        chan,
        repl,
        r,
        clipr,
        color,
    })
}

#[inline]
#[tactic(auto, unfolding(model_draw_parts::specs::dmsg::Reading::up_a))]
pub(crate) fn up_a(bytes: &[u8]) -> Option<Dmsg>
    ensures near { IfSome result IsNearMessage }
    ensures message { option_map message_of result ≡ option_map (λ x. x.0) (up_a bytes.now) }
{
    let (id, rest) = u32_at(bytes)?;
    let (imageid, rest) = u32_at(rest)?;
    let (fillid, rest) = u32_at(rest)?;
    let (public, _) = u8_at(rest)?;
    Some(Dmsg::UpA {
        id,
        imageid,
        fillid,
        public,
    })
}

#[inline]
#[tactic(auto, unfolding(model_draw_parts::specs::dmsg::Reading::low_c))]
pub(crate) fn low_c(bytes: &[u8]) -> Option<Dmsg>
    ensures near { IfSome result IsNearMessage }
    ensures message { option_map message_of result ≡ option_map (λ x. x.0) (low_c bytes.now) }
{
    let (dstid, rest) = u32_at(bytes)?;
    let (repl, rest) = u8_at(rest)?;
    let (clipr, _) = rect_at(rest)?;
    Some(Dmsg::LowC { dstid, repl, clipr })
}

#[inline]
#[tactic(auto, unfolding(model_draw_parts::specs::dmsg::Reading::low_d))]
pub(crate) fn low_d(bytes: &[u8]) -> Option<Dmsg>
    ensures near { IfSome result IsNearMessage }
    ensures message { option_map message_of result ≡ option_map (λ x. x.0) (low_d bytes.now) }
{
    let (dstid, rest) = u32_at(bytes)?;
    let (srcid, rest) = u32_at(rest)?;
    let (maskid, rest) = u32_at(rest)?;
    let (dstr, rest) = rect_at(rest)?;
    let (srcp, rest) = point_at(rest)?;
    let (maskp, _) = point_at(rest)?;
    Some(Dmsg::LowD {
        dstid,
        srcid,
        maskid,
        dstr,
        srcp,
        maskp,
    })
}

#[inline]
#[tactic(auto, unfolding(model_draw_parts::specs::dmsg::Reading::up_d))]
pub(crate) fn up_d(bytes: &[u8]) -> Option<Dmsg>
    ensures near { IfSome result IsNearMessage }
    ensures message { option_map message_of result ≡ option_map (λ x. x.0) (up_d bytes.now) }
{
    let (debug, _) = u8_at(bytes)?;
    Some(Dmsg::UpD { debug })
}

#[inline]
#[tactic(auto, unfolding(model_draw_parts::specs::dmsg::Reading::low_f))]
pub(crate) fn low_f(bytes: &[u8]) -> Option<Dmsg>
    ensures near { IfSome result IsNearMessage }
    ensures message { option_map message_of result ≡ option_map (λ x. x.0) (low_f bytes.now) }
{
    let (id, _) = u32_at(bytes)?;
    Some(Dmsg::LowF { id })
}

#[inline]
#[tactic(auto, unfolding(model_draw_parts::specs::dmsg::Reading::up_f))]
pub(crate) fn up_f(bytes: &[u8]) -> Option<Dmsg>
    ensures near { IfSome result IsNearMessage }
    ensures message { option_map message_of result ≡ option_map (λ x. x.0) (up_f bytes.now) }
{
    let (id, _) = u32_at(bytes)?;
    Some(Dmsg::UpF { id })
}

#[inline]
#[tactic(auto, unfolding(model_draw_parts::specs::dmsg::Reading::low_i))]
pub(crate) fn low_i(bytes: &[u8]) -> Option<Dmsg>
    ensures near { IfSome result IsNearMessage }
    ensures message { option_map message_of result ≡ option_map (λ x. x.0) (low_i bytes.now) }
{
    let (id, rest) = u32_at(bytes)?;
    let (n, rest) = u32_at(rest)?;
    let (ascent, _) = u8_at(rest)?;
    Some(Dmsg::LowI { id, n, ascent })
}

#[inline]
#[tactic(auto, unfolding(model_draw_parts::specs::dmsg::Reading::low_l))]
pub(crate) fn low_l(bytes: &[u8]) -> Option<Dmsg>
    ensures near { IfSome result IsNearMessage }
    ensures message { option_map message_of result ≡ option_map (λ x. x.0) (low_l bytes.now) }
{
    let (cacheid, rest) = u32_at(bytes)?;
    let (srcid, rest) = u32_at(rest)?;
    let (index, rest) = u16_at(rest)?;
    let (r, rest) = rect_at(rest)?;
    let (sp, rest) = point_at(rest)?;
    let (left, rest) = i8_at(rest)?;
    let (width, _) = u8_at(rest)?;
    Some(Dmsg::LowL {
        cacheid,
        srcid,
        index,
        r,
        sp,
        left,
        width,
    })
}

#[inline]
#[tactic(auto, unfolding(model_draw_parts::specs::dmsg::Reading::low_o))]
pub(crate) fn low_o(bytes: &[u8]) -> Option<Dmsg>
    ensures near { IfSome result IsNearMessage }
    ensures message { option_map message_of result ≡ option_map (λ x. x.0) (low_o bytes.now) }
{
    let (id, rest) = u32_at(bytes)?;
    let (rmin, rest) = point_at(rest)?;
    let (scr, _) = point_at(rest)?;
    Some(Dmsg::LowO { id, rmin, scr })
}

#[inline]
#[tactic(auto, unfolding(model_draw_parts::specs::dmsg::Reading::up_o))]
pub(crate) fn up_o(bytes: &[u8]) -> Option<Dmsg>
    ensures near { IfSome result IsNearMessage }
    ensures message { option_map message_of result ≡ option_map (λ x. x.0) (up_o bytes.now) }
{
    let (op, _) = u8_at(bytes)?;
    Some(Dmsg::UpO { op })
}

#[inline]
#[tactic(auto, unfolding(model_draw_parts::specs::dmsg::Reading::low_r))]
pub(crate) fn low_r(bytes: &[u8]) -> Option<Dmsg>
    ensures near { IfSome result IsNearMessage }
    ensures message { option_map message_of result ≡ option_map (λ x. x.0) (low_r bytes.now) }
{
    let (id, rest) = u32_at(bytes)?;
    let (r, _) = rect_at(rest)?;
    Some(Dmsg::LowR { id, r })
}

#[inline]
#[tactic(auto, unfolding(model_draw_parts::specs::dmsg::Reading::up_s))]
pub(crate) fn up_s(bytes: &[u8]) -> Option<Dmsg>
    ensures near { IfSome result IsNearMessage }
    ensures message { option_map message_of result ≡ option_map (λ x. x.0) (up_s bytes.now) }
{
    let (id, rest) = u32_at(bytes)?;
    let (chan, _) = u32_at(rest)?;
    Some(Dmsg::UpS { id, chan })
}

#[inline]
#[tactic(auto, unfolding(model_draw_parts::specs::dmsg::Reading::low_y))]
pub(crate) fn low_y(bytes: &[u8]) -> Option<Dmsg>
    ensures near { IfSome result IsNearMessage }
    ensures message { option_map message_of result ≡ option_map (λ x. x.0) (low_y bytes.now) }
{
    let (id, rest) = u32_at(bytes)?;
    let (r, _) = rect_at(rest)?;
    Some(Dmsg::LowY { id, r })
}
