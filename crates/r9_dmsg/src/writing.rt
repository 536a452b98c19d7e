//! What an `s` or an `x` asks for, borrowed from its bytes.

ghost use Rattle.std.specs.Prelude.{◌≡◌, ◌≤◌, ◌<◌, ◌/◌, ◌%◌, ◌^◌, length, slice_index, IfSome};
ghost use Rattle.std.specs.Int.{w16};
ghost use Rattle.std.specs.Option.{option_map};
ghost use Rattle.r9_geom.specs.Geometry.{IsNearBy};
ghost use Rattle.model_draw_parts.specs.dmsg.Reading.{low_s, low_x, numbers, numbers_of, string_head, writing_of};
ghost use Rattle.r9_dmsg.specs.Head.{head_of, IsNearHead};
ghost use Rattle.r9_dmsg.specs.Listed.{indices_of, writing_len, writing_message, writing_in, IsNearWriting};

use crate::fields::{bytes_at, point_at, rect_at, split_u16, u16_at, u32_at};
use r9_geom::{Point, Rect};

/// What an `s` or an `x` asks for: a string drawn, on a background where the letter is `x`. The indices of its characters
/// stand each in two bytes, the low one first. Coordinates are in pixels.
#[derive(Clone, Copy, Debug)]
pub struct Writing<'a> {
    pub dstid: u32,
    pub srcid: u32,
    pub fontid: u32,
    pub p: Point,
    pub clipr: Rect,
    pub sp: Point,
    pub background: Option<Background>,
    pub indices: &'a [u8],
}

/// The background of an `x`: an image and a point of it, the manual's bgid and bgp.
#[derive(Clone, Copy, Debug)]
pub struct Background {
    pub id: u32,
    pub p: Point,
}

impl Writing<'_> {
    /// How many indices.
    pub fn len(&self) -> usize
        ensures { result ≡ length self.now.indices.now / 2 }
    {
        self.indices.len() / 2
    }

    /// The index at a place, from 0.
    pub fn index(&self, k: usize) -> u16
        requires { k < length self.now.indices.now / 2 }
        ensures { result ≡ slice_index (indices_of self.now) k }
    {
        let (_, rest) = self.indices.split_at(2 * k);
        let (index, _) = split_u16(rest);
        index
    }

    pub(crate) fn spelled_len(&self) -> usize
        ensures { result ≡ writing_len self.now }
    {
        match self.background {
            None => 47 + self.indices.len(),
            Some(_) => 59 + self.indices.len(),
        }
    }
}

// What stands in front of a string's count.
#[derive(Clone, Copy)]
struct Head {
    dstid: u32,
    srcid: u32,
    fontid: u32,
    p: Point,
    clipr: Rect,
    sp: Point,
}

impl Head {
    fn writing(self, background: Option<Background>, indices: &[u8]) -> Writing<'_>
        ensures near { IsNearHead self → IfSome background (λ b. IsNearBy (2 ^ 31) b.p) → IsNearWriting result }
        ensures writing { writing_in result ≡ writing_of (head_of self) (numbers_of w16 (length indices.now / 2) indices.now) }
        ensures background { result.background ≡ background }
        ensures indices { result.indices.now ≡ indices.now }
    {
        Writing {
            dstid: self.dstid,
            srcid: self.srcid,
            fontid: self.fontid,
            p: self.p,
            clipr: self.clipr,
            sp: self.sp,
            background,
            indices,
        }
    }
}

#[tactic(auto, unfolding(model_draw_parts::specs::dmsg::Reading::string_head))]
fn head_at(bytes: &[u8]) -> Option<(Head, &[u8])>
    ensures near { IfSome result (λ x. IsNearHead x.0) }
    ensures value { option_map (λ x. (head_of x.0, x.1.now)) result ≡ string_head bytes.now }
{
    let (dstid, rest) = u32_at(bytes)?;
    let (srcid, rest) = u32_at(rest)?;
    let (fontid, rest) = u32_at(rest)?;
    let (p, rest) = point_at(rest)?;
    let (clipr, rest) = rect_at(rest)?;
    let (sp, rest) = point_at(rest)?;
    let head = Head {
        dstid,
        srcid,
        fontid,
        p,
        clipr,
        sp,
    };
    Some((head, rest))
}

fn indices_at(count: u16, bytes: &[u8]) -> Option<&[u8]>
    ensures whole { IfSome result (λ indices. length indices.now % 2 ≡ 0) }
    ensures few { IfSome result (λ indices. length indices.now / 2 ≤ 65535) }
    ensures read { option_map (λ indices. numbers_of w16 (length indices.now / 2) indices.now) result ≡ option_map (λ x. x.0) (numbers w16 count bytes.now) }
{
    let (indices, _) = bytes_at(usize::from(count) * 2, bytes)?;
    Some(indices)
}

// The fields behind the letter of an `s`.
#[tactic(auto, unfolding(model_draw_parts::specs::dmsg::Reading::low_s, model_draw_parts::specs::dmsg::Reading::counted))]
pub(crate) fn string_at(bytes: &[u8]) -> Option<Writing<'_>>
    ensures whole { IfSome result (λ l. length l.indices.now % 2 ≡ 0) }
    ensures few { IfSome result (λ l. length l.indices.now / 2 ≤ 65535) }
    ensures near { IfSome result IsNearWriting }
    ensures read { option_map writing_message result ≡ option_map (λ x. x.0) (low_s bytes.now) }
{
    let (head, rest) = head_at(bytes)?;
    let (count, rest) = u16_at(rest)?;
    let indices = indices_at(count, rest)?;
    Some(head.writing(None, indices))
}

// The fields behind the letter of an `x`.
#[tactic(auto, unfolding(model_draw_parts::specs::dmsg::Reading::low_x, model_draw_parts::specs::dmsg::Reading::counted_around))]
pub(crate) fn string_on_background_at(bytes: &[u8]) -> Option<Writing<'_>>
    ensures whole { IfSome result (λ l. length l.indices.now % 2 ≡ 0) }
    ensures few { IfSome result (λ l. length l.indices.now / 2 ≤ 65535) }
    ensures near { IfSome result IsNearWriting }
    ensures read { option_map writing_message result ≡ option_map (λ x. x.0) (low_x bytes.now) }
{
    let (head, rest) = head_at(bytes)?;
    let (count, behind) = u16_at(rest)?;
    let (id, behind) = u32_at(behind)?;
    let (p, behind) = point_at(behind)?;
    let indices = indices_at(count, behind)?;
    Some(head.writing(Some(Background { id, p }), indices))
}
