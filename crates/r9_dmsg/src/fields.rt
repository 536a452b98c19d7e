//! Fields at the front of bytes: a value and the bytes behind it, or None where the bytes end too early.

ghost use Rattle.std.specs.Prelude.{◌≡◌, ◌≤◌, ◌^◌, ◌≤ℤ◌, pos, neg_ℤ, length, take, drop, IfSome};
ghost use Rattle.std.specs.Int.{w16, w32, from_le_bytes};
ghost use Rattle.std.specs.Option.{option_map};
ghost use Rattle.r9_geom.specs.Geometry.{IsNearBy, IsRectNearBy};
ghost use Rattle.model_draw_parts.specs.dmsg.Reading.{byte, short, long, signed_byte, coordinate, point, rect, some_bytes};

use r9_geom::{Point, Rect};

#[inline]
#[tactic(auto, unfolding(model_draw_parts::specs::dmsg::Reading::byte))]
pub(crate) fn u8_at(bytes: &[u8]) -> Option<(u8, &[u8])>
    ensures { option_map (λ x. (x.0, x.1.now)) result ≡ byte bytes.now }
{
    let (first, rest) = bytes.split_first()?;
    Some((*first, rest))
}

#[inline]
pub(crate) fn split_u16(bytes: &[u8]) -> (u16, &[u8])
    requires { 2 ≤ length bytes.now }
    ensures number { result.0 ≡ from_le_bytes w16 (take 2 bytes.now) }
    ensures rest { result.1.now ≡ drop 2 bytes.now }
{
    let (front, rest) = bytes.split_at(2);
    (u16::from_le_bytes([front[0], front[1]]), rest)
}

#[inline]
pub(crate) fn split_u32(bytes: &[u8]) -> (u32, &[u8])
    requires { 4 ≤ length bytes.now }
    ensures number { result.0 ≡ from_le_bytes w32 (take 4 bytes.now) }
    ensures rest { result.1.now ≡ drop 4 bytes.now }
{
    let (front, rest) = bytes.split_at(4);
    let number = u32::from_le_bytes([front[0], front[1], front[2], front[3]]);
    (number, rest)
}

#[inline]
#[tactic(auto, unfolding(model_draw_parts::specs::dmsg::Reading::some_bytes))]
pub(crate) fn bytes_at(len: usize, bytes: &[u8]) -> Option<(&[u8], &[u8])>
    ensures len { IfSome result (λ x. length x.0.now ≡ len) }
    ensures value { option_map (λ x. (x.0.now, x.1.now)) result ≡ some_bytes len bytes.now }
{
    if bytes.len() < len {
        return None;
    }
    Some(bytes.split_at(len))
}

#[inline]
#[tactic(auto, unfolding(model_draw_parts::specs::dmsg::Reading::short))]
pub(crate) fn u16_at(bytes: &[u8]) -> Option<(u16, &[u8])>
    ensures { option_map (λ x. (x.0, x.1.now)) result ≡ short bytes.now }
{
    if bytes.len() < 2 {
        return None;
    }
    Some(split_u16(bytes))
}

#[inline]
#[tactic(auto, unfolding(model_draw_parts::specs::dmsg::Reading::long))]
pub(crate) fn u32_at(bytes: &[u8]) -> Option<(u32, &[u8])>
    ensures { option_map (λ x. (x.0, x.1.now)) result ≡ long bytes.now }
{
    if bytes.len() < 4 {
        return None;
    }
    Some(split_u32(bytes))
}

#[inline]
#[tactic(auto, unfolding(model_draw_parts::specs::dmsg::Reading::signed_byte))]
pub(crate) fn i8_at(bytes: &[u8]) -> Option<(i8, &[u8])>
    ensures { option_map (λ x. (x.0, x.1.now)) result ≡ signed_byte bytes.now }
{
    let (number, rest) = u8_at(bytes)?;
    Some((number.cast_signed(), rest))
}

#[inline]
#[tactic(auto, unfolding(model_draw_parts::specs::dmsg::Reading::coordinate))]
pub(crate) fn coordinate_at(bytes: &[u8]) -> Option<(i64, &[u8])>
    ensures low { IfSome result (λ x. neg_ℤ (pos (2 ^ 31)) ≤ℤ x.0) }
    ensures high { IfSome result (λ x. x.0 ≤ℤ pos (2 ^ 31)) }
    ensures value { option_map (λ x. (x.0, x.1.now)) result ≡ coordinate bytes.now }
{
    let (number, rest) = u32_at(bytes)?;
    Some((i64::from(number.cast_signed()), rest))
}

#[inline]
#[tactic(auto, unfolding(model_draw_parts::specs::dmsg::Reading::point))]
pub(crate) fn point_at(bytes: &[u8]) -> Option<(Point, &[u8])>
    ensures near { IfSome result (λ x. IsNearBy (2 ^ 31) x.0) }
    ensures value { option_map (λ x. (x.0, x.1.now)) result ≡ point bytes.now }
{
    let (x, rest) = coordinate_at(bytes)?;
    let (y, rest) = coordinate_at(rest)?;
    Some((Point { x, y }, rest))
}

#[inline]
#[tactic(auto, unfolding(model_draw_parts::specs::dmsg::Reading::rect))]
pub(crate) fn rect_at(bytes: &[u8]) -> Option<(Rect, &[u8])>
    ensures near { IfSome result (λ x. IsRectNearBy (2 ^ 31) x.0) }
    ensures value { option_map (λ x. (x.0, x.1.now)) result ≡ rect bytes.now }
{
    let (min, rest) = point_at(bytes)?;
    let (max, rest) = point_at(rest)?;
    Some((Rect { min, max }, rest))
}
