//! What a `t` asks for, borrowed from its bytes.

ghost use Rattle.std.specs.Prelude.{◌≡◌, ◌/◌, ◌%◌, ◌<◌, ◌≤◌, length, slice_index, IfSome};
ghost use Rattle.std.specs.Int.{w32};
ghost use Rattle.std.specs.Option.{option_map};
ghost use Rattle.model_draw_parts.specs.dmsg.Reading.{low_t, numbers, numbers_of};
ghost use Rattle.r9_dmsg.specs.Listed.{restacking_message};

use crate::fields::{bytes_at, split_u32, u8_at, u16_at};

/// What a `t` asks for: whether to the top, where it is not 0, and the ids of windows, each in four bytes, the low one first.
#[derive(Clone, Copy, Debug)]
pub struct Restacking<'a> {
    pub top: u8,
    pub ids: &'a [u8],
}

impl Restacking<'_> {
    /// How many ids.
    pub fn len(&self) -> usize
        ensures { result ≡ length self.now.ids.now / 4 }
    {
        self.ids.len() / 4
    }

    /// The id at a place, from 0.
    pub fn id(&self, k: usize) -> u32
        requires { k < length self.now.ids.now / 4 }
        ensures { result ≡ slice_index (numbers_of w32 (length self.now.ids.now / 4) self.now.ids.now) k }
    {
        let (_, rest) = self.ids.split_at(4 * k);
        let (id, _) = split_u32(rest);
        id
    }
}

fn ids_at(count: u16, bytes: &[u8]) -> Option<&[u8]>
    ensures whole { IfSome result (λ ids. length ids.now % 4 ≡ 0) }
    ensures few { IfSome result (λ ids. length ids.now / 4 ≤ 65535) }
    ensures read { option_map (λ ids. numbers_of w32 (length ids.now / 4) ids.now) result ≡ option_map (λ x. x.0) (numbers w32 count bytes.now) }
{
    let (ids, _) = bytes_at(usize::from(count) * 4, bytes)?;
    Some(ids)
}

// The fields behind the letter of a `t`.
#[tactic(auto, unfolding(model_draw_parts::specs::dmsg::Reading::low_t, model_draw_parts::specs::dmsg::Reading::counted))]
pub(crate) fn restacking_at(bytes: &[u8]) -> Option<Restacking<'_>>
    ensures whole { IfSome result (λ t. length t.ids.now % 4 ≡ 0) }
    ensures few { IfSome result (λ t. length t.ids.now / 4 ≤ 65535) }
    ensures read { option_map restacking_message result ≡ option_map (λ x. x.0) (low_t bytes.now) }
{
    let (top, rest) = u8_at(bytes)?;
    let (count, rest) = u16_at(rest)?;
    let ids = ids_at(count, rest)?;
    Some(Restacking { top, ids })
}
