//! What an `N` or an `n` asks for, borrowed from its bytes.

ghost use Rattle.std.specs.Prelude.{◌≡◌, ◌≤◌, length, IfSome};
ghost use Rattle.std.specs.Option.{option_map};
ghost use Rattle.model_draw_parts.specs.dmsg.Reading.{low_n, name, up_n};
ghost use Rattle.r9_dmsg.specs.Listed.{name_use_message, naming_message};

use crate::fields::{bytes_at, u8_at, u32_at};

/// What an `N` asks for: a name tied to an image, or untied where `tied` is 0. The manual calls that field `in`.
#[derive(Clone, Copy, Debug)]
pub struct Naming<'a> {
    pub id: u32,
    pub tied: u8,
    pub name: &'a [u8],
}

/// What an `n` asks for: an id for the image with a name.
#[derive(Clone, Copy, Debug)]
pub struct NameUse<'a> {
    pub id: u32,
    pub name: &'a [u8],
}

#[tactic(auto, unfolding(model_draw_parts::specs::dmsg::Reading::name))]
fn name_at(bytes: &[u8]) -> Option<&[u8]>
    ensures few { IfSome result (λ name. length name.now ≤ 255) }
    ensures read { option_map (λ name. name.now) result ≡ option_map (λ x. x.0) (name bytes.now) }
{
    let (len, rest) = u8_at(bytes)?;
    let (name, _) = bytes_at(usize::from(len), rest)?;
    Some(name)
}

// The fields behind the letter of an `N`.
#[tactic(auto, unfolding(model_draw_parts::specs::dmsg::Reading::up_n))]
pub(crate) fn naming_at(bytes: &[u8]) -> Option<Naming<'_>>
    ensures few { IfSome result (λ n. length n.name.now ≤ 255) }
    ensures read { option_map naming_message result ≡ option_map (λ x. x.0) (up_n bytes.now) }
{
    let (id, rest) = u32_at(bytes)?;
    let (tied, rest) = u8_at(rest)?;
    let name = name_at(rest)?;
    Some(Naming { id, tied, name })
}

// The fields behind the letter of an `n`.
#[tactic(auto, unfolding(model_draw_parts::specs::dmsg::Reading::low_n))]
pub(crate) fn name_use_at(bytes: &[u8]) -> Option<NameUse<'_>>
    ensures few { IfSome result (λ n. length n.name.now ≤ 255) }
    ensures read { option_map name_use_message result ≡ option_map (λ x. x.0) (low_n bytes.now) }
{
    let (id, rest) = u32_at(bytes)?;
    let name = name_at(rest)?;
    Some(NameUse { id, name })
}
