//! What the first message asks for where it has a list, borrowed from its bytes, so that no memory is wanted.

ghost use Rattle.std.specs.Prelude.{◌≡◌, ◌≤◌, ℕ, List, false, length, drop, IfNone, IfSome};
ghost use Rattle.std.specs.Option.{option_map};
ghost use Rattle.model_draw_parts.specs.dmsg.Message.{Message};
ghost use Rattle.model_draw_parts.specs.dmsg.Reading.{IsMessage, behind, first_message};
ghost use Rattle.r9_dmsg.specs.Listed.{has_list, listed_in, listed_len, listed_message, HasShortList, IsNearListed, IsWhole};

use crate::naming::{NameUse, Naming, name_use_at, naming_at};
use crate::restacking::{Restacking, restacking_at};
use crate::writing::{Writing, string_at, string_on_background_at};

/// What a message with a list asks for, borrowed from its bytes.
#[derive(Clone, Copy, Debug)]
pub enum Listed<'a> {
    /// `t`: windows to the top or to the bottom.
    Restack(Restacking<'a>),
    /// `N`: tie a name to an image, or untie it.
    Name(Naming<'a>),
    /// `n`: an id for the image with a name.
    UseName(NameUse<'a>),
    /// `s`, and `x` with a background: draw a string.
    Write(Writing<'a>),
}

impl Listed<'_> {
    /// How many bytes spell the message, its letter and its list among them.
    pub fn spelled_len(&self) -> usize
        ensures { result ≡ listed_len self.now }
    {
        match self {
            Listed::Restack(restacking) => 4 + restacking.ids.len(),
            Listed::Name(naming) => 7 + naming.name.len(),
            Listed::UseName(name_use) => 6 + name_use.name.len(),
            Listed::Write(writing) => writing.spelled_len(),
        }
    }
}

fn behind_letter(letter: u8, bytes: &[u8]) -> Option<Listed<'_>>
    ensures whole { IfSome result IsWhole }
    ensures near { IfSome result IsNearListed }
    ensures few { IfSome result HasShortList }
    ensures read { option_map listed_message result ≡ listed_in (behind letter bytes.now) }
{
    match letter {
        b't' => Some(Listed::Restack(restacking_at(bytes)?)),
        b'N' => Some(Listed::Name(naming_at(bytes)?)),
        b'n' => Some(Listed::UseName(name_use_at(bytes)?)),
        b's' => Some(Listed::Write(string_at(bytes)?)),
        b'x' => Some(Listed::Write(string_on_background_at(bytes)?)),
        _ => None,
    }
}

fn first_listed(bytes: &[u8]) -> Option<Listed<'_>>
    ensures whole { IfSome result IsWhole }
    ensures near { IfSome result IsNearListed }
    ensures few { IfSome result HasShortList }
    ensures read { option_map listed_message result ≡ listed_in (first_message bytes.now) }
{
    match bytes {
        [] => None,
        [letter, rest @ ..] => behind_letter(*letter, rest),
    }
}

/// What the message asks for that stands whole at the front of bytes, where it has a list: an `N`, `n`, `s`, `t` or `x`
/// (draw(3)). None where no such message does. It takes no memory.
pub fn next_listed(bytes: &[u8]) -> Option<Listed<'_>>
    ensures whole { IfSome result IsWhole }
    ensures near { IfSome result IsNearListed }
    ensures few { IfSome result HasShortList }
    ensures found { IfSome result (λ l. first_message bytes.now ≡ IsMessage (listed_message l) (drop (listed_len l) bytes.now)) }
    ensures within { IfSome result (λ l. listed_len l ≤ length bytes.now) }
    ensures none { IfNone result ((m : Message) (rest : List ℕ) → first_message bytes.now ≡ IsMessage m rest → has_list m ≡ false) }
{
    first_listed(bytes)
}
