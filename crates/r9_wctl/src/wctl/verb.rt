//! The names of the commands.

ghost use Rattle.std.specs.Prelude.{◌≡◌, None, IfSome, IfNone};
ghost use Rattle.std.specs.List.{find};
ghost use Rattle.std.specs.Str.{bytes_eq};
ghost use Rattle.model_files.specs.wctl.Reading.{commands};
ghost use Rattle.r9_wctl.specs.wctl.Names.{verb_word, key_word, takes};

use crate::wctl::key::Key;
use crate::wctl::word::is_word;

/// A command's name.
#[derive(Clone, Copy, Debug)]
pub enum Verb {
    New,
    Resize,
    Move,
    Set,
    Top,
    Bottom,
    Hide,
    Unhide,
    Current,
    Delete,
    Scroll,
    Noscroll,
    Host,
}

/// The command of this name, if there is one.
#[tactic(auto, using(crate::proofs::wctl::Naming::unknown_verb))]
pub fn verb_named(name: &[u8]) -> Option<Verb>
    ensures some { IfSome result (λ verb. name.now ≡ verb_word verb) }
    ensures none { IfNone result (find (λ row. bytes_eq name.now row.name) commands ≡ None) }
{
    if is_word(name, b"new") {
        Some(Verb::New)
    } else if is_word(name, b"resize") {
        Some(Verb::Resize)
    } else if is_word(name, b"move") {
        Some(Verb::Move)
    } else if is_word(name, b"set") {
        Some(Verb::Set)
    } else if is_word(name, b"top") {
        Some(Verb::Top)
    } else if is_word(name, b"bottom") {
        Some(Verb::Bottom)
    } else if is_word(name, b"hide") {
        Some(Verb::Hide)
    } else if is_word(name, b"unhide") {
        Some(Verb::Unhide)
    } else if is_word(name, b"current") {
        Some(Verb::Current)
    } else if is_word(name, b"delete") {
        Some(Verb::Delete)
    } else if is_word(name, b"scroll") {
        Some(Verb::Scroll)
    } else if is_word(name, b"noscroll") {
        Some(Verb::Noscroll)
    } else if is_word(name, b"host") {
        Some(Verb::Host)
    } else {
        None
    }
}

impl Verb {
    /// Whether the command takes this option; where windows are named, each takes `-id`.
    pub fn takes(self, with_id: bool, key: Key) -> bool
        ensures { result ≡ takes self with_id (key_word key) }
    {
        match key {
            Key::Id => with_id,
            Key::R => matches!(self, Verb::New | Verb::Resize),
            Key::Minx | Key::Miny => matches!(self, Verb::New | Verb::Resize | Verb::Move),
            Key::Maxx | Key::Maxy | Key::Dx | Key::Dy => matches!(self, Verb::New | Verb::Resize),
            Key::Pid => matches!(self, Verb::New | Verb::Set),
            Key::Cd | Key::Hide | Key::Scroll | Key::Noscroll => matches!(self, Verb::New),
        }
    }
}
