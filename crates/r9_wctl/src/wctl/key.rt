//! The names of the options.

ghost use Rattle.std.specs.Prelude.{◌≡◌, None, IfSome, IfNone, false, Bool};
ghost use Rattle.model_files.specs.wctl.Reading.{arity};
ghost use Rattle.r9_wctl.specs.declared.wctl.verb.Verb.{Verb};
ghost use Rattle.r9_wctl.specs.wctl.Names.{key_word, takes};

use crate::wctl::word::is_word;

/// An option's name.
#[derive(Clone, Copy, Debug)]
pub enum Key {
    R,
    Minx,
    Miny,
    Maxx,
    Maxy,
    Dx,
    Dy,
    Pid,
    Cd,
    Id,
    Hide,
    Scroll,
    Noscroll,
}

/// The option of this name, if there is one. No command takes any other.
#[tactic(auto, using(crate::proofs::wctl::Naming::unknown_key))]
pub fn key_named(name: &[u8]) -> Option<Key>
    ensures some { IfSome result (λ key. name.now ≡ key_word key) }
    ensures none { IfNone result ((verb : Verb) (with_id : Bool) → takes verb with_id name.now ≡ false) }
{
    if is_word(name, b"-r") {
        Some(Key::R)
    } else if is_word(name, b"-minx") {
        Some(Key::Minx)
    } else if is_word(name, b"-miny") {
        Some(Key::Miny)
    } else if is_word(name, b"-maxx") {
        Some(Key::Maxx)
    } else if is_word(name, b"-maxy") {
        Some(Key::Maxy)
    } else if is_word(name, b"-dx") {
        Some(Key::Dx)
    } else if is_word(name, b"-dy") {
        Some(Key::Dy)
    } else if is_word(name, b"-pid") {
        Some(Key::Pid)
    } else if is_word(name, b"-id") {
        Some(Key::Id)
    } else if is_word(name, b"-cd") {
        Some(Key::Cd)
    } else if is_word(name, b"-hide") {
        Some(Key::Hide)
    } else if is_word(name, b"-scroll") {
        Some(Key::Scroll)
    } else if is_word(name, b"-noscroll") {
        Some(Key::Noscroll)
    } else {
        None
    }
}

impl Key {
    /// How many words follow it.
    pub fn arity(self) -> usize
        ensures { result ≡ arity (key_word self) }
    {
        match self {
            Key::R => 4,
            Key::Hide | Key::Scroll | Key::Noscroll => 0,
            _ => 1,
        }
    }
}
