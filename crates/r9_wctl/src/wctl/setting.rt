//! What an option says.

ghost use Rattle.std.specs.Prelude.{◌≡◌, [], ◌∷◌, map, IfOk, IfSome};
ghost use Rattle.std.specs.Option.{option_map};
ghost use Rattle.model_files.specs.wctl.Words.{path, signed, all_some};
ghost use Rattle.model_files.specs.wctl.Reading.{setting, rectangle, measured, valued, Choose};
ghost use Rattle.model_files.specs.declared.wctl.Choice.TheVariants.{R};
ghost use Rattle.r9_wctl.specs.wctl.Small.{IsSmall, IsSmallRect, IsSmallChoice, number_of};
ghost use Rattle.r9_wctl.specs.wctl.Values.{setting_of, IsSmallSetting};
ghost use Rattle.r9_wctl.specs.wctl.Names.{key_word};

use crate::wctl::key::Key;
use crate::wctl::number::{amount, digits, signed};
use model_files::wctl::{Amount, Choice};
use r9_geom::{Point, Rect};
use r9_memory::Memory;
use r9_text::Numbers;
use std::alloc::Global;

/// What an option says.
#[derive(Drop)]
pub enum Setting {
    Choose(Choice),
    Hidden,
    Named(Numbers),
    NoEffect,
}

/// The path of a window that a word spells: numbers of 1 to 9 digits, joined by slashes, from the root rio inward. None
/// exactly where it spells none.
pub fn read_path(alloc: Global, word: &[u8]) -> Result<Option<Numbers>, Memory>
    ensures path { IfOk result (λ numbers. numbers ≡ path word.now) }
{
    let mut path = Numbers::new(alloc);
    for part in word.split(|byte| *byte == b'/') {
        let Some(number) = digits(part, 9) else {
            return Ok(None);
        };
        path.push(number)?;
    }
    Ok(Some(path))
}

/// Four numbers make a rectangle.
fn rectangle(words: &[&[u8]]) -> Option<Rect>
    ensures value { option_map (λ r. Choose (R r)) result ≡ rectangle (all_some (map (λ word. signed word.now) words.now)) }
    ensures small { IfSome result IsSmallRect }
{
    if words.len() != 4 {
        return None;
    }
    let left = signed(words[0])?;
    let top = signed(words[1])?;
    let right = signed(words[2])?;
    let bottom = signed(words[3])?;
    Some(Rect {
        min: Point { x: left, y: top },
        max: Point {
            x: right,
            y: bottom,
        },
    })
}

/// What an option with an amount says; that of `-pid` has no effect.
fn measured(key: Key, amount: Amount) -> Setting
    requires { IsSmall (number_of amount) }
    ensures value { setting_of result ≡ measured (key_word key) amount }
    ensures small { IsSmallSetting result }
{
    match key {
        Key::Minx => Setting::Choose(Choice::Minx(amount)),
        Key::Miny => Setting::Choose(Choice::Miny(amount)),
        Key::Maxx => Setting::Choose(Choice::Maxx(amount)),
        Key::Maxy => Setting::Choose(Choice::Maxy(amount)),
        Key::Dx => Setting::Choose(Choice::Dx(amount)),
        Key::Dy => Setting::Choose(Choice::Dy(amount)),
        _ => Setting::NoEffect,
    }
}

/// What an option with one word says.
fn valued(alloc: Global, key: Key, word: &[u8]) -> Result<Option<Setting>, Memory>
    ensures value { IfOk result (λ said. option_map setting_of said ≡ valued (key_word key) (word.now ∷ [])) }
    ensures small { IfOk result (λ said. IfSome said IsSmallSetting) }
{
    match key {
        Key::Id => match read_path(alloc, word)? {
            Some(path) => Ok(Some(Setting::Named(path))),
            None => Ok(None),
        },
        Key::Cd => Ok(Some(Setting::NoEffect)),
        _ => match amount(word) {
            Some(amount) => Ok(Some(measured(key, amount))),
            None => Ok(None),
        },
    }
}

/// What an option says with these words, if it says anything.
#[tactic(auto, unfolding(model_files::specs::wctl::Reading::setting))]
pub fn read_setting(alloc: Global, key: Key, words: &[&[u8]]) -> Result<Option<Setting>, Memory>
    ensures value { IfOk result (λ said. option_map setting_of said ≡ setting (record { name = key_word key; words = map (λ word. word.now) words.now })) }
    ensures small { IfOk result (λ said. IfSome said IsSmallSetting) }
{
    match key {
        Key::R => match rectangle(words) {
            Some(rect) => Ok(Some(Setting::Choose(Choice::R(rect)))),
            None => Ok(None),
        },
        Key::Hide => Ok(Some(Setting::Hidden)),
        Key::Scroll | Key::Noscroll => Ok(Some(Setting::NoEffect)),
        _ => {
            if words.len() != 1 {
                return Ok(None);
            }
            valued(alloc, key, words[0])
        }
    }
}
