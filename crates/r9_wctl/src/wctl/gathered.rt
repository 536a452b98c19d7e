//! What the options of a command say together.

ghost use Rattle.std.specs.Prelude.{◌≡◌, ◌<◌, ◌≤◌, ◌+◌, ◌∷◌, IfOk, IfSome, [], length, map, take, min};
ghost use Rattle.std.specs.Option.{option_map};
ghost use Rattle.model_files.specs.wctl.Reading.{allowed, arity};
ghost use Rattle.r9_wctl.specs.wctl.Names.{options_of};
ghost use Rattle.r9_wctl.specs.wctl.Values.{setting_of, IsSmallSetting};
ghost use Rattle.r9_wctl.specs.wctl.Gather.{nothing, add, gathered_from};

use crate::wctl::key::key_named;
use crate::wctl::options::Options;
use crate::wctl::setting::{Setting, read_setting};
use crate::wctl::verb::Verb;
use r9_memory::Memory;
use r9_text::Numbers;
use std::alloc::Global;

/// What options say together.
#[derive(Drop)]
pub struct Gathered {
    pub options: Options,
    pub hide: bool,
    /// The path of a window.
    pub id: Option<Numbers>,
}

impl Gathered {
    fn new(alloc: Global) -> Self
        ensures { result ≡ nothing }
    {
        Gathered {
            options: Options::new(alloc),
            hide: false,
            id: None,
        }
    }

    /// With one more, if it does not name a second window.
    fn with(self, setting: Setting) -> Result<Option<Self>, Memory>
        requires few { length self.options < 1024 }
        requires small { IsSmallSetting setting }
        ensures value { IfOk result (λ next. next ≡ add self (setting_of setting)) }
        ensures few { IfOk result (λ next. IfSome next (λ g. length g.options ≤ length self.options + 1)) }
    {
        let mut next = self;
        match setting {
            Setting::Choose(choice) => next.options.push(choice)?,
            Setting::Hidden => next.hide = true,
            Setting::Named(path) => {
                if next.id.is_some() {
                    return Ok(None);
                }
                next.id = Some(path);
            }
            Setting::NoEffect => {}
        }
        Ok(Some(next))
    }
}

/// What the option with this name says, and how many of the words after it are its own: None where it is none of the
/// command's, or says nothing.
fn read_option(
    alloc: Global,
    verb: Verb,
    with_id: bool,
    name: &[u8],
    after: &[&[u8]],
) -> Result<Option<(Setting, usize)>, Memory>
    ensures value { IfOk result (λ said. option_map (λ s. setting_of s.0) said ≡ allowed with_id (options_of verb) (record { name = name.now; words = map (λ word. word.now) (take (arity name.now) after.now) })) }
    ensures small { IfOk result (λ said. IfSome said (λ s. IsSmallSetting s.0)) }
    ensures len { IfOk result (λ said. IfSome said (λ s. s.1 ≡ min (arity name.now) (length after.now))) }
{
    let Some(key) = key_named(name) else {
        return Ok(None);
    };
    if !verb.takes(with_id, key) {
        return Ok(None);
    }
    let len = key.arity().min(after.len());
    match read_setting(alloc, key, &after[..len])? {
        Some(setting) => Ok(Some((setting, len))),
        None => Ok(None),
    }
}

/// What the options among words say together: None where they are none of the command's, or say nothing.
pub fn gather(
    alloc: Global,
    verb: Verb,
    with_id: bool,
    words: &[&[u8]],
) -> Result<Option<Gathered>, Memory>
    requires { length words.now ≤ 1024 }
    ensures { IfOk result (λ g. g ≡ gathered_from verb with_id nothing (map (λ word. word.now) words.now)) }
{
    let mut gathered = Gathered::new(alloc);
    let mut rest = words;
    while let [name, after @ ..] = rest {
        let Some((setting, len)) = read_option(alloc, verb, with_id, name, after)? else {
            return Ok(None);
        };
        let Some(next) = gathered.with(setting)? else {
            return Ok(None);
        };
        gathered = next;
        rest = &after[len..];
    }
    Ok(Some(gathered))
}
