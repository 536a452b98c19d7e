//! Reading a command.

ghost use Rattle.std.specs.Prelude.{◌≡◌, ◌≤◌, ◌<◌, length, map, ◌+◌, IfOk, IfErr, IfSome, Some, None, ◌∷◌};
ghost use Rattle.std.specs.Option.{option_map};
ghost use Rattle.std.specs.List.{list_any};
ghost use Rattle.model_files.specs.wctl.Words.{words_of, line_of, without_last_newline, is_newline};
ghost use Rattle.model_files.specs.wctl.Reading.{command_in, command_of, asked, must_name};
ghost use Rattle.r9_wctl.specs.wctl.Names.{verb_word};
ghost use Rattle.r9_wctl.specs.wctl.Values.{wctl_of, command_of_code};
ghost use Rattle.r9_wctl.specs.wctl.Gather.{finished};
ghost use Rattle.r9_wctl.specs.wctl.Faults.{IfBad};

use crate::wctl::command::{Command, Wctl, WctlFault};
use crate::wctl::gathered::{Gathered, gather};
use crate::wctl::options::Options;
use crate::wctl::verb::{Verb, verb_named};
use r9_memory::Memory;
use r9_text::Numbers;
use std::alloc::{AllocError, Global};

/// The most bytes that a command has.
const LONGEST: usize = 1_024;

/// How many words there is room for at first, so that those of a usual command are never copied.
const FIRST_WORDS: usize = 16;

fn without_last_newline(text: &[u8]) -> &[u8]
    ensures line { result.now ≡ without_last_newline text.now }
    ensures within { length result.now ≤ length text.now }
{
    if !text.is_empty() && text[text.len() - 1] == b'\n' {
        &text[..text.len() - 1]
    } else {
        text
    }
}

fn has_newline(line: &[u8]) -> bool
    ensures { result ≡ list_any is_newline line.now }
{
    line.iter().any(|byte| *byte == b'\n')
}

/// The line that a text is: it may end in a newline, and has no other one.
#[tactic(auto, unfolding(model_files::specs::wctl::Words::line_of))]
fn line_of(text: &[u8]) -> Option<&[u8]>
    ensures line { option_map (λ line. line.now) result ≡ line_of text.now }
    ensures within { IfSome result (λ line. length line.now ≤ length text.now) }
{
    let line = without_last_newline(text);
    if has_newline(line) { None } else { Some(line) }
}

/// The words of a line.
fn words_of<'a>(alloc: Global, line: &'a [u8]) -> Result<Vec<&'a [u8]>, AllocError>
    ensures words { IfOk result (λ words. map (λ word. word.now) words.items ≡ words_of line.now) }
    ensures few { IfOk result (λ words. length words.items ≤ length line.now + 1) }
{
    let mut words = Vec::with_capacity(alloc, FIRST_WORDS)?;
    let all = line
        .split(|byte| *byte == b' ' || *byte == b'\t')
        .filter(|word| !word.is_empty());
    words.extend(all)?;
    Ok(words)
}

/// What a command's name asks for.
#[tactic(auto, unfolding(model_files::specs::wctl::Reading::asked))]
fn asked(verb: Verb, options: Options, hide: bool) -> Wctl
    ensures { wctl_of result ≡ asked (verb_word verb) options hide }
{
    match verb {
        Verb::New => Wctl::New { options, hide },
        Verb::Resize => Wctl::Resize(options),
        Verb::Move => Wctl::Move(options),
        Verb::Set => Wctl::Set,
        Verb::Top => Wctl::Top,
        Verb::Bottom => Wctl::Bottom,
        Verb::Hide => Wctl::Hide,
        Verb::Unhide => Wctl::Unhide,
        Verb::Current => Wctl::Current,
        Verb::Delete => Wctl::Delete,
        Verb::Scroll => Wctl::Scroll(true),
        Verb::Noscroll => Wctl::Scroll(false),
        Verb::Host => Wctl::Host,
    }
}

/// Whether the command names a window; a new one need not.
fn must_name(verb: Verb, with_id: bool) -> bool
    ensures { result ≡ must_name with_id (verb_word verb) }
{
    with_id && !matches!(verb, Verb::New)
}

/// The command, if it names a window where it must.
fn finished(alloc: Global, verb: Verb, with_id: bool, said: Gathered) -> Option<Command>
    ensures { option_map command_of_code result ≡ finished verb with_id said }
{
    let Gathered { options, hide, id } = said;
    let id = match id {
        Some(id) => id,
        None if must_name(verb, with_id) => return None,
        None => Numbers::new(alloc),
    };
    Some(Command {
        what: asked(verb, options, hide),
        id,
    })
}

/// The command that words spell.
fn command_in(alloc: Global, with_id: bool, words: &[&[u8]]) -> Result<Option<Command>, Memory>
    requires { length words.now ≤ 1025 }
    ensures { IfOk result (λ c. option_map command_of_code c ≡ command_in with_id (map (λ word. word.now) words.now)) }
{
    let [name, options @ ..] = words else {
        return Ok(None);
    };
    let Some(verb) = verb_named(name) else {
        return Ok(None);
    };
    let Some(said) = gather(alloc, verb, with_id, options)? else {
        return Ok(None);
    };
    Ok(finished(alloc, verb, with_id, said))
}

/// The command that a text spells (rio(4)); with `with_id`, where windows are named, each command but `new` names one by
/// `-id`. Bad exactly where a text of at most 1,024 bytes spells none, or the text is longer; Memory where it is short.
#[tactic(auto, unfolding(model_files::specs::wctl::Reading::command_of))]
pub fn read_wctl(alloc: Global, text: &[u8], with_id: bool) -> Result<Command, WctlFault>
    ensures command { IfOk result (λ c. command_of with_id text.now ≡ Some (command_of_code c)) }
    ensures bad { IfErr result (λ fault. IfBad fault (command_of with_id text.now ≡ None)) }
    ensures long { 1024 < length text.now → result ≡ Err WctlFault.Bad }
{
    if text.len() > LONGEST {
        return Err(WctlFault::Bad);
    }
    let Some(line) = line_of(text) else {
        return Err(WctlFault::Bad);
    };
    let words = words_of(alloc, line)?;
    match command_in(alloc, with_id, &words)? {
        Some(command) => Ok(command),
        None => Err(WctlFault::Bad),
    }
}
