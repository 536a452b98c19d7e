//! What the name of an attach asks for (attach(5), rio(4)).

ghost use Rattle.std.specs.Prelude.{◌≡◌, ◌≤◌, ◌==◌, ◌++◌, not, length, drop, codes, IfOk};
ghost use Rattle.std.specs.List.{prefix_len};
ghost use Rattle.model_files.specs.wctl.Words.{path};
ghost use Rattle.model_files.specs.tree.Attach.{attach_of, existing, fresh};
ghost use Rattle.r9_tree.specs.Attached.{attach_of_code};

use r9_memory::Memory;
use r9_text::{Bytes, Numbers};
use r9_wctl::wctl::read_path;
use std::alloc::Global;

/// What the name of an attach asks for.
#[derive(Debug, Drop)]
pub enum Attach {
    /// The device tree.
    Device,
    /// The tree of a window that there is.
    Existing {
        /// The window's path: its number in its rio, from the root rio inward.
        path: Numbers,
    },
    /// A new window, and its tree.
    New {
        /// The path of the window whose rio the new one is in, empty for the root rio.
        path: Numbers,
        /// The text of the command that makes it.
        command: Bytes,
    },
    /// No tree has this name.
    Unknown,
}

/// The command that makes a window.
const NEW: [u8; 3] = *b"new";

/// What follows the path of the window whose rio a new one is in.
const SLASH_NEW: [u8; 4] = *b"/new";

/// How many bytes stand before the first blank.
fn word_len(name: &[u8]) -> usize
    ensures len { result ≡ prefix_len (λ byte. not (byte == 32)) name.now }
    ensures within { result ≤ length name.now }
{
    name.iter().take_while(|byte| **byte != b' ').count()
}

/// The command of a new window, with its options.
fn command_with(alloc: Global, options: &[u8]) -> Result<Bytes, Memory>
    ensures { IfOk result (λ command. command ≡ codes "new" ++ options.now) }
{
    let mut command = Bytes::from_slice(alloc, &NEW)?;
    command.push_all(options)?;
    Ok(command)
}

/// A new window in the rio that the window of a path hosts.
fn hosted(alloc: Global, host: &[u8], options: &[u8]) -> Result<Attach, Memory>
    ensures { IfOk result (λ attach. attach_of_code attach ≡ fresh (codes "new" ++ options.now) (path host.now)) }
{
    let Some(path) = read_path(alloc, host)? else {
        return Ok(Attach::Unknown);
    };
    let command = command_with(alloc, options)?;
    Ok(Attach::New { path, command })
}

/// The window of a path.
fn existing(alloc: Global, name: &[u8]) -> Result<Attach, Memory>
    ensures { IfOk result (λ attach. attach_of_code attach ≡ existing (path name.now)) }
{
    match read_path(alloc, name)? {
        Some(path) => Ok(Attach::Existing { path }),
        None => Ok(Attach::Unknown),
    }
}

/// What the name of an attach asks for. The empty name is the device tree's; `new`, or the path of a window and `/new`,
/// alone or followed by a blank and options, asks for a new window; a path is that of a window. Any other name is
/// Unknown. Whether there are such windows, and what the options say, is not looked at.
#[tactic(auto, unfolding(model_files::specs::tree::Attach::attach_of))]
pub fn read_attach(alloc: Global, name: &[u8]) -> Result<Attach, Memory>
    ensures { IfOk result (λ attach. attach_of_code attach ≡ attach_of name.now) }
{
    if name.is_empty() {
        return Ok(Attach::Device);
    }
    let (word, options) = name.split_at(word_len(name));
    if word == NEW.as_slice() {
        let command = command_with(alloc, options)?;
        return Ok(Attach::New {
            path: Numbers::new(alloc),
            command,
        });
    }
    match word.strip_suffix(&SLASH_NEW) {
        Some(host) => hosted(alloc, host, options),
        None => existing(alloc, name),
    }
}
