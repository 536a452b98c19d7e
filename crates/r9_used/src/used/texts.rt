//! What names of attaches and texts that are written use.

ghost use Rattle.std.specs.Prelude.{◌≡◌, IfOk};
ghost use Rattle.model_files.specs.tree.Attach.{attach_of};
ghost use Rattle.model_files.specs.wctl.Words.{without_last_newline};
ghost use Rattle.model_alone.specs.alone.Uses.{asks_for_windows, chooses_display, is_fresh};
ghost use Rattle.r9_used.specs.used.Words.{word_of};

use r9_memory::Memory;
use r9_text::next_word;
use r9_tree::{Attach, read_attach};
use std::alloc::Global;

/// Whether the name of an attach asks for a new window (attach(5)).
pub fn asks_for_new(alloc: Global, name: &[u8]) -> Result<bool, Memory>
    ensures { IfOk result (λ fresh. fresh ≡ is_fresh (attach_of name.now)) }
{
    let asked = read_attach(alloc, name)?;
    Ok(matches!(asked, Attach::New { .. }))
}

/// Whether bytes that are written to a `ctl` of the draw device choose the display, for it to describe.
pub fn chooses_display(bytes: &[u8]) -> bool
    ensures { result ≡ chooses_display bytes.now }
{
    bytes == [0, 0, 0, 0].as_slice()
}

/// A text without the newline that may end it.
fn line_of(text: &[u8]) -> &[u8]
    ensures { result.now ≡ without_last_newline text.now }
{
    match text.split_last() {
        Some((last, line)) if *last == b'\n' => line,
        _ => text,
    }
}

/// The first run of bytes of a line that are no blanks or tabs.
fn word_of(line: &[u8]) -> &[u8]
    ensures { result.now ≡ word_of line.now }
{
    match next_word(line, 0) {
        Some(word) => &line[word.0..word.1],
        None => &[],
    }
}

/// Whether a text that is written to a `wctl` asks for a window more, or for a rio in the window.
pub fn asks_for_windows(text: &[u8]) -> bool
    ensures { result ≡ asks_for_windows text.now }
{
    let word = word_of(line_of(text));
    word == b"new".as_slice() || word == b"host".as_slice()
}
