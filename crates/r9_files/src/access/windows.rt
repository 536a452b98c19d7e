//! What the files of windows and rios have (rio(4)).

ghost use Rattle.std.specs.Prelude.{◌≡◌, ◌≤◌, ◌++◌, ℕ, length, Ok, IfOk};
ghost use Rattle.model_files.specs.console.Console as console;
ghost use Rattle.model_rio.specs.window.Heard.{wctl_text, winid_text};
ghost use Rattle.model_world.specs.Writing.{snarf_written};
ghost use Rattle.r9_files.specs.access.Reads.{IsTold};
ghost use Rattle.r9_files.specs.access.Writes.{IsDone, snarf_left};

use crate::around::Outside;
use crate::files::{BAD_OFFSET, Fault};
use crate::pane::Pane;
use r9_memory::Memory;
use r9_text::Bytes;
use std::alloc::Global;

/// So many bytes of snarf are kept at most.
const MOST_SNARF: usize = 0x10_0000;

/// What a window's label is.
pub(crate) fn label<O: Outside>(outside: &O, window: u32) -> &[u8]
    ensures { (session : ℕ) → result.now ≡ ((O.outside session).pane (O.state outside.now) window).label }
{
    match outside.pane(window) {
        Some(pane) => pane.label(),
        None => &[],
    }
}

/// The name of the image that a window has.
pub(crate) fn winname<O: Outside>(outside: &O, window: u32) -> &[u8]
    ensures { (session : ℕ) → result.now ≡ ((O.outside session).pane (O.state outside.now) window).known.name }
{
    match outside.pane(window) {
        Some(pane) => pane.name(),
        None => &[],
    }
}

/// The text that tells a window's number in its rio.
pub(crate) fn winid<O: Outside>(alloc: Global, outside: &O, window: u32) -> Result<Bytes, Memory>
    ensures { IfOk result (λ text. (session : ℕ) → text ≡ winid_text ((O.outside session).pane (O.state outside.now) window).known) }
{
    match outside.pane(window) {
        Some(pane) => pane.winid(),
        None => Pane::new(alloc)?.winid(),
    }
}

/// The text that tells where a window is, and whether it is current and can be seen.
pub(crate) fn wctl<O: Outside>(alloc: Global, outside: &O, window: u32) -> Result<Bytes, Memory>
    ensures text { IfOk result (λ text. (session : ℕ) → text ≡ wctl_text ((O.outside session).pane (O.state outside.now) window).known) }
    ensures short { IfOk result (λ text. length text ≤ 128) }
{
    match outside.pane(window) {
        Some(pane) => pane.wctl(),
        None => Pane::new(alloc)?.wctl(),
    }
}

// One text behind another, in a list that has room for both from the start.
fn joined(alloc: Global, front: &[u8], back: &[u8]) -> Result<Bytes, Memory>
    ensures { IfOk result (λ bytes. bytes ≡ front.now ++ back.now) }
{
    let mut bytes = Bytes::new(alloc);
    bytes.reserve(front.len() + back.len())?;
    bytes.push_all(front)?;
    bytes.push_all(back)?;
    Ok(bytes)
}

/// The text of snarf after a write: at its front another text, and at its end more of it. Elsewhere, and past the most that is
/// kept, it is refused.
fn next_snarf(alloc: Global, old: &[u8], offset: u64, bytes: &[u8]) -> Result<Bytes, Fault>
    ensures { IsTold result (snarf_written old.now offset bytes.now) }
{
    if offset == 0 {
        if bytes.len() <= MOST_SNARF {
            return Ok(Bytes::from_slice(alloc, bytes)?);
        }
        return Err(Fault::Refused(BAD_OFFSET));
    }
    if offset == old.len() as u64 && old.len() + bytes.len() <= MOST_SNARF {
        return Ok(joined(alloc, old, bytes)?);
    }
    Err(Fault::Refused(BAD_OFFSET))
}

/// Writes the text of the snarf of a rio.
pub(crate) fn write_snarf<O: Outside>(
    alloc: Global,
    outside: &mut O,
    host: u32,
    offset: u64,
    bytes: &[u8],
) -> Result<(), Fault>
    ensures { (session : ℕ) → IsDone (O.state outside.old) result (O.state outside.new) (snarf_left (O.outside session) (O.state outside.old) host offset bytes.now) }
{
    let contents = next_snarf(alloc, outside.snarf(host), offset, bytes)?;
    outside.set_snarf(host, contents);
    Ok(())
}

/// What a window's `text` has.
pub(crate) fn text<O: Outside>(outside: &O, window: u32) -> &[u8]
    ensures { (session : ℕ) → result.now ≡ console.text ((O.outside session).pane (O.state outside.now) window).console }
{
    match outside.pane(window) {
        Some(pane) => pane.text(),
        None => &[],
    }
}
