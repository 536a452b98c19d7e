//! What happens at one window by its files (rio(4)): they are written, read, opened and closed.

ghost use Rattle.std.specs.Prelude.{◌≡◌, ◌≤◌, length, IfOk, IfSome, IfNone, OnOk, OnErr};
ghost use Rattle.model_files.specs.mouse.Queue.{answer_text};
ghost use Rattle.model_files.specs.console.Console as console;
ghost use Rattle.model_rio.specs.window.Heard.{ConsctlHeld, ConsoleRead, MouseHeld, MouseRead, Raw, Written};
ghost use Rattle.model_world.specs.Desktop.{pane_of, pane_told};

use crate::telling::Panes;
use r9_memory::Memory;
use r9_text::Bytes;
use std::alloc::Global;

/// Bytes are written to a window's `cons`.
pub(crate) fn write_text(panes: &mut Panes, window: u32, bytes: &[u8]) -> Result<(), Memory>
    ensures ok { OnOk result (panes.new.entries ≡ pane_told panes.old.entries window (Written bytes.now)) }
    ensures err { OnErr result (panes.new.entries ≡ panes.old.entries) }
{
    if let Some(pane) = panes.get_mut(&window) {
        pane.write_text(bytes)?;
    }
    Ok(())
}

/// Keys are given raw in a window from now on, or not.
pub(crate) fn set_raw(panes: &mut Panes, window: u32, raw: bool) -> Result<(), Memory>
    ensures ok { OnOk result (panes.new.entries ≡ pane_told panes.old.entries window (Raw raw)) }
    ensures err { OnErr result (panes.new.entries ≡ panes.old.entries) }
{
    if let Some(pane) = panes.get_mut(&window) {
        pane.set_raw(raw)?;
    }
    Ok(())
}

/// Some fid has a window's `mouse` open from now on, or none has it any more.
pub(crate) fn set_mouse_held(panes: &mut Panes, window: u32, held: bool)
    ensures { panes.new.entries ≡ pane_told panes.old.entries window (MouseHeld held) }
{
    if let Some(pane) = panes.get_mut(&window) {
        pane.set_mouse_held(held);
    }
}

/// The same of its `consctl`.
pub(crate) fn set_consctl_held(panes: &mut Panes, window: u32, held: bool)
    ensures { panes.new.entries ≡ pane_told panes.old.entries window (ConsctlHeld held) }
{
    if let Some(pane) = panes.get_mut(&window) {
        pane.set_consctl_held(held);
    }
}

/// What a read of a window's `mouse` gives.
pub(crate) fn read_mouse(panes: &mut Panes, window: u32) -> Result<Option<Bytes>, Memory>
    ensures gives { IfOk result (λ given. given ≡ answer_text (pane_of panes.old.entries window).mouse) }
    ensures takes { IfOk result (λ given. IfSome given (λ _. panes.new.entries ≡ pane_told panes.old.entries window MouseRead)) }
    ensures leaves { IfOk result (λ given. IfNone given (panes.new.entries ≡ panes.old.entries)) }
    ensures err { OnErr result (panes.new.entries ≡ panes.old.entries) }
    ensures len { IfOk result (λ given. IfSome given (λ bytes. length bytes ≡ 49)) }
{
    match panes.get_mut(&window) {
        Some(pane) => pane.read_mouse(),
        None => Ok(None),
    }
}

/// What a read of so many bytes of a window's `cons` gives.
pub(crate) fn read_console(
    alloc: Global,
    panes: &mut Panes,
    window: u32,
    count: u32,
) -> Result<Option<Bytes>, Memory>
    ensures gives { IfOk result (λ given. given ≡ console.read count (pane_of panes.old.entries window).console) }
    ensures short { IfOk result (λ given. IfSome given (λ bytes. length bytes ≤ count)) }
    ensures takes { IfOk result (λ given. IfSome given (λ _. panes.new.entries ≡ pane_told panes.old.entries window (ConsoleRead count))) }
    ensures leaves { IfOk result (λ given. IfNone given (panes.new.entries ≡ panes.old.entries)) }
    ensures err { OnErr result (panes.new.entries ≡ panes.old.entries) }
{
    match panes.get_mut(&window) {
        Some(pane) => pane.read_console(count),
        None if count == 0 => Ok(Some(Bytes::new(alloc))),
        None => Ok(None),
    }
}
