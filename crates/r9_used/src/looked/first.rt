//! What the message that stands first in bytes uses.

ghost use Rattle.std.specs.Prelude.{◌≡◌, ℕ, List, false, IfOk};
ghost use Rattle.model_rio.specs.window.Pane.{Pane as WindowPane};
ghost use Rattle.model_draw_parts.specs.dmsg.Message.{Message};
ghost use Rattle.model_draw_parts.specs.dmsg.Reading.{IsMessage, first_message};
ghost use Rattle.r9_dmsg.specs.Listed.{has_list};
ghost use Rattle.r9_dmsg.specs.View.{message_of};
ghost use Rattle.r9_used.specs.looked.Firsts.{IsFirst, is_write};

use crate::looked::listed::look_listed;
use crate::looked::plain::look_plain;
use r9_dmsg::{Dmsg, next_listed, next_msg};
use r9_event::event::Uses;
use r9_files::pane::Pane;
use r9_memory::Memory;
use std::alloc::Global;
use std::collections::BTreeMap;

/// A message that stands first in bytes.
#[derive(Clone, Copy)]
pub(crate) struct First {
    /// How many bytes spell it.
    pub len: usize,
    /// Whether rows come behind it: it is a `y`.
    pub has_rows: bool,
}

/// Whether rows come behind a message.
fn has_rows(message: &Dmsg) -> bool
    ensures { result ≡ is_write (message_of message.now) }
{
    matches!(message, Dmsg::LowY { .. })
}

/// Adds what the message that stands first in bytes uses, which has no list; None where none stands there.
fn look_first_plain(alloc: Global, bytes: &[u8], uses: &mut Uses) -> Result<Option<First>, Memory>
    requires plain { (m : Message) (rest : List ℕ) → first_message bytes.now ≡ IsMessage m rest → has_list m ≡ false }
    ensures { IfOk result (λ first. (panes : List (ℕ × WindowPane)) → IsFirst panes bytes.now uses.old first uses.new) }
{
    // Only lists take memory.
    let Ok(message) = next_msg(alloc, bytes) else {
        return Ok(None);
    };
    look_plain(&message, uses)?;
    Ok(Some(First {
        len: message.spelled_len(),
        has_rows: has_rows(&message),
    }))
}

/// Adds what the message that stands first in bytes uses, where the files of windows have these; None where none stands there.
pub(crate) fn look_first(
    alloc: Global,
    panes: &BTreeMap<u32, Pane>,
    bytes: &[u8],
    uses: &mut Uses,
) -> Result<Option<First>, Memory>
    ensures { IfOk result (λ first. IsFirst panes.now.entries bytes.now uses.old first uses.new) }
{
    let Some(asked) = next_listed(bytes) else {
        return look_first_plain(alloc, bytes, uses);
    };
    look_listed(panes, &asked, uses)?;
    Ok(Some(First {
        len: asked.spelled_len(),
        has_rows: false,
    }))
}
