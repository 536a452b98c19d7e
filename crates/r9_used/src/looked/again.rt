//! The messages of a write, read again.

ghost use Rattle.std.specs.Prelude.{◌≡◌, ◌≤◌, ◌++◌, ℕ, List, Option, length, drop, OnOk};
ghost use Rattle.std.specs.List.{flat_map};
ghost use Rattle.model_draw.specs.draw.World.{World};
ghost use Rattle.model_alone.specs.alone.Uses.{look_used, looked_at};
ghost use Rattle.model_draw_parts.specs.dmsg.Message.{Message};
ghost use Rattle.model_draw.specs.looked.Again.{behind_by, messages_read, rows_left};
ghost use Rattle.r9_used.specs.looked.Firsts.{is_write};
ghost use Rattle.r9_used.specs.looked.Told.{IsTold};

use crate::looked::first::{First, look_first};
use r9_event::event::Uses;
use r9_files::pane::Pane;
use r9_memory::Memory;
use std::alloc::Global;
use std::collections::BTreeMap;

/// The bytes behind so many, or none where there are fewer.
fn bytes_behind(bytes: &[u8], len: usize) -> &[u8]
    ensures { result.now ≡ drop len bytes.now }
{
    if len < bytes.len() {
        &bytes[len..]
    } else {
        &[]
    }
}

/// What is behind a message that stands first in bytes, and the lengths of rows that come behind it.
fn behind_first<'a>(first: &First, bytes: &'a [u8], rows: &'a [u32]) -> (&'a [u8], &'a [u32])
    ensures bytes { (m : Message) → first.now.has_rows ≡ is_write m → result.0.now ≡ behind_by m rows.now (drop first.now.len bytes.now) }
    ensures rows { (m : Message) → first.now.has_rows ≡ is_write m → result.1.now ≡ rows_left m rows.now }
{
    let bytes = bytes_behind(bytes, first.len);
    if !first.has_rows {
        return (bytes, rows);
    }
    let [len, others @ ..] = rows else {
        return (bytes, rows);
    };
    (bytes_behind(bytes, *len as usize), others)
}

/// Adds what the messages use that stand first in bytes, so many at most, where the rows of their `y`s have these lengths.
fn look_within(
    alloc: Global,
    panes: &BTreeMap<u32, Pane>,
    bytes: &[u8],
    most: u64,
    rows: &[u32],
    uses: &mut Uses,
) -> Result<(), Memory>
    ensures { OnOk result (uses.new ≡ uses.old ++ flat_map (look_used panes.now.entries) (messages_read most rows.now bytes.now)) }
{
    let mut bytes = bytes;
    let mut rows = rows;
    let mut left = most;
    'messages: while left > 0 {
        let Some(first) = look_first(alloc, panes, bytes, uses)? else {
            return Ok(());
        };
        (bytes, rows) = behind_first(&first, bytes, rows);
        left -= 1;
    }
    Ok(())
}

/// Adds what a write to the draw device used, by its bytes, how many of its messages are looked at (those that were done, and the one
/// behind them unless memory ran out before it), and how many bytes the rows had of each `y` that was done; where the files of windows
/// have these. A write that uses nothing takes no memory. Of the uses nothing is said after Memory.
pub fn look_again(
    alloc: Global,
    panes: &BTreeMap<u32, Pane>,
    bytes: &[u8],
    most: u64,
    rows: &[u32],
    uses: &mut Uses,
) -> Result<(), Memory>
    ensures { OnOk result ((k : ℕ) (device : World) (mark : Option ℕ) → IsTold k device bytes.now mark most rows.now → uses.new ≡ uses.old ++ flat_map (look_used panes.now.entries) (looked_at k device bytes.now mark)) }
{
    look_within(alloc, panes, bytes, most, rows, uses)
}
