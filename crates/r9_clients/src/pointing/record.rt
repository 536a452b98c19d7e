//! The record of a desk.

ghost use Rattle.std.specs.Prelude.{◌≡◌, ◌≤◌, ℕ, length, All, Err, IfOk};
ghost use Rattle.law_desk.specs.piloted.Following.{IsEvent};
ghost use Rattle.r9_clients.specs.deskfile.Events.{events_of};
ghost use Rattle.r9_clients.specs.pointing.Record.{IsDeskRecord};
ghost use Rattle.r9_clients.specs.pointing.Said.{IsRecordOf};

use crate::deskfile::{DeskFault, read_events};
use crate::pointing::events::push_events;
use crate::pointing::opening::push_opening;
use crate::saying::begin;
use law_menus::menus::desk_histories_are_piloted;
use model_files::mouse::Mouse;
use r9_memory::Memory;
use r9_text::Bytes;
use std::alloc::Global;

/// The record that does what events say.
fn record_of(alloc: Global, events: &[Mouse]) -> Result<Bytes, Memory>
    requires events { All IsEvent events.now }
    requires few { length events.now ≤ 21400 }
    ensures { IfOk result (λ lines. IsRecordOf events.now lines) }
{
    desk_histories_are_piloted();
    let mut out = begin(alloc)?;
    push_opening(alloc, &mut out)?;
    push_events(alloc, events, &mut out)?;
    Ok(out)
}

/// The record, headed `rio9 1`, of a session that makes, moves and deletes windows as the events of the input say (rio(4), mouse(3)).
/// An input that is bad gives the place where it is.
pub fn desk_record(alloc: Global, input: &[u8]) -> Result<Bytes, DeskFault>
    ensures record { IfOk result (λ lines. IsDeskRecord input.now lines) }
    ensures fault { (place : ℕ) → result ≡ Err (DeskFault.Bad place) → events_of input.now ≡ Err place }
{
    let events = read_events(alloc, input)?;
    let lines = record_of(alloc, events.as_slice())?;
    Ok(lines)
}
