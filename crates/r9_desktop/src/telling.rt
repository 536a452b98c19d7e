//! What a step of the window manager tells windows, those who use them, and rios (rio(4)).

ghost use Rattle.std.specs.Prelude.{◌≡◌, Bool, OnOk, OnErr};
ghost use Rattle.std.specs.List.{fold};
ghost use Rattle.r9_event.specs.declared.event.rio.Order.TheVariants as order;
ghost use Rattle.model_text.specs.text.Map.{and};
ghost use Rattle.model_rio.specs.window.Heard.{Noted, Labelled};
ghost use Rattle.model_rio.specs.window.Pane.{new_pane, pane_heard};
ghost use Rattle.model_world.specs.Desktop.{pane_told, panes_told, users_told, snarfs_ordered};

use r9_event::event::{Note, Order};
use r9_files::pane::Pane;
use r9_memory::Memory;
use r9_text::{Bytes, Numbers};
use std::alloc::Global;
use std::collections::BTreeMap;

/// What the files of windows have, by serial.
pub(crate) type Panes = BTreeMap<u32, Pane>;

/// The sessions that use windows, by the windows' serials.
pub(crate) type Users = BTreeMap<u32, Numbers>;

/// What was cut last, by the serials of rios' hosts.
pub(crate) type Snarfs = BTreeMap<u32, Bytes>;

/// A window that there was not is told its first note.
fn begin(alloc: Global, panes: &mut Panes, window: u32, note: &Note) -> Result<(), Memory>
    ensures { OnOk result (panes.new.entries ≡ and panes.old.entries window (pane_heard new_pane (Noted note.now))) }
{
    let mut pane = Pane::new(alloc)?;
    pane.note(note)?;
    panes.insert(window, pane)?;
    Ok(())
}

/// A window is told a note.
fn hear(panes: &mut Panes, window: u32, note: &Note) -> Result<(), Memory>
    ensures { OnOk result (panes.new.entries ≡ pane_told panes.old.entries window (Noted note.now)) }
{
    if let Some(pane) = panes.get_mut(&window) {
        pane.note(note)?;
    }
    Ok(())
}

/// Bytes are written to a window's `label`.
pub(crate) fn set_label(panes: &mut Panes, window: u32, bytes: &[u8]) -> Result<(), Memory>
    ensures ok { OnOk result (panes.new.entries ≡ pane_told panes.old.entries window (Labelled bytes.now)) }
    ensures err { OnErr result (panes.new.entries ≡ panes.old.entries) }
{
    if let Some(pane) = panes.get_mut(&window) {
        pane.set_label(bytes)?;
    }
    Ok(())
}

/// A window begins with its first note, and is forgotten with its last.
fn tell_pane(alloc: Global, panes: &mut Panes, window: u32, note: &Note) -> Result<(), Memory>
    ensures { OnOk result (panes.new.entries ≡ panes_told panes.old.entries (window, note.now)) }
{
    match note {
        Note::Made { .. } => begin(alloc, panes, window, note),
        Note::Deleted => {
            panes.remove(&window);
            Ok(())
        }
        _ => hear(panes, window, note),
    }
}

/// Windows are told notes, one after the other.
pub(crate) fn tell_panes(
    alloc: Global,
    panes: &mut Panes,
    notes: &[(u32, Note)],
) -> Result<(), Memory>
    ensures { OnOk result (panes.new.entries ≡ fold panes_told panes.old.entries notes.now) }
{
    for told in notes {
        tell_pane(alloc, panes, told.0, &told.1)?;
    }
    Ok(())
}

/// Nobody uses a window that is gone.
fn tell_users_of(users: &mut Users, window: u32, note: &Note)
    ensures { users.new.entries ≡ users_told users.old.entries (window, note.now) }
{
    if let Note::Deleted = note {
        users.remove(&window);
    }
}

/// The same of notes, one after the other.
pub(crate) fn tell_users(users: &mut Users, notes: &[(u32, Note)])
    ensures { users.new.entries ≡ fold users_told users.old.entries notes.now }
{
    for told in notes {
        tell_users_of(users, told.0, &told.1);
    }
}

/// A rio that starts has an empty snarf.
fn host(alloc: Global, snarfs: &mut Snarfs, window: u32) -> Result<(), Memory>
    ensures { (fill : Bool) → OnOk result (snarfs.new.entries ≡ snarfs_ordered snarfs.old.entries (order.Host window fill)) }
{
    if !snarfs.contains_key(&window) {
        snarfs.insert(window, Bytes::new(alloc))?;
    }
    Ok(())
}

/// A rio that starts has an empty snarf, which goes with its host.
fn order_snarf(alloc: Global, snarfs: &mut Snarfs, order: &Order) -> Result<(), Memory>
    ensures { OnOk result (snarfs.new.entries ≡ snarfs_ordered snarfs.old.entries order.now) }
{
    match order {
        Order::Host { window, .. } => host(alloc, snarfs, *window),
        Order::Drop { window } => {
            snarfs.remove(window);
            Ok(())
        }
        _ => Ok(()),
    }
}

/// The same of orders, one after the other.
pub(crate) fn order_snarfs(
    alloc: Global,
    snarfs: &mut Snarfs,
    orders: &[Order],
) -> Result<(), Memory>
    ensures { OnOk result (snarfs.new.entries ≡ fold snarfs_ordered snarfs.old.entries orders.now) }
{
    for order in orders {
        order_snarf(alloc, snarfs, order)?;
    }
    Ok(())
}
