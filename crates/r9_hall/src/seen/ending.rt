//! What is seen at the end of an event of what its message used.

ghost use Rattle.std.specs.Prelude.{◌≡◌, ◌++◌, OnOk};
ghost use Rattle.model_text.specs.text.Map.{lookup};
ghost use Rattle.model_rio.specs.rio.Table.{Table};
ghost use Rattle.model_alone.specs.alone.Uses.{is_in_root, new_hosts};
ghost use Rattle.model_alone.specs.used.Look.{used_last, window_after};
ghost use Rattle.r9_desktop.specs.World.{desktop_of};
ghost use Rattle.r9_used.specs.used.Words.{uses_of};
ghost use Rattle.r9_hall.specs.seen.View.{hosts_among, hosts_of, look_of};

use crate::seen::look::Look;
use r9_desktop::Desktop;
use r9_event::event::{Use, Uses};
use r9_memory::Memory;
use r9_session::Session;
use std::collections::BTreeMap;

/// The window whose attach led to a fid of a session, where it lives; None for the device tree.
fn window_after(sessions: &BTreeMap<u32, Session>, session: u32, fid: u32) -> Option<u32>
    ensures { result ≡ window_after (lookup sessions.now.entries session) fid }
{
    let found = sessions.get(&session)?;
    let node = found.file(fid)?;
    if node.root == 0 {
        None
    } else {
        Some(node.root)
    }
}

/// Whether a window is one of the root rio.
fn is_in_root(desktop: &Desktop, window: Option<u32>) -> bool
    ensures { result ≡ is_in_root (desktop_of desktop.now).table window }
{
    let Some(serial) = window else {
        return false;
    };
    match desktop.window(serial) {
        Some(found) => found.host == 0,
        None => false,
    }
}

/// What an attach used, from the sessions and the desktop at the end of its event.
pub fn used_last(
    look: &Look,
    sessions: &BTreeMap<u32, Session>,
    session: u32,
    desktop: &Desktop,
) -> Option<Use>
    ensures { uses_of result ≡ used_last (lookup sessions.now.entries session) (desktop_of desktop.now).table (look_of look.now) }
{
    let Look::Attaches { fid, fresh } = look else {
        return None;
    };
    let window = window_after(sessions, session, *fid);
    let root = is_in_root(desktop, window);
    Some(Use::Attach {
        fresh: *fresh,
        window,
        root,
    })
}

/// Adds the windows among hosts of rios that were no hosts before.
fn push_hosts(before: &[u32], rios: &[u32], uses: &mut Uses) -> Result<(), Memory>
    ensures { OnOk result (uses.new ≡ uses.old ++ hosts_among before.now rios.now) }
{
    for host in rios {
        if !before.contains(host) {
            uses.push(Use::Host { window: *host })?;
        }
    }
    Ok(())
}

/// Adds the windows that became hosts of rios, from the hosts before an event and after it.
pub fn push_new_hosts(before: &[u32], after: &[u32], uses: &mut Uses) -> Result<(), Memory>
    ensures { OnOk result ((table next : Table) → before.now ≡ hosts_of table → after.now ≡ hosts_of next → uses.new ≡ uses.old ++ new_hosts table next) }
{
    let [_, rios @ ..] = after else {
        return Ok(());
    };
    push_hosts(before, rios, uses)
}
