//! Which window's image has a name.

ghost use Rattle.std.specs.Prelude.{◌≡◌};
ghost use Rattle.model_alone.specs.alone.Uses.{window_named};

use r9_files::pane::Pane;
use std::collections::BTreeMap;

/// The serial of the window whose image has a name.
pub(crate) fn window_named(panes: &BTreeMap<u32, Pane>, name: &[u8]) -> Option<u32>
    ensures { result ≡ window_named panes.now.entries name.now }
{
    for (serial, pane) in panes {
        if pane.name() == name {
            return Some(*serial);
        }
    }
    None
}
