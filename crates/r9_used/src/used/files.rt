//! What walks to files and opens of them use.

ghost use Rattle.std.specs.Prelude.{◌≡◌};
ghost use Rattle.model_alone.specs.alone.Uses.{open_used, step_used};
ghost use Rattle.r9_tree.specs.View.{node_of, IsNode};
ghost use Rattle.r9_used.specs.used.Words.{uses_of};

use r9_event::event::Use;
use r9_tree::{Kind, Node, kind_of};

/// The number of the reason that what a rio has for all its windows is walked to or opened.
const OF_RIO: u8 = 6;

/// What an open of a file uses: the `screen`, the `snarf` or the `wsys` of a rio.
pub fn open_used(node: &Node) -> Option<Use>
    requires { IsNode node.now }
    ensures { uses_of result ≡ open_used (node_of node.now).kind }
{
    match kind_of(node.kind) {
        Kind::Screen | Kind::Snarf | Kind::Wsys => Some(Use::Own(OF_RIO)),
        _ => None,
    }
}

/// What a walk to a file uses: it comes to the directory of windows, or through it into a window.
pub(crate) fn step_used(node: &Node) -> Option<Use>
    requires { IsNode node.now }
    ensures { uses_of result ≡ step_used (node_of node.now) }
{
    match kind_of(node.kind) {
        Kind::Wsys => Some(Use::Own(OF_RIO)),
        Kind::Listed => Some(Use::Walk {
            window: node.serial,
        }),
        _ => None,
    }
}
