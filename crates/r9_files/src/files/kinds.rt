//! Which kind of file a node is.

ghost use Rattle.std.specs.Prelude.{◌≡◌};
ghost use Rattle.model_files.specs.tree.Node.{row, is_directory};
ghost use Rattle.model_world.specs.Fids.{is_kind};
ghost use Rattle.r9_tree.specs.View.{node_of, IsNode};

use r9_tree::{Kind, Node, qid};

/// The kind of a directory's qid.
const DIRECTORY: u8 = 0x80;

/// Whether a file is a directory.
pub fn is_directory(node: &Node) -> bool
    requires { IsNode node.now }
    ensures { result ≡ is_directory (node_of node.now) }
{
    qid(node).kind == DIRECTORY
}

/// The number of a kind.
#[tactic(auto, unfolding(model_files::specs::tree::Node::row))]
fn number_of(kind: Kind) -> u8
    ensures { result ≡ (row kind).number }
{
    kind as u8 + 1
}

/// Whether a file is of a kind.
pub fn is_kind(node: &Node, kind: Kind) -> bool
    requires { IsNode node.now }
    ensures { result ≡ is_kind kind (node_of node.now).kind }
{
    number_of(kind) == node.kind
}
