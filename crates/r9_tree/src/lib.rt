//! The served tree of files: attach names, walks, qids, stats, listings and permissions (draw(3), rio(4)).
#![tactic(auto)]

ghost use Rattle.std.specs.Prelude.{◌≡◌, ◌++◌, List, ℕ, length};
ghost use Rattle.std.specs.List.{All};
ghost use Rattle.model_files.specs.tree.Node.{Node as ModelNode};
ghost use Rattle.model_files.specs.tree.Tree.{View as ModelView};
ghost use Rattle.model_files.specs.tree.Listing.{stats, IsSized, first_length};

mod attach;
mod node;
mod rows;
mod stats;
mod walking;

pub use attach::{Attach, read_attach};
pub use model_files::tree::Kind;
pub use node::{Node, TreeView};
pub use rows::{kind_of, may, qid};
pub use stats::{listing, stat, stat_without_view};
pub use walking::{check_live, is_ended, root_of, walk, walk_without_view};

/// A listing is cut at whole stats: each begins with two bytes that give the length of what follows.
pub fn listings_tell_their_pieces()
    ensures sized { (view : ModelView) (node : ModelNode) → All IsSized (stats view node) }
    ensures first { (piece rest : List ℕ) → IsSized piece → first_length (piece ++ rest) ≡ length piece }
{}
