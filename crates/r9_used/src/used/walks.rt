//! What walks use.

ghost use Rattle.std.specs.Prelude.{◌≡◌, ◌≤◌, ◌++◌, ℕ, All, OnOk};
ghost use Rattle.std.specs.List.{flat_map};
ghost use Rattle.model_world.specs.Walking.{walked};
ghost use Rattle.model_alone.specs.alone.Uses.{step_used};
ghost use Rattle.r9_tree.specs.View.{node_of, most_connections, IsNode};
ghost use Rattle.r9_used.specs.used.Words.{uses_of};

use crate::used::files::step_used;
use r9_event::event::{Use, Uses};
use r9_files::around::Outside;
use r9_memory::Memory;
use r9_text::{Bytes, Numbers};
use r9_tree::{Node, walk};

/// Adds a use, where there is one.
fn push_used(uses: &mut Uses, used: Option<Use>) -> Result<(), Memory>
    ensures { OnOk result (uses.new ≡ uses.old ++ uses_of used) }
{
    if let Some(used) = used {
        uses.push(used)?;
    }
    Ok(())
}

/// Adds what a walk of names from a file uses, as far as it goes, where its session has these connections. A walk that uses nothing
/// takes memory for views alone. Of the uses nothing is said after Memory.
pub fn walk_used<O: Outside>(
    outside: &O,
    connections: &Numbers,
    from: Node,
    names: &[Bytes],
    uses: &mut Uses,
) -> Result<(), Memory>
    requires within { All (λ n. n ≤ most_connections) connections.now }
    requires from { IsNode from }
    ensures { OnOk result ((session : ℕ) → uses.new ≡ uses.old ++ flat_map step_used (walked ((O.outside session).view (O.state outside.now) connections.now) (node_of from) names.now).0) }
{
    let [name, others @ ..] = names else {
        return Ok(());
    };
    let view = outside.view(connections, &from)?;
    match walk(&from, name.as_slice(), &view) {
        Err(_) => Ok(()),
        Ok(next) => {
            push_used(uses, step_used(&next))?;
            walk_used(outside, connections, next, others, uses)
        }
    }
}
