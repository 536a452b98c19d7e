//! The files of a window that one fid at a time has open: `mouse` and `consctl` (rio(4)).

ghost use Rattle.std.specs.Prelude.{◌≡◌, ◌&&◌, ◌||◌, ℕ, map};
ghost use Rattle.std.specs.List.{fold};
ghost use Rattle.model_world.specs.Fids.{is_kind, let_go, with_held};
ghost use Rattle.r9_tree.specs.View.{node_of, IsNode};

use crate::session::Session;
use r9_files::around::Outside;
use r9_files::files::{Fid, is_kind};
use r9_tree::{Kind, Node};

/// Whether a file is the `mouse` or the `consctl` of a window, and some fid has it open.
pub(crate) fn is_held<O: Outside>(outside: &O, node: &Node) -> bool
    requires { IsNode node.now }
    ensures { (number : ℕ) → let pane = (O.outside number).pane (O.state outside.now) (node_of node.now).serial in let kind = (node_of node.now).kind in
        result ≡ (is_kind Kind.Mouse kind && pane.mouse_held || is_kind Kind.Consctl kind && pane.consctl_held) }
{
    let Some(pane) = outside.pane(node.serial) else {
        return false;
    };
    is_kind(node, Kind::Mouse) && pane.is_mouse_held()
        || is_kind(node, Kind::Consctl) && pane.is_consctl_held()
}

/// A fid has a file open from now on, or has it open no more, where one fid at a time may have it open.
pub(crate) fn hold<O: Outside>(outside: &mut O, node: &Node, held: bool)
    requires { IsNode node.now }
    ensures { (number : ℕ) → O.state outside.new ≡ with_held (O.outside number) held (O.state outside.old) (node_of node.now) }
{
    if is_kind(node, Kind::Mouse) {
        outside.set_mouse_held(node.serial, held);
    } else if is_kind(node, Kind::Consctl) {
        outside.set_consctl_held(node.serial, held);
    }
}

/// A fid goes, which may be open.
pub(crate) fn let_go<O: Outside>(outside: &mut O, gone: &Fid)
    ensures { (number : ℕ) → O.state outside.new ≡ let_go (O.outside number) (O.state outside.old) gone.now }
{
    if gone.mode().is_some() {
        hold(outside, &gone.node(), false);
    }
}

impl Session {
    /// All fids go.
    pub(crate) fn let_all_go<O: Outside>(&self, outside: &mut O)
        ensures { (number : ℕ) → O.state outside.new ≡ fold (let_go (O.outside number)) (O.state outside.old) (map (λ entry. entry.1) self.now.fids) }
    {
        for entry in self.fids.iter() {
            let_go(outside, entry.1);
        }
    }
}
