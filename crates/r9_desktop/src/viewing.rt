//! What walks and listings of the tree depend on (intro(5)).

ghost use Rattle.std.specs.Prelude.{◌≡◌, ◌≤◌, ◌==◌, ◌&&◌, not, is_some, map, All, Ok, Err, IfErr, IfOk, OnOk};
ghost use Rattle.model_rio.specs.rio.Table.{window_of};
ghost use Rattle.model_files.specs.tree.Tree.{check_live};
ghost use Rattle.model_world.specs.Whole as whole;
ghost use Rattle.r9_desktop.specs.Words.{is_of_rio};
ghost use Rattle.r9_tree.specs.View.{node_of, view_of, most_connections, IsNode, IsView};
ghost use Rattle.r9_desktop.specs.World.{desktop_of, parts_of};

use crate::desktop::Desktop;
use r9_event::window::Window;
use r9_files::files::is_kind;
use r9_memory::Memory;
use r9_text::Numbers;
use r9_tree::{Kind, Node, TreeView, is_ended};
use std::alloc::Global;

/// The number of the refusal "window deleted".
const WINDOW_DELETED: u8 = 42;

/// The number of the refusal "file does not exist".
const NO_SUCH_FILE: u8 = 34;

/// The numbers of windows.
fn numbers_of(alloc: Global, windows: &[Window]) -> Result<Numbers, Memory>
    ensures { IfOk result (λ numbers. numbers ≡ map (λ w. w.number) windows.now) }
{
    let mut numbers = Numbers::new(alloc);
    for w in windows {
        numbers.push(w.number)?;
    }
    Ok(numbers)
}

/// The serials of windows.
fn serials_of(alloc: Global, windows: &[Window]) -> Result<Numbers, Memory>
    ensures { IfOk result (λ serials. serials ≡ map (λ w. w.serial) windows.now) }
{
    let mut serials = Numbers::new(alloc);
    for w in windows {
        serials.push(w.serial)?;
    }
    Ok(serials)
}

/// Whether a file belongs to a rio.
fn is_of_rio(node: &Node) -> bool
    requires { IsNode node.now }
    ensures { result ≡ is_of_rio (node_of node.now).kind }
{
    is_kind(node, Kind::Wsys) || is_kind(node, Kind::Screen) || is_kind(node, Kind::Snarf)
}

impl Desktop {
    /// The host of the rio that a file has to do with.
    fn host_by(&self, node: &Node) -> u32
        requires { IsNode node.now }
        ensures { result ≡ whole.host_by (parts_of self.now).table (node_of node.now) (node_of node.now).kind }
    {
        if is_of_rio(node) {
            return node.serial;
        }
        match self.manager.window_of(node.serial) {
            Some(w) => w.host,
            None => 0,
        }
    }

    /// What the walks and listings of a file depend on, where its session has these connections.
    #[tactic(auto, unfolding(crate::specs::World::desktop_of, model_world::specs::Whole::view_of))]
    pub fn view(&self, connections: &Numbers, node: &Node) -> Result<TreeView, Memory>
        requires within { All (λ n. n ≤ most_connections) connections.now }
        requires node { IsNode node.now }
        ensures is { IfOk result (λ view. view_of view ≡ whole.view_of (desktop_of self.now).table connections.now (node_of node.now)) }
        ensures view { IfOk result IsView }
    {
        let host = self.host_by(node);
        let windows = self.manager.made_in(host)?;
        Ok(TreeView {
            connections: connections.try_clone(self.alloc)?,
            host,
            numbers: numbers_of(self.alloc, &windows)?,
            serials: serials_of(self.alloc, &windows)?,
            live: self.manager.window_of(node.serial).is_some(),
        })
    }
    /// Whether the window that a file tells of is gone.
    fn is_gone(&self, node: &Node) -> bool
        ensures { result ≡ (not (node.now.serial == 0) && not (is_some (window_of (parts_of self.now).table node.now.serial))) }
    {
        node.serial != 0 && self.manager.window_of(node.serial).is_none()
    }

    /// Whether a file's window and its connection live, where it has one: refused by 42 exactly where its window is gone, and else
    /// by 34 exactly where its connection is.
    #[tactic(auto, unfolding(crate::specs::World::desktop_of, model_world::specs::Whole::view_of, model_files::specs::tree::Tree::check_live))]
    pub fn check_live(&self, connections: &Numbers, node: &Node) -> Result<(), u8>
        requires { IsNode node.now }
        ensures lives { OnOk result (check_live (whole.view_of (desktop_of self.now).table connections.now (node_of node.now)) (node_of node.now) ≡ Ok tt) }
        ensures refused { IfErr result (λ n. check_live (whole.view_of (desktop_of self.now).table connections.now (node_of node.now)) (node_of node.now) ≡ Err n) }
    {
        if self.is_gone(node) {
            return Err(WINDOW_DELETED);
        }
        if is_ended(node, connections) {
            return Err(NO_SUCH_FILE);
        }
        Ok(())
    }
}
