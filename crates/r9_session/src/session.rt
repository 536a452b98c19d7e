//! What is kept of a session.

ghost use Rattle.std.specs.Prelude.{◌≡◌, ◌==◌, ℕ, [], length, not, Ok, Err, IfErr, IfOk, OnOk};
ghost use Rattle.model_draw.specs.draw.World.{Opening, World};
ghost use Rattle.model_files.specs.tree.Tree.{check_live};
ghost use Rattle.model_world.specs.Session.{fresh};
ghost use Rattle.model_world.specs.Desktop.{first_desktop};
ghost use Rattle.model_world.specs.Links.{IsLinked};
ghost use Rattle.r9_tree.specs.View.{node_of, view_of, IsNode, IsView};

use crate::wait::Wait;
use r9_fids::FidTable;
use r9_files::around::Outside;
use r9_files::files::Fid;
use r9_memory::Memory;
use r9_tags::Waiting;
use r9_text::Numbers;
use r9_tree::{Node, TreeView};
use std::alloc::Global;
use std::marker::Model;

/// The greatest size of a message in bytes, and the one of a session that agreed on none (version(5)).
pub const MAX_MSIZE: u32 = 65_560;

/// A session: the greatest size of a message in bytes, whether a version is agreed, the tag whose second use closed it, the fids
/// (intro(5)), the reads that wait, the connections to the draw device that live, in ascending order, and how many it ever made,
/// whose numbers are from 1 to that (draw(3)). The places are serials of windows, among them those where its reads wait.
#[derive(Drop)]
pub struct Session {
    pub(crate) msize: u32,
    pub(crate) agreed: bool,
    pub(crate) closed: Option<u16>,
    pub(crate) fids: FidTable<Fid>,
    pub(crate) waiting: Waiting<Wait>,
    pub(crate) connections: Numbers,
    pub(crate) made: u32,
    pub(crate) places: Numbers,
}

impl Model for Session {
    ghost use Rattle.model_world.specs.Session as model;

    ghost Value = { model.Session };

    ghost use Rattle.r9_session.specs.SessionView.{session_of, IsSession};

    ghost view = { session_of };

    ghost invariant = { IsSession };
}

impl Session {
    /// A session that has agreed on nothing. It may begin at a desktop whose draw device has no connection of its number.
    pub fn fresh(alloc: Global) -> Self
        ensures fresh { result ≡ fresh }
        ensures linked { (number made : ℕ) (device : World) → IsLinked number made [] device → IsLinked number result.made result.connections device }
        ensures first { (number : ℕ) (display : Opening) → IsLinked number result.made result.connections (first_desktop display).device }
    {
        Session {
            msize: MAX_MSIZE,
            agreed: false,
            closed: None,
            fids: FidTable::new(alloc),
            waiting: Waiting::new(alloc),
            connections: Numbers::new(alloc),
            made: 0,
            places: Numbers::new(alloc),
        }
    }

    /// What the walks and listings of a file depend on.
    #[tactic(auto, using(crate::proofs::Clients::all_from_within))]
    pub(crate) fn view<O: Outside>(&self, outside: &O, node: &Node) -> Result<TreeView, Memory>
        requires { IsNode node.now }
        ensures is { IfOk result (λ view. (number : ℕ) → view_of view ≡ (O.outside number).view (O.state outside.now) self.now.connections (node_of node.now)) }
        ensures view { IfOk result IsView }
    {
        outside.view(&self.connections, node)
    }
    /// Whether a file may be used: refused by 42 where its window is gone, and by 34 where its connection is.
    pub(crate) fn check_live<O: Outside>(&self, outside: &O, node: &Node) -> Result<(), u8>
        requires { IsNode node.now }
        ensures lives { OnOk result ((number : ℕ) → check_live ((O.outside number).view (O.state outside.now) self.now.connections (node_of node.now)) (node_of node.now) ≡ Ok tt) }
        ensures refused { IfErr result (λ n. (number : ℕ) → check_live ((O.outside number).view (O.state outside.now) self.now.connections (node_of node.now)) (node_of node.now) ≡ Err n) }
    {
        outside.check_live(&self.connections, node)
    }

    /// Whether a read waits.
    pub fn is_waiting(&self) -> bool
        ensures { result ≡ not (length self.now.waiting == 0) }
    {
        !self.waiting.is_empty()
    }

    /// The greatest size in bytes of its next message (version(5)).
    pub fn msize(&self) -> u32
        ensures { result ≡ self.now.msize }
    {
        self.msize
    }

    /// The tag whose second use closed it.
    pub fn closed(&self) -> Option<u16>
        ensures { result ≡ self.now.closed }
    {
        self.closed
    }
}
