//! A fid: a file that a client names, and how it is open.

ghost use Rattle.std.specs.Prelude.{◌≡◌, ◌≤◌, IsTrue, IfOk, OnErr, None, Some, length};
ghost use Rattle.std.specs.Option.{option_map};
ghost use Rattle.model_files.specs.tree.Node.{is_directory};
ghost use Rattle.model_files.specs.tree.Listing.{stats};
ghost use Rattle.model_world.specs.Session.{fid_at};
ghost use Rattle.model_world.specs.Fids.{is_open_on, keeps};
ghost use Rattle.model_world.specs.Reading.{directory_read, read_from, read_further};
ghost use Rattle.r9_tree.specs.View.{node_of, view_of, IsNode, IsView};
ghost use Rattle.r9_files.specs.files.Reads.{IsRead};

use crate::files::fault::{BAD_OFFSET, Fault};
use crate::files::kinds::is_kind;
use crate::files::listing::Kept;
use r9_fids::Openable;
use r9_memory::Memory;
use r9_text::Bytes;
use r9_tree::{Kind, Node, TreeView, listing};
use std::alloc::Global;
use std::marker::Model;

/// A fid: its file, the mode that it is open with, what it keeps of a listing, and the text of `wctl` that it gave last.
#[derive(Debug, Drop)]
pub struct Fid {
    node: Node,
    mode: Option<u8>,
    kept: Option<Kept>,
    told: Option<Bytes>,
    ghost is_node: { IsNode node },
}

impl Model for Fid {
    ghost use Rattle.model_world.specs.Session as model;

    ghost Value = { model.Fid };

    ghost use Rattle.r9_files.specs.files.FileView.{fid_of};

    ghost view = { fid_of };
}

impl Openable for Fid {
    ghost use Rattle.std.specs.Prelude.{is_some};

    ghost is_open = { λ f. is_some f.mode };

    fn is_open(&self) -> bool {
        self.mode.is_some()
    }
}

/// The listing of a directory, of which nothing was given yet.
fn listed(alloc: Global, node: &Node, view: &TreeView) -> Result<Kept, Memory>
    requires node { IsNode node.now }
    requires view { IsView view.now }
    requires directory { IsTrue (is_directory (node_of node.now)) }
    ensures { IfOk result (λ kept. kept ≡ record { left = stats (view_of view.now) (node_of node.now); next = 0 }) }
{
    let listing = listing(alloc, node, view)?;
    Kept::cut(alloc, listing.as_slice())
}

impl Fid {
    /// A fid that stands for a file and is not open.
    pub fn at(node: Node) -> Self
        requires { IsNode node }
        ensures { result ≡ fid_at (node_of node) }
    {
        Fid {
            node,
            mode: None,
            kept: None,
            told: None,
        }
    }

    /// Its file.
    pub fn node(&self) -> Node
        ensures node { node_of result ≡ self.now.node }
        ensures is_node { IsNode result }
    {
        self.node
    }

    /// The mode that it is open with.
    pub fn mode(&self) -> Option<u8>
        ensures { result ≡ self.now.mode }
    {
        self.mode
    }

    /// Opens it.
    pub fn open(&mut self, mode: u8)
        ensures { self.new ≡ record self.old { mode = Some mode } }
    {
        self.mode = Some(mode);
    }

    /// Opens it, and lets it stand for another file.
    pub fn open_as(&mut self, node: Node, mode: u8)
        requires { IsNode node }
        ensures { self.new ≡ record self.old { node = node_of node; mode = Some mode } }
    {
        self.node = node;
        self.mode = Some(mode);
    }

    /// Whether it is open on a file of a kind.
    pub fn is_open_on(&self, kind: Kind) -> bool
        ensures { result ≡ is_open_on kind self.now }
    {
        self.mode.is_some() && is_kind(&self.node, kind)
    }

    /// Whether it keeps a connection alive.
    pub fn keeps(&self, connection: u32) -> bool
        ensures { result ≡ keeps connection self.now }
    {
        self.node.connection == connection
            && (self.is_open_on(Kind::Ctl)
                || self.is_open_on(Kind::Data)
                || self.is_open_on(Kind::Refresh))
    }

    /// The text of `wctl` that it gave last: None where it has given none.
    pub fn told(&self) -> Option<&[u8]>
        ensures { option_map (λ text. text.now) result ≡ self.now.told }
    {
        match &self.told {
            Some(text) => Some(text.as_slice()),
            None => None,
        }
    }

    /// Notes the text of `wctl` that it gives.
    pub fn tell(&mut self, text: Bytes)
        ensures { self.new ≡ record self.old { told = Some text } }
    {
        self.told = Some(text);
    }

    /// Reads from the front of the listing of the directory that it stands for.
    fn read_anew(&mut self, alloc: Global, view: &TreeView, count: u32) -> Result<Bytes, Fault>
        requires view { IsView view.now }
        requires directory { IsTrue (is_directory self.old.node) }
        ensures read { IsRead result self.new (read_from (record { left = stats (view_of view.now) self.old.node; next = 0 }) self.old count) }
        ensures kept { OnErr result (self.new ≡ self.old) }
        ensures short { IfOk result (λ bytes. length bytes ≤ count) }
        ensures file { self.new.node ≡ self.old.node }
        ensures mode { self.new.mode ≡ self.old.mode }
    {
        let mut kept = listed(alloc, &self.node, view)?;
        let bytes = kept.give(alloc, count)?;
        self.kept = Some(kept);
        Ok(bytes)
    }

    /// Reads on where the last read ended.
    fn read_on(&mut self, alloc: Global, offset: u64, count: u32) -> Result<Bytes, Fault>
        ensures read { IsRead result self.new (read_further self.old offset count) }
        ensures kept { OnErr result (self.new ≡ self.old) }
        ensures short { IfOk result (λ bytes. length bytes ≤ count) }
        ensures file { self.new.node ≡ self.old.node }
        ensures mode { self.new.mode ≡ self.old.mode }
    {
        match &mut self.kept {
            Some(kept) if kept.next() == offset => kept.give(alloc, count),
            _ => Err(Fault::Refused(BAD_OFFSET)),
        }
    }

    /// Reads from the listing of the directory that it stands for: as many whole stats as fit into so many bytes. After an `Err`
    /// it is as it was.
    #[tactic(auto, unfolding(model_world::specs::Reading::directory_read))]
    pub fn read(
        &mut self,
        alloc: Global,
        view: &TreeView,
        offset: u64,
        count: u32,
    ) -> Result<Bytes, Fault>
        requires view { IsView view.now }
        requires directory { IsTrue (is_directory self.old.node) }
        ensures read { IsRead result self.new (directory_read (stats (view_of view.now) self.old.node) self.old offset count) }
        ensures kept { OnErr result (self.new ≡ self.old) }
        ensures short { IfOk result (λ bytes. length bytes ≤ count) }
        ensures file { self.new.node ≡ self.old.node }
        ensures mode { self.new.mode ≡ self.old.mode }
    {
        if offset == 0 {
            self.read_anew(alloc, view, count)
        } else {
            self.read_on(alloc, offset, count)
        }
    }
}
