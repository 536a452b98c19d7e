//! Reading what is open (read(5)).

ghost use Rattle.std.specs.Prelude.{◌≡◌, ◌≤◌, ◌+◌, ◌<◌, ◌^◌, length, max, false, Ok, IsTrue, IfOk, IfSome};
ghost use Rattle.model_files.specs.tree.Node.{is_directory, reads};
ghost use Rattle.model_files.specs.tree.Tree.{check_live};
ghost use Rattle.model_files.specs.tree.Listing.{stats};
ghost use Rattle.model_text.specs.text.Map.{lookup};
ghost use Rattle.model_world.specs.Session.{Fid};
ghost use Rattle.model_world.specs.Reading.{count_within, directory_read, file_read, node_read, read_answer};
ghost use Rattle.model_world.specs.Waiting.{waits_for};
ghost use Rattle.r9_files.specs.access.Reads.{HasClient};
ghost use Rattle.r9_tree.specs.View.{node_of, IsNode, IsView};
ghost use Rattle.r9_tree.specs.View as tree;
ghost use Rattle.r9_session.specs.Answers.{IsReadEnd};
ghost use Rattle.r9_session.specs.Reads.{IsListed, IsParked, IsReadOf};

use crate::session::Session;
use crate::wait::Wait;
use crate::waking::place_read;
use r9_files::access::read_file;
use r9_files::around::Outside;
use r9_files::files::{
    FID_NOT_OPEN, Fault, PERMISSION_DENIED, TOO_MANY_BLOCKED_READS, UNKNOWN_FID, is_directory,
};
use r9_tags::ParkFault;
use r9_text::Bytes;
use r9_tree::{Node, TreeView};
use r9_wire::Rmsg;
use std::alloc::Global;

/// What a reply to a read has besides the bytes that were read.
const READ_HEAD: u32 = 11;

/// Whether a mode is for reading (open(5)).
pub(crate) fn reads(mode: u8) -> bool
    ensures { result ≡ reads mode }
{
    mode % 16 == 0 || mode % 16 == 2
}

impl Session {
    /// Reads from the listing that a fid keeps.
    fn read_listing(
        &mut self,
        alloc: Global,
        fid: u32,
        view: &TreeView,
        offset: u64,
        count: u32,
    ) -> Result<Bytes, Fault>
        requires view { IsView view.now }
        requires directory { IfSome (lookup self.old.fids fid) (λ found. IsTrue (is_directory found.node)) }
        ensures read { IfSome (lookup self.old.fids fid) (λ found. IsListed self.old fid result self.new (directory_read (stats (tree.view_of view.now) found.node) found offset count)) }
        ensures short { IfOk result (λ bytes. length bytes ≤ count) }
    {
        if let Some(found) = self.fids.get_mut(fid) {
            return found.read(alloc, view, offset, count);
        }
        Err(Fault::Refused(UNKNOWN_FID))
    }

    /// The connection that a file belongs to, where it belongs to one, lives: nothing is done.
    pub(crate) fn has_connection<O: Outside>(&self, outside: &O, number: u32, node: &Node)
        requires linked { O.linked number self.now.made self.now.connections (O.state outside.now) }
        requires node { IsNode node.now }
        requires live { check_live ((O.outside number).view (O.state outside.now) self.now.connections (node_of node.now)) (node_of node.now) ≡ Ok tt }
        ensures { HasClient (O.has number) (node_of node.now) (O.state outside.now) }
    {}

    /// Reads an open file that is no directory. None exactly where the read waits.
    fn read_open<O: Outside>(
        &mut self,
        alloc: Global,
        outside: &mut O,
        number: u32,
        fid: u32,
        offset: u64,
        count: u32,
    ) -> Result<Option<Bytes>, Fault>
        requires client { IfSome (lookup self.old.fids fid) (λ found. HasClient (O.has number) found.node (O.state outside.old)) }
        ensures read { IfSome (lookup self.old.fids fid) (λ found. IsReadOf self.old (O.state outside.old) fid result self.new (O.state outside.new) (file_read (O.outside number) (O.state outside.old) found offset count found.node.kind)) }
        ensures short { IfOk result (λ given. IfSome given (λ bytes. length bytes ≤ max count 128)) }
    {
        if let Some(found) = self.fids.get_mut(fid) {
            return read_file(alloc, outside, number, found, offset, count);
        }
        Err(Fault::Refused(UNKNOWN_FID))
    }

    /// Reads an open file. None exactly where the read waits.
    fn read_node<O: Outside>(
        &mut self,
        alloc: Global,
        outside: &mut O,
        number: u32,
        fid: u32,
        node: &Node,
        offset: u64,
        count: u32,
    ) -> Result<Option<Bytes>, Fault>
        requires linked { O.linked number self.old.made self.old.connections (O.state outside.old) }
        requires node { IsNode node.now }
        requires of { IfSome (lookup self.old.fids fid) (λ found. found.node ≡ node_of node.now) }
        requires live { check_live ((O.outside number).view (O.state outside.old) self.old.connections (node_of node.now)) (node_of node.now) ≡ Ok tt }
        ensures read { IfSome (lookup self.old.fids fid) (λ found. IsReadOf self.old (O.state outside.old) fid result self.new (O.state outside.new) (node_read (O.outside number) self.old.connections (O.state outside.old) found offset count)) }
        ensures short { IfOk result (λ given. IfSome given (λ bytes. length bytes ≤ max count 128)) }
    {
        if is_directory(node) {
            let view = self.view(outside, node)?;
            let bytes = self.read_listing(alloc, fid, &view, offset, count)?;
            return Ok(Some(bytes));
        }
        self.has_connection(outside, number, node);
        self.read_open(alloc, outside, number, fid, offset, count)
    }

    /// A read waits from now on, but for where 64 do.
    fn park(&mut self, tag: u16, wait: Wait, node: &Node) -> Result<(), Fault>
        requires fresh { waits_for self.old tag ≡ false }
        requires node { IsNode node.now }
        requires of { IfSome (lookup self.old.fids wait.fid) (λ found. found.node ≡ node_of node.now) }
        ensures { IsParked self.old tag wait result self.new }
    {
        place_read(&self.waiting, &mut self.places, node)?;
        match self.waiting.park(tag, wait) {
            Ok(()) => Ok(()),
            Err(ParkFault::Duplicate | ParkFault::Full) => {
                Err(Fault::Refused(TOO_MANY_BLOCKED_READS))
            }
            Err(ParkFault::Memory) => Err(Fault::Memory),
        }
    }

    /// How many bytes a read gives at most that asks for so many: no more than a message holds.
    pub fn most_read(&self, count: u32) -> u32
        ensures { result ≡ count_within self.now count }
    {
        count.min(self.msize.saturating_sub(READ_HEAD))
    }

    /// Reads an open file, at most what a message holds. None where the read waits from now on.
    #[tactic(auto, unfolding(model_world::specs::Reading::read_answer))]
    pub fn read<O: Outside>(
        &mut self,
        alloc: Global,
        outside: &mut O,
        number: u32,
        tag: u16,
        fid: u32,
        offset: u64,
        count: u32,
    ) -> Result<Option<Rmsg>, Fault>
        requires linked { O.linked number self.old.made self.old.connections (O.state outside.old) }
        requires fresh { waits_for self.old tag ≡ false }
        ensures { IsReadEnd self.old (O.state outside.old) result self.new (O.state outside.new) (read_answer (O.outside number) self.old (O.state outside.old) tag fid offset count) }
    {
        let Some(found) = self.fids.get(fid) else {
            return Err(Fault::Refused(UNKNOWN_FID));
        };
        let Some(mode) = found.mode() else {
            return Err(Fault::Refused(FID_NOT_OPEN));
        };
        let node = found.node();
        if !reads(mode) {
            return Err(Fault::Refused(PERMISSION_DENIED));
        }
        self.check_live(outside, &node)?;
        let count = self.most_read(count);
        match self.read_node(alloc, outside, number, fid, &node, offset, count)? {
            Some(bytes) => Ok(Some(Rmsg::Read { tag, bytes })),
            None => {
                self.park(tag, Wait { fid, count }, &node)?;
                Ok(None)
            }
        }
    }
}
