//! Binding fids (intro(5)), and naming the root of a tree (attach(5), rio(4)).

ghost use Rattle.std.specs.Prelude.{◌≡◌, ℕ, false, OnOk, IsErrOf};
ghost use Rattle.model_world.specs.Session.{fid_at};
ghost use Rattle.model_world.specs.Fids.{and_fid, is_bound, is_full};
ghost use Rattle.model_world.specs.Walking.{attach_answer};
ghost use Rattle.r9_tree.specs.View.{node_of, IsNode};
ghost use Rattle.r9_session.specs.Answers.{IsFree, IsReach};

use crate::session::Session;
use crate::waking::place_fid;
use r9_fids::{FidFault, LIMIT};
use r9_files::around::Outside;
use r9_files::files::{FID_IN_USE, Fault, Fid, NO_AUTHENTICATION, TOO_MANY_FIDS};
use r9_tree::{Node, qid, read_attach, root_of};
use r9_wire::{NO_FID, Rmsg};
use std::alloc::Global;

impl Session {
    /// Whether a fid can be bound: not where it is bound or is the number of no fid, and not where 1,024 are bound.
    pub(crate) fn check_free(&self, fid: u32) -> Result<(), Fault>
        ensures { IsFree self.now fid result }
    {
        if fid == NO_FID || self.fids.get(fid).is_some() {
            return Err(Fault::Refused(FID_IN_USE));
        }
        if self.fids.len() >= LIMIT {
            return Err(Fault::Refused(TOO_MANY_FIDS));
        }
        Ok(())
    }

    /// Binds a fid that is free to a file.
    pub(crate) fn bind(&mut self, fid: u32, node: Node) -> Result<(), Fault>
        requires bound { is_bound self.old fid ≡ false }
        requires full { is_full self.old ≡ false }
        requires node { IsNode node }
        ensures ok { OnOk result (self.new ≡ and_fid self.old fid (fid_at (node_of node))) }
        ensures memory { (n : ℕ) → IsErrOf result (Fault.Refused n) → ⊥ }
    {
        place_fid(&self.waiting, &mut self.places, fid, node.serial)?;
        match self.fids.bind(fid, Fid::at(node)) {
            Ok(()) => Ok(()),
            Err(FidFault::Refused(number)) => Err(Fault::Refused(number)),
            Err(FidFault::Memory) => Err(Fault::Memory),
        }
    }

    /// Names the root of a tree by a fid: the device tree's, a window's, or that of a window which is made for it.
    #[tactic(auto, unfolding(model_world::specs::Walking::attach_answer))]
    pub fn attach<O: Outside>(
        &mut self,
        alloc: Global,
        outside: &mut O,
        number: u32,
        tag: u16,
        fid: u32,
        afid: u32,
        aname: &[u8],
    ) -> Result<Rmsg, Fault>
        ensures { IsReach self.old (O.state outside.old) result self.new (O.state outside.new) (attach_answer (O.outside number) self.old (O.state outside.old) tag fid afid aname.now) }
    {
        if afid != NO_FID {
            return Err(Fault::Refused(NO_AUTHENTICATION));
        }
        self.check_free(fid)?;
        let name = read_attach(alloc, aname)?;
        let root = root_of(outside.attach(number, &name)?);
        self.bind(fid, root)?;
        Ok(Rmsg::Attach {
            tag,
            qid: qid(&root),
        })
    }
}
