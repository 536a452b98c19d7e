//! Walking and telling of files (walk(5), stat(5)).

ghost use Rattle.std.specs.Prelude.{◌≡◌, ◌≢◌, ◌≤◌, ◌++◌, ℕ, List, false, length, map, IfOk, IfErr, OnOk, Ok, Err};
ghost use Rattle.model_files.specs.tree.Node.{qid};
ghost use Rattle.model_files.specs.tree.Node as model;
ghost use Rattle.model_files.specs.tree.Tree.{walk};
ghost use Rattle.model_world.specs.Session.{fid_at};
ghost use Rattle.model_world.specs.Fids.{with_fid, is_bound, is_full};
ghost use Rattle.model_world.specs.Walking.{walk_answer, walk_ended, walked, last};
ghost use Rattle.model_world.specs.Answer.{stat_answer, denied};
ghost use Rattle.r9_files.specs.around.Words.{IfRefused};
ghost use Rattle.model_files.specs.wire.Message.{Rstat};
ghost use Rattle.r9_tree.specs.View.{node_of, IsNode};
ghost use Rattle.r9_wire.specs.View.{r_of, stat_of};
ghost use Rattle.r9_session.specs.Answers.{IsAnswer, IsClosed};

use crate::session::Session;
use crate::waking::place_fid;
use r9_files::around::Outside;
use r9_files::files::{FID_IS_OPEN, Fault, Fid, PERMISSION_DENIED, UNKNOWN_FID};
use r9_memory::Memory;
use r9_text::Bytes;
use r9_tree::{Node, qid, stat, stat_without_view, walk, walk_without_view};
use r9_wire::{Names, Qids, Rmsg, Stat};
use std::alloc::Global;

/// How far a walk came: the file that it stands at, and the refusal of the name that it stopped at.
#[derive(Clone, Copy)]
struct Walked {
    node: Node,
    refusal: Option<u8>,
}

/// The reply that tells what a file is.
fn stat_reply(alloc: Global, tag: u16, stat: Stat) -> Result<Rmsg, Memory>
    ensures { IfOk result (λ reply. r_of reply ≡ Rstat tag (stat_of stat)) }
{
    let stat = Box::new(alloc, stat)?;
    Ok(Rmsg::Stat { tag, stat })
}

impl Session {
    /// One step of a walk from a file. A view is asked for only where it tells of the next file.
    #[tactic(auto, unfolding(model_files::specs::tree::Tree::walk))]
    fn step<O: Outside>(&self, outside: &O, from: &Node, name: &[u8]) -> Result<Node, Fault>
        requires { IsNode from.now }
        ensures found { IfOk result (λ next. (number : ℕ) → walk ((O.outside number).view (O.state outside.now) self.now.connections (node_of from.now)) (node_of from.now) name.now ≡ Ok (node_of next)) }
        ensures sound { IfOk result IsNode }
        ensures refused { IfErr result (λ f. IfRefused f (λ n. (number : ℕ) → walk ((O.outside number).view (O.state outside.now) self.now.connections (node_of from.now)) (node_of from.now) name.now ≡ Err n)) }
    {
        self.check_live(outside, from)?;
        if let Some(next) = walk_without_view(from, name) {
            return Ok(next);
        }
        let view = self.view(outside, from)?;
        let next = walk(from, name, &view)?;
        Ok(next)
    }

    /// Walks names one after the other from a file, and adds the qids of the files on the way.
    fn walk_names<O: Outside>(
        &self,
        outside: &O,
        from: Node,
        names: &[Bytes],
        qids: &mut Qids,
    ) -> Result<Walked, Memory>
        requires from { IsNode from }
        ensures qids { OnOk result ((number : ℕ) → qids.new ≡ qids.old ++ map qid (walked ((O.outside number).view (O.state outside.now) self.now.connections) (node_of from) names.now).0) }
        ensures node { IfOk result (λ w. (number : ℕ) → node_of w.node ≡ last (node_of from) (walked ((O.outside number).view (O.state outside.now) self.now.connections) (node_of from) names.now).0) }
        ensures is_node { IfOk result (λ w. IsNode w.node) }
        ensures refusal { IfOk result (λ w. (number : ℕ) → w.refusal ≡ (walked ((O.outside number).view (O.state outside.now) self.now.connections) (node_of from) names.now).1) }
    {
        let [name, others @ ..] = names else {
            return Ok(Walked {
                node: from,
                refusal: None,
            });
        };
        match self.step(outside, &from, name.as_slice()) {
            Err(Fault::Refused(refusal)) => Ok(Walked {
                node: from,
                refusal: Some(refusal),
            }),
            Err(Fault::Memory) => Err(Memory),
            Ok(next) => {
                qids.push(qid(&next))?;
                self.walk_names(outside, next, others, qids)
            }
        }
    }

    /// Lets a fid that is bound stand for another file.
    fn rebind(&mut self, fid: u32, node: Node) -> Result<(), Memory>
        requires closed { IsClosed self.old fid }
        requires node { IsNode node }
        ensures { OnOk result (self.new ≡ with_fid self.old fid (fid_at (node_of node))) }
    {
        place_fid(&self.waiting, &mut self.places, fid, node.serial)?;
        if let Some(found) = self.fids.get_mut(fid) {
            *found = Fid::at(node);
        }
        Ok(())
    }

    /// Binds a fid to the file that a walk came to, where it went all the way; newfid is fid itself, or is free.
    fn end_walk(
        &mut self,
        tag: u16,
        fid: u32,
        newfid: u32,
        walked: Walked,
        qids: Qids,
    ) -> Result<Rmsg, Fault>
        requires fid { IsClosed self.old fid }
        requires free { newfid ≢ fid → (is_bound self.old newfid ≡ false) × (is_full self.old ≡ false) }
        requires node { IsNode walked.node }
        requires few { length qids ≤ 16 }
        ensures { (from : model.Node) (nodes : List model.Node) → qids ≡ map qid nodes → node_of walked.node ≡ last from nodes → IsAnswer self.old result self.new (walk_ended self.old tag fid newfid from (nodes, walked.refusal)) }
    {
        match walked.refusal {
            Some(refusal) if qids.as_slice().is_empty() => return Err(Fault::Refused(refusal)),
            Some(_) => {}
            None if newfid == fid => self.rebind(fid, walked.node)?,
            None => self.bind(newfid, walked.node)?,
        }
        Ok(Rmsg::Walk { tag, qids })
    }

    /// Names a file further down by another fid.
    #[tactic(auto, unfolding(model_world::specs::Walking::walk_answer))]
    pub fn walk<O: Outside>(
        &mut self,
        alloc: Global,
        outside: &O,
        tag: u16,
        fid: u32,
        newfid: u32,
        names: &Names,
    ) -> Result<Rmsg, Fault>
        requires { length names.now ≤ 16 }
        ensures { (number : ℕ) → IsAnswer self.old result self.new (walk_answer (O.outside number) self.old (O.state outside.now) tag fid newfid names.now) }
    {
        let Some(found) = self.fids.get(fid) else {
            return Err(Fault::Refused(UNKNOWN_FID));
        };
        if found.mode().is_some() {
            return Err(Fault::Refused(FID_IS_OPEN));
        }
        let from = found.node();
        if newfid != fid {
            self.check_free(newfid)?;
        }
        let mut qids = Qids::new(alloc);
        let walked = self.walk_names(outside, from, names.as_slice(), &mut qids)?;
        self.end_walk(tag, fid, newfid, walked, qids)
    }

    /// Tells what a file is.
    #[tactic(auto, unfolding(model_world::specs::Answer::stat_answer))]
    pub fn stat<O: Outside>(
        &self,
        alloc: Global,
        outside: &O,
        tag: u16,
        fid: u32,
    ) -> Result<Rmsg, Fault>
        ensures { (number : ℕ) → IsAnswer self.now result self.now (stat_answer (O.outside number) self.now (O.state outside.now) tag fid) }
    {
        let Some(found) = self.fids.get(fid) else {
            return Err(Fault::Refused(UNKNOWN_FID));
        };
        let node = found.node();
        self.check_live(outside, &node)?;
        if let Some(stat) = stat_without_view(alloc, &node)? {
            return Ok(stat_reply(alloc, tag, stat)?);
        }
        let view = self.view(outside, &node)?;
        let stat = stat(alloc, &node, &view)?;
        Ok(stat_reply(alloc, tag, stat)?)
    }

    /// Refuses to make a file, or to change what it is.
    pub fn deny(&self, fid: u32) -> Result<Rmsg, Fault>
        ensures { IsAnswer self.now result self.now (denied self.now fid) }
    {
        match self.fids.get(fid) {
            Some(_) => Err(Fault::Refused(PERMISSION_DENIED)),
            None => Err(Fault::Refused(UNKNOWN_FID)),
        }
    }
}
