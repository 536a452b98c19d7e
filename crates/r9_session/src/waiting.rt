//! Reads that wait, and what they get at last (read(5), flush(5), rio(4)).

ghost use Rattle.std.specs.Prelude.{◌≡◌, ◌≤◌, ◌<◌, ◌+◌, length, max, take, drop, None, Some, IfOk, IfSome, IfNone, OnOk};
ghost use Rattle.model_text.specs.text.Map.{lookup};
ghost use Rattle.model_files.specs.wire.Spelling.{FitsR};
ghost use Rattle.model_world.specs.Reading.{given_now};
ghost use Rattle.model_world.specs.Waiting.{first_of, one_answered, wait_answer};
ghost use Rattle.r9_wire.specs.View.{r_of};
ghost use Rattle.r9_session.specs.Reads.{IsAwaited, IsFirst, IsGivenOf};

use crate::session::Session;
use r9_files::access::read_now;
use r9_files::around::Outside;
use r9_files::files::{Fault, UNKNOWN_FID, refusal};
use r9_memory::Memory;
use r9_text::Bytes;
use r9_wire::Rmsg;
use std::alloc::Global;

impl Session {
    /// What an open file gives now that may have nothing to give. None exactly where its read waits on.
    fn give<O: Outside>(
        &mut self,
        alloc: Global,
        outside: &mut O,
        number: u32,
        fid: u32,
        count: u32,
    ) -> Result<Option<Bytes>, Memory>
        ensures given { IfSome (lookup self.old.fids fid) (λ found. IsGivenOf self.old (O.state outside.old) fid result self.new (O.state outside.new) (given_now (O.outside number) (O.state outside.old) found count found.node.kind)) }
        ensures short { IfOk result (λ given. IfSome given (λ bytes. length bytes ≤ max count 128)) }
    {
        if let Some(found) = self.fids.get_mut(fid) {
            return read_now(alloc, outside, number, found, count);
        }
        Ok(None)
    }

    /// What a read that waits gets now: None where it waits on. Refused where its fid or its window is gone.
    #[tactic(auto, unfolding(model_world::specs::Waiting::wait_answer))]
    fn read_again<O: Outside>(
        &mut self,
        alloc: Global,
        outside: &mut O,
        number: u32,
        fid: u32,
        count: u32,
    ) -> Result<Option<Bytes>, Fault>
        ensures read { IsAwaited self.old (O.state outside.old) fid result self.new (O.state outside.new) (wait_answer (O.outside number) self.old (O.state outside.old) (record { fid = fid; count = count })) }
        ensures short { IfOk result (λ given. IfSome given (λ bytes. length bytes ≤ max count 128)) }
    {
        let Some(found) = self.fids.get(fid) else {
            return Err(Fault::Refused(UNKNOWN_FID));
        };
        let node = found.node();
        self.check_live(outside, &node)?;
        Ok(self.give(alloc, outside, number, fid, count)?)
    }

    /// Answers the read at a place among those that wait, if it can be.
    fn answer_at<O: Outside>(
        &mut self,
        alloc: Global,
        outside: &mut O,
        number: u32,
        place: usize,
    ) -> Result<Option<Rmsg>, Memory>
        requires { place < length self.old.waiting }
        ensures { IfOk result (λ given. IsFirst self.old (O.state outside.old) given self.new (O.state outside.new) (first_of (O.outside number) self.old (O.state outside.old) (take place self.old.waiting) (drop place self.old.waiting)) (first_of (O.outside number) self.old (O.state outside.old) (take (place + 1) self.old.waiting) (drop (place + 1) self.old.waiting))) }
    {
        let (tag, wait) = &self.waiting.as_slice()[place];
        let (tag, fid, count) = (*tag, wait.fid, wait.count);
        let reply = match self.read_again(alloc, outside, number, fid, count) {
            Ok(None) => return Ok(None),
            Ok(Some(bytes)) => Rmsg::Read { tag, bytes },
            Err(Fault::Refused(refused)) => refusal(alloc, tag, refused)?,
            Err(Fault::Memory) => return Err(Memory),
        };
        self.waiting.remove(place);
        Ok(Some(reply))
    }

    /// Answers the first read that can be, from a place among those that wait on.
    fn answer_from<O: Outside>(
        &mut self,
        alloc: Global,
        outside: &mut O,
        number: u32,
        place: usize,
    ) -> Result<Option<Rmsg>, Memory>
        requires { place ≤ length self.old.waiting }
        ensures { IfOk result (λ given. IsFirst self.old (O.state outside.old) given self.new (O.state outside.new) (first_of (O.outside number) self.old (O.state outside.old) (take place self.old.waiting) (drop place self.old.waiting)) None) }
    {
        if place >= self.waiting.len() {
            return Ok(None);
        }
        match self.answer_at(alloc, outside, number, place)? {
            Some(reply) => Ok(Some(reply)),
            None => self.answer_from(alloc, outside, number, place + 1),
        }
    }

    /// Answers the earliest of the reads that wait and can be answered, of the session that has the number that is given. None exactly
    /// where none can be, and then all is as before; no memory is taken for a read that waits on but of `wctl`. After Memory nothing
    /// is said of the session and the outside.
    pub fn answer_waiting<O: Outside>(
        &mut self,
        alloc: Global,
        outside: &mut O,
        number: u32,
    ) -> Result<Option<Rmsg>, Memory>
        requires { O.linked number self.old.made self.old.connections (O.state outside.old) }
        ensures answered { IfOk result (λ given. IfSome given (λ reply. one_answered (O.outside number) self.old (O.state outside.old) ≡ Some (record { session = self.new; rest = O.state outside.new; reply = Some (r_of reply) }))) }
        ensures none { IfOk result (λ given. IfNone given (one_answered (O.outside number) self.old (O.state outside.old) ≡ None)) }
        ensures kept { IfOk result (λ given. IfNone given ((self.new ≡ self.old) × (O.state outside.new ≡ O.state outside.old))) }
        ensures fits { IfOk result (λ given. IfSome given (λ reply. FitsR (r_of reply))) }
        ensures linked { OnOk result (O.linked number self.new.made self.new.connections (O.state outside.new)) }
        ensures others { OnOk result (O.others number (O.state outside.old) (O.state outside.new)) }
    {
        self.answer_from(alloc, outside, number, 0)
    }
}
