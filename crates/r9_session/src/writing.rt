//! Writing what is open (write(5)).

ghost use Rattle.std.specs.Prelude.{◌≡◌, ◌<◌, ◌^◌, length, IsSome, IfOk, IfSome};
ghost use Rattle.std.specs.Option.{option_map};
ghost use Rattle.model_draw.specs.draw.Act.{no_memory};
ghost use Rattle.model_files.specs.tree.Node.{writes};
ghost use Rattle.model_world.specs.Cut.{IsCutWrite};
ghost use Rattle.model_world.specs.Refusal.{IsRefused};
ghost use Rattle.model_world.specs.Writing.{write_answer};
ghost use Rattle.r9_wire.specs.View.{r_of};
ghost use Rattle.r9_files.specs.around.Words.{mark_after};
ghost use Rattle.r9_session.specs.Telling.{IsToldWrite};

use crate::session::Session;
use r9_files::access::write_file;
use r9_files::around::{Outside, Told};
use r9_files::files::{FID_NOT_OPEN, Fault, PERMISSION_DENIED, UNKNOWN_FID, refusal};
use r9_wire::Rmsg;
use std::alloc::Global;

/// The reply to a message, if it has one now.
#[derive(Debug, Drop)]
pub struct Answered {
    pub reply: Option<Rmsg>,
    /// Where memory ran out in a data write, or its mark took effect: how many of its draw messages were done.
    pub short: Option<u32>,
    /// The serial of the window or rio whose file was written; 0 where none was.
    pub wrote: u32,
    /// What is told of the messages of a data write.
    pub told: Option<Told>,
}

/// Whether a mode is for writing (open(5)).
pub(crate) fn writes(mode: u8) -> bool
    ensures { result ≡ writes mode }
{
    mode % 16 == 1 || mode % 16 == 2
}

impl Session {
    ghost use Rattle.r9_session.specs.Answers.{IsReply};

    /// Writes an open file. Where memory ran out in a data write, or its mark took effect, the messages before it stand and the
    /// reply refuses it.
    #[tactic(auto, unfolding(model_world::specs::Writing::write_answer))]
    pub fn write<O: Outside>(
        &self,
        alloc: Global,
        outside: &mut O,
        number: u32,
        tag: u16,
        fid: u32,
        offset: u64,
        bytes: &[u8],
        mark: Option<u32>,
    ) -> Result<Answered, Fault>
        requires linked { O.linked number self.now.made self.now.connections (O.state outside.old) }
        requires few { length bytes.now < 2 ^ 32 }
        ensures answer { IsReply mark self.now (O.state outside.old) result self.now (O.state outside.new) (λ m. write_answer (O.outside number) self.now (O.state outside.old) tag fid offset bytes.now m) }
        ensures cause { IfOk result (λ a. IfSome a.short (λ k. IsCutWrite (O.wants number) self.now (O.state outside.old) fid bytes.now mark k)) }
        ensures refused { IfOk result (λ a. IsSome a.short → IsRefused no_memory (option_map r_of a.reply)) }
        ensures told { IfOk result (λ a. IsRefused no_memory (option_map r_of a.reply) → IsSome a.short) }
        ensures messages { IfOk result (λ a. IsToldWrite (O.tells number) self.now (O.state outside.old) fid bytes.now (mark_after mark a.short) a.told) }
    {
        let Some(found) = self.fids.get(fid) else {
            return Err(Fault::Refused(UNKNOWN_FID));
        };
        let Some(mode) = found.mode() else {
            return Err(Fault::Refused(FID_NOT_OPEN));
        };
        let node = found.node();
        if !writes(mode) {
            return Err(Fault::Refused(PERMISSION_DENIED));
        }
        self.check_live(outside, &node)?;
        self.has_connection(outside, number, &node);
        let written = write_file(alloc, outside, number, &node, offset, bytes, mark)?;
        let reply = match written.refusal {
            Some(number) => refusal(alloc, tag, number)?,
            None => Rmsg::Write {
                tag,
                count: bytes.len() as u32,
            },
        };
        Ok(Answered {
            reply: Some(reply),
            short: written.short,
            wrote: 0,
            told: written.told,
        })
    }
}
