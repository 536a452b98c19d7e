//! What a session answers to a message (intro(5), version(5), flush(5)).

ghost use Rattle.std.specs.Prelude.{◌≡◌, ◌<◌, ◌≤◌, ◌^◌, ◌==◌, ℕ, Option, None, Some, length, true, false, is_ok, IsSome, IfOk, IfSome, OnOk};
ghost use Rattle.std.specs.List.{before_first};
ghost use Rattle.std.specs.Option.{option_map};
ghost use Rattle.model_files.specs.wire.Message.{tag_of_t, Rflush, Rversion};
ghost use Rattle.model_files.specs.wire.Spelling.{FitsR, FitsT};
ghost use Rattle.model_files.specs.wire.Reading.{message_of, tag_of};
ghost use Rattle.model_world.specs.Answer.{Reads, answer, answer_to, answer_read, asks_for_9p, closed_by, is_version, read_or_not, replied, taking, version_answer};
ghost use Rattle.model_draw.specs.draw.Act.{no_memory};
ghost use Rattle.model_world.specs.Fids.{cleared};
ghost use Rattle.model_world.specs.Refusal.{refusal, IsRefused};
ghost use Rattle.model_world.specs.Cut.{IsCut, IsCutMessage, IsCutSpelled};
ghost use Rattle.model_world.specs.Sleeping.{written_at, written_to};
ghost use Rattle.model_world.specs.Waiting.{flushed};
ghost use Rattle.r9_wire.specs.View.{r_of, t_of};
ghost use Rattle.r9_session.specs.Answers.{IsBegun, IsNewTag, IsReach, IsReply, uses_file};
ghost use Rattle.r9_session.specs.Clients.{left_of};
ghost use Rattle.r9_session.specs.Telling.{IsToldOf, IsToldRead};
ghost use Rattle.r9_files.specs.around.Words.{mark_after};

use crate::session::{MAX_MSIZE, Session};
use crate::taking::{Taking, tag_of as tag_in};
use crate::writing::Answered;
use r9_files::around::Outside;
use r9_files::files::{
    BAD_MESSAGE, Fault, MSIZE_TOO_SMALL, NO_AUTHENTICATION, PERMISSION_DENIED, VERSION_FIRST,
    refusal,
};
use r9_memory::Memory;
use r9_text::Bytes;
use r9_wire::{NO_TAG, Rmsg, Tmsg, WireFault, read_t};
use std::alloc::Global;

/// The least size of a message in bytes that a client may ask for.
const MIN_MSIZE: u32 = 256;

/// The protocol.
const PROTOCOL: &str = "9P2000";

/// What stands before the first period.
fn before_period(text: &[u8]) -> &[u8]
    ensures { result.now ≡ before_first (λ byte. byte == 46) text.now }
{
    for (at, byte) in text.iter().enumerate() {
        if *byte == b'.' {
            return &text[..at];
        }
    }
    text
}

/// Whether a version asks for this protocol.
fn asks_for_9p(version: &[u8]) -> bool
    ensures { result ≡ asks_for_9p version.now }
{
    before_period(version) == PROTOCOL.as_bytes()
}

/// The tag of a message.
fn tag_of(m: &Tmsg) -> u16
    ensures { result ≡ tag_of_t (t_of m.now) }
{
    match m {
        Tmsg::Version { tag, .. }
        | Tmsg::Auth { tag, .. }
        | Tmsg::Attach { tag, .. }
        | Tmsg::Flush { tag, .. }
        | Tmsg::Walk { tag, .. }
        | Tmsg::Open { tag, .. }
        | Tmsg::Create { tag, .. }
        | Tmsg::Read { tag, .. }
        | Tmsg::Write { tag, .. }
        | Tmsg::Clunk { tag, .. }
        | Tmsg::Remove { tag, .. }
        | Tmsg::Stat { tag, .. }
        | Tmsg::Wstat { tag, .. } => *tag,
    }
}

fn is_version(m: &Tmsg) -> bool
    ensures { result ≡ is_version (t_of m.now) }
{
    matches!(m, Tmsg::Version { .. })
}

fn version_reply(alloc: Global, tag: u16, msize: u32, name: &str) -> Result<Rmsg, Memory>
    requires { length name.now < 2 ^ 16 }
    ensures reply { IfOk result (λ reply. r_of reply ≡ Rversion tag msize name.now) }
    ensures fits { IfOk result (λ reply. FitsR (r_of reply)) }
{
    let version = Bytes::from_slice(alloc, name.as_bytes())?;
    Ok(Rmsg::Version {
        tag,
        msize,
        version,
    })
}

/// No reply.
fn silence() -> Answered
    ensures { (result.reply ≡ None) × (result.short ≡ None) × (result.wrote ≡ 0) }
{
    Answered {
        reply: None,
        short: None,
        wrote: 0,
        told: None,
    }
}

/// The answer that refuses a message, by the reason of a number.
fn refuse(alloc: Global, tag: u16, number: u8) -> Result<Answered, Memory>
    ensures reply { IfOk result (λ a. (option_map r_of a.reply ≡ Some (refusal tag number)) × IfSome a.reply (λ reply. FitsR (r_of reply))) }
    ensures whole { IfOk result (λ a. a.short ≡ None) }
    ensures wrote { IfOk result (λ a. a.wrote ≡ 0) }
{
    let reply = refusal(alloc, tag, number)?;
    Ok(Answered {
        reply: Some(reply),
        short: None,
        wrote: 0,
        told: None,
    })
}

impl Session {
    /// Begins the session anew, with a version agreed or not. Its fids go, and all that goes with them.
    #[tactic(auto, unfolding(model_world::specs::Answer::version_answer), using(crate::proofs::Gone::version_is))]
    fn version<O: Outside>(
        &mut self,
        alloc: Global,
        outside: &mut O,
        number: u32,
        tag: u16,
        msize: u32,
        version: &[u8],
    ) -> Result<Rmsg, Fault>
        requires { O.linked number self.old.made self.old.connections (O.state outside.old) }
        ensures { IsReach self.old (O.state outside.old) result self.new (O.state outside.new) (version_answer (O.outside number) self.old (O.state outside.old) tag msize version.now) }
    {
        if msize < MIN_MSIZE {
            return Err(Fault::Refused(MSIZE_TOO_SMALL));
        }
        self.clear(alloc, outside, number)?;
        let msize = msize.min(MAX_MSIZE);
        self.agreed = asks_for_9p(version);
        if self.agreed {
            self.msize = msize;
            Ok(version_reply(alloc, tag, msize, PROTOCOL)?)
        } else {
            self.msize = MAX_MSIZE;
            Ok(version_reply(alloc, tag, msize, "unknown")?)
        }
    }

    /// The read of a tag waits no longer, and has no reply.
    fn flush(&mut self, tag: u16, oldtag: u16) -> Rmsg
        ensures session { self.new ≡ flushed self.old oldtag }
        ensures reply { r_of result ≡ Rflush tag }
    {
        self.waiting.flush(oldtag);
        Rmsg::Flush { tag }
    }

    /// Answers a message that neither reads an open file nor writes it, in a session that has agreed on a version.
    fn answer_other<O: Outside>(
        &mut self,
        alloc: Global,
        outside: &mut O,
        number: u32,
        m: &Tmsg,
    ) -> Result<Rmsg, Fault>
        requires fits { FitsT (t_of m.now) }
        requires linked { O.linked number self.old.made self.old.connections (O.state outside.old) }
        requires other { uses_file (t_of m.now) ≡ false }
        ensures { (mark : Option ℕ) → IsReach self.old (O.state outside.old) result self.new (O.state outside.new) (answer_to (O.outside number) self.old (O.state outside.old) mark (t_of m.now)) }
    {
        match m {
            Tmsg::Version {
                tag,
                msize,
                version,
            } => self.version(alloc, outside, number, *tag, *msize, version.as_slice()),
            Tmsg::Auth { .. } => Err(Fault::Refused(NO_AUTHENTICATION)),
            Tmsg::Attach {
                tag,
                fid,
                afid,
                aname,
                ..
            } => self.attach(alloc, outside, number, *tag, *fid, *afid, aname.as_slice()),
            Tmsg::Flush { tag, oldtag } => Ok(self.flush(*tag, *oldtag)),
            Tmsg::Walk {
                tag,
                fid,
                newfid,
                names,
            } => self.walk(alloc, outside, *tag, *fid, *newfid, names),
            Tmsg::Open { tag, fid, mode } => self.open(outside, number, *tag, *fid, *mode),
            Tmsg::Create { fid, .. }
            | Tmsg::Wstat { fid, .. }
            | Tmsg::Read { fid, .. }
            | Tmsg::Write { fid, .. } => self.deny(*fid),
            Tmsg::Clunk { tag, fid } => {
                self.clunk(alloc, outside, number, *fid)?;
                Ok(Rmsg::Clunk { tag: *tag })
            }
            Tmsg::Remove { tag, fid } => {
                let reply = refusal(alloc, *tag, PERMISSION_DENIED)?;
                self.clunk(alloc, outside, number, *fid)?;
                Ok(reply)
            }
            Tmsg::Stat { tag, fid } => self.stat(alloc, outside, *tag, *fid),
        }
    }

    /// Whether a message is answered: each but a Tversion needs a tag and an agreed version.
    fn check_begun(&self, m: &Tmsg) -> Result<(), Fault>
        ensures { IsBegun self.now (t_of m.now) result }
    {
        let begins = is_version(m);
        if !begins && tag_of(m) == NO_TAG {
            return Err(Fault::Refused(BAD_MESSAGE));
        }
        if !begins && !self.agreed {
            return Err(Fault::Refused(VERSION_FIRST));
        }
        Ok(())
    }

    /// Answers a message that was read.
    #[tactic(auto, unfolding(model_world::specs::Answer::answer_read))]
    fn answer_read<O: Outside>(
        &mut self,
        alloc: Global,
        outside: &mut O,
        number: u32,
        m: &Tmsg,
        mark: Option<u32>,
    ) -> Result<Answered, Fault>
        requires fits { FitsT (t_of m.now) }
        requires linked { O.linked number self.old.made self.old.connections (O.state outside.old) }
        requires fresh { IsNewTag self.old (t_of m.now) }
        ensures answer { IsReply mark self.old (O.state outside.old) result self.new (O.state outside.new) (λ k. answer_read (O.outside number) self.old (O.state outside.old) k (t_of m.now)) }
        ensures cause { IfOk result (λ a. IfSome a.short (λ k. IsCut (O.wants number) self.old (O.state outside.old) mark k (t_of m.now))) }
        ensures refused { IfOk result (λ a. IsSome a.short → IsRefused no_memory (option_map r_of a.reply)) }
        ensures told { IfOk result (λ a. IsRefused no_memory (option_map r_of a.reply) → IsSome a.short) }
        ensures messages { IfOk result (λ a. IsToldOf (O.tells number) self.old (O.state outside.old) (mark_after mark a.short) a.told (t_of m.now)) }
    {
        self.check_begun(m)?;
        match m {
            Tmsg::Write {
                tag,
                fid,
                offset,
                bytes,
            } => {
                let bytes = bytes.as_slice();
                self.write(alloc, outside, number, *tag, *fid, *offset, bytes, mark)
            }
            Tmsg::Read {
                tag,
                fid,
                offset,
                count,
            } => {
                let reply = self.read(alloc, outside, number, *tag, *fid, *offset, *count)?;
                Ok(Answered {
                    reply,
                    short: None,
                    wrote: 0,
                    told: None,
                })
            }
            _ => {
                let reply = self.answer_other(alloc, outside, number, m)?;
                Ok(Answered {
                    reply: Some(reply),
                    short: None,
                    wrote: 0,
                    told: None,
                })
            }
        }
    }

    /// The serial of the file that a message writes; 0 where it writes none, or its fid is not bound.
    fn written_by(&self, m: &Tmsg) -> u32
        ensures { result ≡ written_to self.now (Some (t_of m.now)) }
    {
        let Tmsg::Write { fid, .. } = m else {
            return 0;
        };
        match self.fids.get(*fid) {
            Some(found) => found.node().serial,
            None => 0,
        }
    }

    /// Answers a message that was read, or refuses it.
    fn answer_or_refuse<O: Outside>(
        &mut self,
        alloc: Global,
        outside: &mut O,
        number: u32,
        tag: u16,
        m: &Tmsg,
        mark: Option<u32>,
    ) -> Result<Answered, Memory>
        requires fits { FitsT (t_of m.now) }
        requires linked { O.linked number self.old.made self.old.connections (O.state outside.old) }
        requires fresh { IsNewTag self.old (t_of m.now) }
        ensures answer { IfOk result (λ a. replied self.old (O.state outside.old) tag (answer_read (O.outside number) self.old (O.state outside.old) (mark_after mark a.short) (t_of m.now)) ≡ record { session = self.new; rest = O.state outside.new; reply = option_map r_of a.reply }) }
        ensures fits { IfOk result (λ a. IfSome a.reply (λ reply. FitsR (r_of reply))) }
        ensures cause { IfOk result (λ a. IfSome a.short (λ k. IsCut (O.wants number) self.old (O.state outside.old) mark k (t_of m.now))) }
        ensures refused { IfOk result (λ a. IsSome a.short → IsRefused no_memory (option_map r_of a.reply)) }
        ensures told { IfOk result (λ a. IsRefused no_memory (option_map r_of a.reply) → IsSome a.short) }
        ensures messages { IfOk result (λ a. is_ok (answer_read (O.outside number) self.old (O.state outside.old) (mark_after mark a.short) (t_of m.now)) ≡ true → IsToldOf (O.tells number) self.old (O.state outside.old) (mark_after mark a.short) a.told (t_of m.now)) }
        ensures linked { OnOk result (O.linked number self.new.made self.new.connections (O.state outside.new)) }
        ensures others { OnOk result (O.others number (O.state outside.old) (O.state outside.new)) }
    {
        match self.answer_read(alloc, outside, number, m, mark) {
            Ok(answered) => Ok(answered),
            Err(Fault::Refused(refused)) => refuse(alloc, tag, refused),
            Err(Fault::Memory) => Err(Memory),
        }
    }

    /// Reads a message, and answers it or refuses it.
    fn answer_taken<O: Outside>(
        &mut self,
        alloc: Global,
        outside: &mut O,
        number: u32,
        bytes: &[u8],
        mark: Option<u32>,
    ) -> Result<Answered, Memory>
        requires long { 7 ≤ length bytes.now }
        requires linked { O.linked number self.old.made self.old.connections (O.state outside.old) }
        requires taken { taking self.old bytes.now ≡ Reads }
        ensures answer { IfOk result (λ a. replied self.old (O.state outside.old) (tag_of bytes.now) (read_or_not (O.outside number) self.old (O.state outside.old) (mark_after mark a.short) (message_of bytes.now)) ≡ record { session = self.new; rest = O.state outside.new; reply = option_map r_of a.reply }) }
        ensures fits { IfOk result (λ a. IfSome a.reply (λ reply. FitsR (r_of reply))) }
        ensures cause { IfOk result (λ a. IfSome a.short (λ k. IsCutSpelled (O.wants number) self.old (O.state outside.old) bytes.now mark k)) }
        ensures refused { IfOk result (λ a. IsSome a.short → IsRefused no_memory (option_map r_of a.reply)) }
        ensures told { IfOk result (λ a. IsRefused no_memory (option_map r_of a.reply) → IsSome a.short) }
        ensures messages { IfOk result (λ a. is_ok (read_or_not (O.outside number) self.old (O.state outside.old) (mark_after mark a.short) (message_of bytes.now)) ≡ true → IsToldRead (O.tells number) self.old (O.state outside.old) (mark_after mark a.short) a.told (message_of bytes.now)) }
        ensures wrote { IfOk result (λ a. a.wrote ≡ written_to self.old (message_of bytes.now)) }
        ensures linked { OnOk result (O.linked number self.new.made self.new.connections (O.state outside.new)) }
        ensures others { OnOk result (O.others number (O.state outside.old) (O.state outside.new)) }
    {
        let tag = tag_in(bytes);
        match read_t(alloc, bytes) {
            Ok(m) => {
                let wrote = self.written_by(&m);
                let answered = self.answer_or_refuse(alloc, outside, number, tag, &m, mark)?;
                Ok(Answered { wrote, ..answered })
            }
            Err(WireFault::Malformed(_)) => refuse(alloc, tag, BAD_MESSAGE),
            Err(WireFault::Memory) => Err(Memory),
        }
    }

    /// Closes the session, which has nothing any more.
    fn close<O: Outside>(
        &mut self,
        alloc: Global,
        outside: &mut O,
        number: u32,
        tag: u16,
    ) -> Result<Answered, Memory>
        requires { O.linked number self.old.made self.old.connections (O.state outside.old) }
        ensures closed { OnOk result (closed_by tag (cleared (O.outside number) self.old (O.state outside.old)) ≡ left_of self.new (O.state outside.new)) }
        ensures silent { IfOk result (λ a. (a.reply ≡ None) × (a.short ≡ None) × (a.wrote ≡ 0)) }
        ensures linked { OnOk result (O.linked number self.new.made self.new.connections (O.state outside.new)) }
        ensures others { OnOk result (O.others number (O.state outside.old) (O.state outside.new)) }
    {
        self.clear(alloc, outside, number)?;
        self.closed = Some(tag);
        Ok(silence())
    }

    /// Answers the bytes of a message of the session that has the number that is given. There is no reply where a read waits from
    /// then on, where the message closes the session, and where the session is closed. A mark tells that memory ran out in a data
    /// write after so many draw messages; the answer tells the mark with which the message stands in the history where the reply is
    /// the refusal of want of memory, and only there. After an `Err` nothing is said of the session and the outside: they are not to
    /// be used again.
    #[tactic(auto, unfolding(model_world::specs::Answer::answer))]
    pub fn answer<O: Outside>(
        &mut self,
        alloc: Global,
        outside: &mut O,
        number: u32,
        bytes: &[u8],
        mark: Option<u32>,
    ) -> Result<Answered, Memory>
        requires long { 7 ≤ length bytes.now }
        requires linked { O.linked number self.old.made self.old.connections (O.state outside.old) }
        ensures answer { IfOk result (λ a. answer (O.outside number) self.old (O.state outside.old) bytes.now (mark_after mark a.short) ≡ record { session = self.new; rest = O.state outside.new; reply = option_map r_of a.reply }) }
        ensures fits { IfOk result (λ a. IfSome a.reply (λ reply. FitsR (r_of reply))) }
        ensures short { IfOk result (λ a. IfSome a.short (λ k. IsCutMessage (O.outside number) (O.wants number) self.old (O.state outside.old) bytes.now mark k)) }
        ensures told { IfOk result (λ a. IsRefused no_memory (option_map r_of a.reply) → IsSome a.short) }
        ensures messages { IfOk result (λ a. taking self.old bytes.now ≡ Reads → is_ok (read_or_not (O.outside number) self.old (O.state outside.old) (mark_after mark a.short) (message_of bytes.now)) ≡ true → IsToldRead (O.tells number) self.old (O.state outside.old) (mark_after mark a.short) a.told (message_of bytes.now)) }
        ensures wrote { IfOk result (λ a. a.wrote ≡ written_at self.old bytes.now) }
        ensures linked { OnOk result (O.linked number self.new.made self.new.connections (O.state outside.new)) }
        ensures others { OnOk result (O.others number (O.state outside.old) (O.state outside.new)) }
    {
        match self.taking(bytes) {
            Taking::Ignored => Ok(silence()),
            Taking::TooLong => refuse(alloc, tag_in(bytes), BAD_MESSAGE),
            Taking::Closes => self.close(alloc, outside, number, tag_in(bytes)),
            Taking::Reads => self.answer_taken(alloc, outside, number, bytes, mark),
        }
    }
}
