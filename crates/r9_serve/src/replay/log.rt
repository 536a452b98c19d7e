//! Replies kept in little memory, and their lines.

ghost use Rattle.std.specs.Prelude.{◌≡◌, ◌≤◌, ◌++◌, ◌∷◌, [], List, ℕ, false, IfOk, OnOk, OnErr, IsErrOf};
ghost use Rattle.r9_event.specs.declared.event.event.Reply.{Reply};
ghost use Rattle.r9_outside.specs.outside.Count.{Rose};
ghost use Rattle.r9_outside.specs.outside.Sink.{Appends, AppendsPart};
ghost use Rattle.model_history.specs.records.Line.{reply_line, reply_lines};
ghost use Rattle.r9_serve.specs.replay.Log.{cut_replies, AreCut};

use r9_event::event::Reply;
use r9_journal::write_reply_of;
use r9_memory::Memory;
use r9_outside::outside::{Sink, SinkFault, put_all};
use r9_text::Bytes;
use std::alloc::Global;
use std::marker::Model;

/// So many bytes of lines are put at once at least, but for the last ones.
const PIECE: usize = 1 << 16;

/// The session of a reply, and how many bytes the reply has.
#[derive(Clone, Copy, Debug)]
struct Mark {
    session: u32,
    len: usize,
}

/// Replies in the order in which they were given. It holds their bytes joined, and a mark for each.
#[derive(Drop)]
pub struct ReplyLog {
    marks: Vec<Mark>,
    bytes: Bytes,
}

impl Model for ReplyLog {
    ghost use Rattle.std.specs.Prelude.{List};
    ghost use Rattle.r9_event.specs.declared.event.event.Reply.{Reply};
    ghost use Rattle.r9_serve.specs.replay.Log.{cut_replies, AreCut};

    ghost Value = { List Reply };

    ghost view = { λ l. cut_replies l.marks.items l.bytes };

    ghost invariant = { λ l. AreCut l.marks.items l.bytes };
}

/// Adds the line of a reply to lines that wait, and puts these once they are many. After an `Err` only a front of them was
/// put, which may be empty.
fn put_line<O: Sink>(
    out: &mut O,
    lines: &mut Bytes,
    session: u32,
    frame: &[u8],
) -> Result<(), SinkFault>
    ensures ok { OnOk result ((put : List ℕ) × Appends (O.held out.old) put (O.held out.new) ×
        (put ++ lines.new ≡ lines.old ++ reply_line (record { session = session; bytes = frame.now }))) }
    ensures part { AppendsPart (O.held out.old) (lines.old ++ reply_line (record { session = session; bytes = frame.now })) (O.held out.new) }
    ensures failed { IsErrOf result SinkFault.Failed → Rose (O.faults out.old) (O.faults out.new) }
    ensures counted { O.faults out.old ≤ O.faults out.new }
{
    let Ok(()) = write_reply_of(session, frame, lines) else {
        return Err(SinkFault::Memory);
    };
    if lines.len() < PIECE {
        return Ok(());
    }
    put_all(out, lines.as_slice())?;
    lines.clear();
    Ok(())
}

/// Puts the lines of replies that joined bytes hold, and answers those that are still to be put.
fn put_most<O: Sink>(
    alloc: Global,
    out: &mut O,
    marks: &[Mark],
    bytes: &[u8],
) -> Result<Bytes, SinkFault>
    requires { AreCut marks.now bytes.now }
    ensures ok { IfOk result (λ lines. (put : List ℕ) × Appends (O.held out.old) put (O.held out.new) ×
        (put ++ lines ≡ reply_lines (cut_replies marks.now bytes.now))) }
    ensures part { AppendsPart (O.held out.old) (reply_lines (cut_replies marks.now bytes.now)) (O.held out.new) }
    ensures failed { IsErrOf result SinkFault.Failed → Rose (O.faults out.old) (O.faults out.new) }
    ensures counted { O.faults out.old ≤ O.faults out.new }
{
    let mut lines = Bytes::new(alloc);
    let mut rest = bytes;
    for mark in marks {
        let (frame, behind) = rest.split_at(mark.len);
        put_line(out, &mut lines, mark.session, frame)?;
        rest = behind;
    }
    Ok(lines)
}

impl ReplyLog {
    /// No replies.
    pub fn new(alloc: Global) -> Self
        ensures { result ≡ [] }
    {
        ReplyLog {
            marks: Vec::new(alloc),
            bytes: Bytes::new(alloc),
        }
    }

    /// Adds a reply at the end, or nothing for want of memory.
    pub fn push(&mut self, reply: &Reply) -> Result<(), Memory>
        ensures ok { OnOk result (self.new ≡ self.old ++ reply.now ∷ []) }
        ensures err { OnErr result (self.new ≡ self.old) }
    {
        self.marks.reserve(1)?;
        self.bytes.push_all(reply.bytes.as_slice())?;
        self.marks.push(Mark {
            session: reply.session,
            len: reply.bytes.len(),
        })?;
        Ok(())
    }

    /// Puts the line of each reply, and sends them on. After an `Err` only a front of the lines was put, which may be empty.
    pub fn put_lines<O: Sink>(&self, alloc: Global, out: &mut O) -> Result<(), SinkFault>
        ensures ok { OnOk result (Appends (O.held out.old) (reply_lines self.now) (O.held out.new) × (O.unflushed out.new ≡ false)) }
        ensures part { AppendsPart (O.held out.old) (reply_lines self.now) (O.held out.new) }
        ensures failed { IsErrOf result SinkFault.Failed → Rose (O.faults out.old) (O.faults out.new) }
        ensures counted { O.faults out.old ≤ O.faults out.new }
    {
        let lines = put_most(alloc, out, &self.marks, self.bytes.as_slice())?;
        put_all(out, lines.as_slice())?;
        match out.flush() {
            Ok(()) => Ok(()),
            Err(_) => Err(SinkFault::Failed),
        }
    }
}
