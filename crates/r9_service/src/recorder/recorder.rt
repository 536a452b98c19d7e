//! A hall with the sink to which its history is written.
ghost use Rattle.std.specs.Prelude.{◌≡◌, ◌≢◌, ◌<◌, ◌≤◌, ◌+◌, ◌-◌, ◌^◌, ◌⊎◌, ◌++◌, ◌∷◌, [], ℕ, List, Option, true, false, length, min, take, drop, MatchBool, IfOk, OnOk, OnErr, IsErrOf};
ghost use Rattle.r9_event.specs.declared.event.event.Entry.{Entry};
ghost use Rattle.model_history.specs.event.Journal.{AreNumbered, events_of};
ghost use Rattle.model_history.specs.event.Legal.{IsLegal, roll_of};
ghost use Rattle.model_history.specs.records.Line.{event_line};
ghost use Rattle.model_history.specs.records.Record.{record_from};
ghost use Rattle.model_served.specs.session.Acts.{May};
ghost use Rattle.model_served.specs.served.Served.{served};
ghost use Rattle.r9_outside.specs.outside.Count.{Rose};
ghost use Rattle.r9_outside.specs.outside.Sink.{Appends, AppendsPart};
ghost use Rattle.r9_service.specs.recorder.Lines.{record_lines, line_at, size_of, size_limit};
ghost use Rattle.r9_service.specs.recorder.Recording.{Loan, Records, IsBounded};
ghost use Rattle.r9_service.specs.declared.recorder.recorder.Recorder.{Recorder};

use crate::recorder::keeps::Keeps;
use r9_event::event::{Answer, Ask};
use r9_journal::{entry_len, write_entry, write_header};
use r9_lock::Acted;
use r9_memory::Memory;
use r9_outside::outside::{Sink, SinkFault};
use r9_text::Bytes;
use std::snapshot::Snapshot;

/// Entries are written once their lines have so many bytes in all, also while sessions have much to say.
const SIZE_LIMIT: u64 = 1 << 20;

/// Why a record was not written whole.
#[derive(Clone, Copy, Debug, PartialEq, Eq)]
pub enum RecordFault {
    /// A put or the flush of the sink failed, and its count has risen.
    WriteFault,
    /// There was no memory.
    Memory,
}

impl From<Memory> for RecordFault {
    ghost use Rattle.std.specs.Prelude.{◌≡◌};
    ghost use Rattle.r9_service.specs.declared.recorder.recorder.RecordFault.TheVariants as fault;

    ghost from_gives = { λ _ e. e ≡ fault.Memory };

    fn from(_: Memory) -> Self {
        RecordFault::Memory
    }
}

/// A hall, with the sink that was lent for its record. The hall is behind a type parameter, so that who lent the sink knows what became
/// of it.
#[derive(Drop)]
pub struct Recorder<'a, H, O> {
    out: &'a mut O,
    // The sink as it was lent. It takes no room, and never changes.
    lent: Snapshot<O>,
    pub(crate) hall: H,
    // The number of the next line that is put: 0 is the header, n the line of the entry n.
    next: u64,
    // How many bytes of it were put.
    part: usize,
    // How many bytes the lines of the stored entries have, at most 2^64-1.
    size: u64,
    // Whether a put or a flush has failed.
    failed: bool,
    // Whether memory was refused or a put or a flush failed in the last act.
    stuck: bool,
}

/// Whether a session that is so answered has nothing to say for now, or has ended.
fn is_at_rest(answer: &Answer) -> bool {
    matches!(answer, Answer::Nothing | Answer::Over | Answer::Ended)
}

/// Puts what is left of a line of which a part was put. For want of memory, or where a put fails, some of it may be put.
fn put_line<O: Sink>(out: &mut O, line: &[u8], part: &mut usize) -> Result<(), RecordFault>
    ensures within { part.old ≤ length line.now → part.new ≤ length line.now }
    ensures whole { part.old ≤ length line.now → OnOk result (part.new ≡ length line.now) }
    ensures put { part.old ≤ length line.now → (before : Option (List ℕ)) (text : List ℕ) → Appends before (text ++ take part.old line.now) (O.held out.old) → Appends before (text ++ take part.new line.now) (O.held out.new) }
    ensures failed { IsErrOf result RecordFault.WriteFault → Rose (O.faults out.old) (O.faults out.new) }
    ensures counted { O.faults out.old ≤ O.faults out.new }
{
    while *part < line.len() {
        match out.put(&line[*part..]) {
            Ok(count) => *part += count,
            Err(SinkFault::Failed) => return Err(RecordFault::WriteFault),
            Err(SinkFault::Memory) => return Err(RecordFault::Memory),
        }
    }
    Ok(())
}

impl<'a, H, O> Recorder<'a, H, O> {
    /// A recorder over a hall in which nothing has happened, and a sink to which nothing of its record was put. It takes no memory.
    pub fn new(hall: H, out: &'a mut O) -> Recorder<'a, H, O>
        ensures same { result.out.ghost_name ≡ out.entry.ghost_name }
        ensures out { (result.out.now ≡ out.old) × (result.lent.value ≡ out.old) }
        ensures hall { result.hall ≡ hall }
        ensures fresh { (result.next ≡ 0) × (result.part ≡ 0) × (result.size ≡ 0) × (result.failed ≡ false) }
    {
        let lent = Snapshot::of(&*out);
        Recorder {
            out,
            lent,
            hall,
            next: 0,
            part: 0,
            size: 0,
            failed: false,
            stuck: false,
        }
    }
}

/// Gives the sink back to who lent it.
pub fn give_back<H: Drop, O>(recorder: Recorder<'_, H, O>)
    ensures { recorder.exit.0.now ≡ recorder.entry.out.now }
{
    let _ended = recorder;
}

impl<'a, H: Keeps, O: Sink> Recorder<'a, H, O> {
    /// The next line that is to be put, which is there.
    fn next_line(&self) -> Result<Bytes, Memory>
        ensures { (loan : Loan) (history : List Entry) → Records H.first H.stands O.held O.faults loan self.now history → self.now.next ≤ length history → IfOk result (λ text. text ≡ line_at self.now.next (record_lines history)) }
    {
        let alloc = self.hall.alloc();
        let mut text = Bytes::new(alloc);
        if self.next == 0 {
            write_header(alloc, 1, &mut text)?;
            return Ok(text);
        }
        let index = self.next.saturating_sub(self.hall.first()) as usize;
        let Some(entry) = self.hall.journal().get(index) else {
            return Ok(text);
        };
        write_entry(entry, &mut text)?;
        Ok(text)
    }

    /// Puts the next line.
    fn put_next(&mut self, line: &Bytes) -> Result<(), RecordFault>
        requires few { self.old.next < 2 ^ 63 }
        ensures same { self.new.out.ghost_name ≡ self.old.out.ghost_name }
        ensures lent { self.new.lent ≡ self.old.lent }
        ensures hall { self.new.hall ≡ self.old.hall }
        ensures next { OnOk result (self.new.next ≡ self.old.next + 1) }
        ensures records { (loan : Loan) (history : List Entry) → Records H.first H.stands O.held O.faults loan self.old history → line.now ≡ line_at self.old.next (record_lines history) → self.old.next ≤ length history → Records H.first H.stands O.held O.faults loan self.new history }
        ensures failed { IsErrOf result RecordFault.WriteFault → self.new.failed ≡ true }
    {
        let put = put_line(self.out, line.as_slice(), &mut self.part);
        match put {
            Ok(()) => {
                self.next += 1;
                self.part = 0;
            }
            Err(RecordFault::WriteFault) => self.failed = true,
            Err(RecordFault::Memory) => {}
        }
        put
    }

    /// Puts all lines that are left.
    fn write(&mut self) -> Result<(), RecordFault>
        ensures same { self.new.out.ghost_name ≡ self.old.out.ghost_name }
        ensures lent { self.new.lent ≡ self.old.lent }
        ensures hall { self.new.hall ≡ self.old.hall }
        ensures records { (loan : Loan) (history : List Entry) → Records H.first H.stands O.held O.faults loan self.old history → Records H.first H.stands O.held O.faults loan self.new history }
        ensures whole { (loan : Loan) (history : List Entry) → Records H.first H.stands O.held O.faults loan self.old history → OnOk result (self.new.next ≡ length history + 1) }
        ensures failed { IsErrOf result RecordFault.WriteFault → self.new.failed ≡ true }
    {
        let end = self.hall.entries() + 1;
        'lines: while self.next < end {
            let line = self.next_line()?;
            self.put_next(&line)?;
        }
        Ok(())
    }

    /// Sends on what was put.
    fn send_on(&mut self) -> Result<(), RecordFault>
        ensures same { self.new.out.ghost_name ≡ self.old.out.ghost_name }
        ensures lent { self.new.lent ≡ self.old.lent }
        ensures hall { self.new.hall ≡ self.old.hall }
        ensures next { self.new.next ≡ self.old.next }
        ensures records { (loan : Loan) (history : List Entry) → Records H.first H.stands O.held O.faults loan self.old history → Records H.first H.stands O.held O.faults loan self.new history }
        ensures flushed { OnOk result (O.unflushed self.new.out.now ≡ false) }
        ensures failed { IsErrOf result RecordFault.WriteFault → self.new.failed ≡ true }
    {
        if self.out.flush().is_err() {
            self.failed = true;
            return Err(RecordFault::WriteFault);
        }
        Ok(())
    }

    /// Where a session is at rest, or the lines of the stored entries are many: puts and sends on all that is left, and then forgets the
    /// entries. Once a put or a flush has failed it does nothing.
    fn settle(&mut self, at_rest: bool) -> Result<(), RecordFault>
        ensures same { self.new.out.ghost_name ≡ self.old.out.ghost_name }
        ensures opening { H.opening self.new.hall ≡ H.opening self.old.hall }
        ensures first { H.first self.old.hall ≤ H.first self.new.hall }
        ensures records { (loan : Loan) (history : List Entry) → Records H.first H.stands O.held O.faults loan self.old history → Records H.first H.stands O.held O.faults loan self.new history }
        ensures bounded { (loan : Loan) (history : List Entry) → Records H.first H.stands O.held O.faults loan self.old history → OnOk result ((self.new.failed ≡ true) ⊎ (size_of (H.stored self.new.hall) < size_limit)) }
        ensures failed { IsErrOf result RecordFault.WriteFault → self.new.failed ≡ true }
    {
        if self.failed || self.size == 0 || !(at_rest || self.size >= SIZE_LIMIT) {
            return Ok(());
        }
        self.write()?;
        self.send_on()?;
        self.hall.forget();
        self.size = 0;
        Ok(())
    }

    /// Counts the bytes of the last stored entry's line.
    fn count_last(&mut self)
        ensures rest { self.new ≡ record self.old { size = self.new.size } }
        ensures size { (before : List Entry) (entry : Entry) → H.stored self.old.hall ≡ before ++ entry ∷ [] → self.new.size ≡ min (self.old.size + min (length (event_line entry.event)) (2 ^ 64 - 1)) (2 ^ 64 - 1) }
    {
        let Some(entry) = self.hall.journal().last() else {
            return;
        };
        let len = entry_len(entry);
        self.size = self.size.saturating_add(len);
    }

    /// Lets the hall act, and counts the bytes of the line that came.
    fn make(&mut self, ask: Ask) -> Acted<Answer>
        requires { H.first self.old.hall - 1 + length (H.stored self.old.hall) < 2 ^ 61 }
        ensures same { self.new.out.ghost_name ≡ self.old.out.ghost_name }
        ensures opening { H.opening self.new.hall ≡ H.opening self.old.hall }
        ensures first { H.first self.new.hall ≡ H.first self.old.hall }
        ensures history { (loan : Loan) (before : List Entry) → Records H.first H.stands O.held O.faults loan self.old before
            → (after : List Entry) × Records H.first H.stands O.held O.faults loan self.new after × May (served (H.opening self.old.hall)) before ask result.answer after
            × MatchBool result.entered ((entry : Entry) × (after ≡ before ++ entry ∷ [])) (after ≡ before) }
    {
        let acted = self.hall.act(ask);
        if acted.entered {
            self.count_last();
        }
        acted
    }

    /// Does what a session asks, as the hall does. Where the session is then at rest, or the lines of the stored entries have become many,
    /// it writes them and forgets them: so the record is whole once nobody has anything to say.
    pub fn act(&mut self, ask: Ask) -> Acted<Answer>
        requires { H.first self.old.hall - 1 + length (H.stored self.old.hall) < 2 ^ 61 }
        ensures same { self.new.out.ghost_name ≡ self.old.out.ghost_name }
        ensures opening { H.opening self.new.hall ≡ H.opening self.old.hall }
        ensures first { H.first self.old.hall ≤ H.first self.new.hall }
        ensures history { (loan : Loan) (before : List Entry) → Records H.first H.stands O.held O.faults loan self.old before
            → (after : List Entry) × Records H.first H.stands O.held O.faults loan self.new after × May (served (H.opening self.old.hall)) before ask result.answer after
            × MatchBool result.entered ((entry : Entry) × (after ≡ before ++ entry ∷ [])) (after ≡ before) }
        // The stored lines have few bytes, unless a put or a flush has failed or memory was refused in this act.
        ensures bounded { (loan : Loan) (before : List Entry) → Records H.first H.stands O.held O.faults loan self.old before → IsBounded H.stored self.new }
    {
        let acted = self.make(ask);
        let settled = self.settle(is_at_rest(&acted.answer));
        self.stuck = settled.is_err();
        acted
    }

    /// Puts the header before anything happens, and sends it on: so a sink that fails shows at once to who watches it. What fails here is
    /// told by `finish`.
    pub fn begin(&mut self)
        ensures same { self.new.out.ghost_name ≡ self.old.out.ghost_name }
        ensures lent { self.new.lent ≡ self.old.lent }
        ensures hall { self.new.hall ≡ self.old.hall }
        ensures records { (loan : Loan) (history : List Entry) → Records H.first H.stands O.held O.faults loan self.old history → Records H.first H.stands O.held O.faults loan self.new history }
    {
        if self.write().is_ok() {
            let _ = self.send_on();
        }
    }

    /// Whether all has stopped for want of memory.
    pub fn is_stopped(&self) -> bool
        ensures { (loan : Loan) (history : List Entry) → Records H.first H.stands O.held O.faults loan self.now history → result ≡ (roll_of (events_of history)).stopped }
    {
        self.hall.is_stopped()
    }

    /// Puts the rest of the record, and flushes.
    pub fn finish(&mut self) -> Result<(), RecordFault>
        ensures same { self.new.out.ghost_name ≡ self.old.out.ghost_name }
        // The sink has grown by the record of the history, or for want of memory or after a failure by a front of it.
        ensures ok { (loan : Loan) (history : List Entry) → Records H.first H.stands O.held O.faults loan self.old history → OnOk result (Appends loan.held (record_from 1 (events_of history)) (O.held self.new.out.now)) }
        ensures part { (loan : Loan) (history : List Entry) → Records H.first H.stands O.held O.faults loan self.old history → AppendsPart loan.held (record_from 1 (events_of history)) (O.held self.new.out.now) }
        ensures flushed { OnOk result (O.unflushed self.new.out.now ≡ false) }
        ensures failed { (loan : Loan) (history : List Entry) → Records H.first H.stands O.held O.faults loan self.old history → IsErrOf result RecordFault.WriteFault → Rose loan.faults (O.faults self.new.out.now) }
    {
        if self.failed {
            return Err(RecordFault::WriteFault);
        }
        self.write()?;
        self.send_on()
    }
}

/// The entries of a history that a recorder stands for are numbered from 1, and each was allowed where it stands.
pub fn told_of_recorder<H: Keeps, O: Sink>()
    ensures { (loan : Loan) (recorder : Recorder H O) (history : List Entry) → Records H.first H.stands O.held O.faults loan recorder history → AreNumbered 1 history × IsLegal (events_of history) }
{}
