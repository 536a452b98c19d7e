//! The display that another program holds, and what its sessions ask of it.

ghost use Rattle.std.specs.Prelude.{◌≡◌, ◌≢◌, ◌<◌, ◌^◌, ◌&&◌, [], true, false, Err, IfOk, IfSome, IfNone, OnErr};
ghost use Rattle.r9_event.specs.declared.event.ask.Ask.{Ask};
ghost use Rattle.model_draw.specs.draw.Orders.{is_side};
ghost use Rattle.model_served.specs.served.Served.{journal_of};
ghost use Rattle.model_world.specs.Replay.{outbox};
ghost use Rattle.r9_hall.specs.hall.Acts.{IsAct, IsCounted};
ghost use Rattle.r9_hall.specs.hall.HallView.{OfHistories, StandsFor, entries};
ghost use Rattle.r9_embed.specs.Asked.{IsAsked, IsExchanged, is_gone};

use r9_event::event::{Answer, Ask, Opening};
use r9_hall::hall::Hall;
use r9_lock::Acted;
use r9_marks::steps::Steps;
use r9_memory::Memory;
use r9_text::Bytes;
use r9_wctl::sides::LONGEST_SIDE;
use std::alloc::Global;
use std::marker::Brand;
use std::sync::ledger::{Blank, Ledger};

/// A history with so many entries takes no more.
pub(crate) const MOST_ENTRIES: u64 = 1 << 61;

/// The history has 2^61 entries, and takes no more.
#[derive(Clone, Copy, Debug, PartialEq, Eq)]
pub struct Full;

/// Why a display was not opened.
#[derive(Clone, Copy, Debug, PartialEq, Eq)]
pub enum OpenFault {
    /// A side of the display is none from 1 to 2,048 pixels.
    BadSize,
    /// There was no memory.
    Memory,
}

impl From<Memory> for OpenFault {
    ghost use Rattle.std.specs.Prelude.{◌≡◌};
    ghost use Rattle.r9_embed.specs.declared.embedded.OpenFault.TheVariants as fault;

    ghost from_gives = { λ _ e. e ≡ fault.Memory };

    fn from(_: Memory) -> Self {
        OpenFault::Memory
    }
}

/// Why a message was not taken. The display is as it was.
#[derive(Clone, Copy, Debug, PartialEq, Eq)]
pub enum AskFault {
    /// The history has 2^61 entries, and takes no more.
    Full,
    /// There was no memory for a copy of the message.
    Memory,
}

/// What an ask gave: the answer, whether it made an entry, and the bells of other sessions that got replies; and how many pixels it wrote.
#[derive(Drop)]
pub struct Done {
    pub acted: Acted<Answer>,
    /// How many pixels were written, or 2^64-1 if there were more.
    pub pixels: u64,
}

/// What a message and the take behind it gave. Nothing is taken if the message was refused or closed its session.
#[derive(Drop)]
pub struct Exchange {
    pub heard: Done,
    pub taken: Option<Done>,
}

/// A display that another program holds, and all that its sessions made of it. It stands for one legal history: each answer is that of
/// the history. Its hall is public, and can be asked for more.
#[derive(Drop)]
pub struct Embedded {
    pub hall: Hall,
}

fn is_side(length: u32) -> bool
    ensures { result ≡ is_side length }
{
    1 <= length && length <= LONGEST_SIDE
}

fn has_sides(opening: &Opening) -> bool
    ensures { result ≡ (is_side opening.now.width && is_side opening.now.height) }
{
    is_side(opening.width) && is_side(opening.height)
}

// Asks the hall, and counts the pixels that it writes.
fn asked<L: Ledger>(hall: &mut Hall, ask: Ask, blank: Blank) -> Done
    requires name { blank.name ≡ L.name }
    requires parts { blank.parts ≡ L.parts }
    requires some { 0 < L.parts }
    requires room { entries hall.old < 2 ^ 61 }
    ensures { IsAsked hall.old ask result hall.new }
{
    let mut pixels = Steps::<L>::new(blank);
    let acted = hall.act(ask, &mut pixels);
    Done {
        acted,
        pixels: pixels.count(),
    }
}

impl Embedded {
    /// A display in which nothing has happened. Its sides are 1 to 2,048 pixels.
    pub fn open(alloc: Global, opening: Opening) -> Result<Embedded, OpenFault>
        ensures opening { IfOk result (λ display. display.hall.opening ≡ opening) }
        ensures whole { IfOk result (λ display. display.hall.broken ≡ false) }
        ensures stands { IfOk result (λ display. StandsFor display.hall []) }
        ensures sides { IfOk result (λ _. (is_side opening.width && is_side opening.height) ≡ true) }
        ensures bad { result ≡ Err OpenFault.BadSize → (is_side opening.width && is_side opening.height) ≡ false }
    {
        if !has_sides(&opening) {
            return Err(OpenFault::BadSize);
        }
        let hall = Hall::start_unwatched(alloc, opening)?;
        Ok(Embedded { hall })
    }

    fn ask(&mut self, ask: Ask) -> Result<Done, Full>
        ensures done { IfOk result (λ done. IsAsked self.old.hall ask done self.new.hall) }
        ensures full { OnErr result ((entries self.old.hall ≡ 2 ^ 61) × (self.new ≡ self.old)) }
    {
        if self.hall.entries() >= MOST_ENTRIES {
            return Err(Full);
        }
        Ok(asked::<Brand>(&mut self.hall, ask, Blank::new(1)))
    }

    /// A session begins. The answer has its number, or says that there are too many.
    pub fn begin(&mut self) -> Result<Done, Full>
        ensures done { IfOk result (λ done. IsAsked self.old.hall Ask.Begin done self.new.hall) }
        ensures full { OnErr result ((entries self.old.hall ≡ 2 ^ 61) × (self.new ≡ self.old)) }
    {
        self.ask(Ask::Begin)
    }

    /// Takes a whole 9P message of a session (intro(5)). Its reply waits for `take`, and so do replies of others that it answered.
    pub fn message(&mut self, session: u32, bytes: &[u8]) -> Result<Done, AskFault>
        ensures done { IfOk result (λ done. IsAsked self.old.hall (Ask.Msg session bytes.now) done self.new.hall) }
        ensures full { result ≡ Err AskFault.Full → entries self.old.hall ≡ 2 ^ 61 }
        ensures err { OnErr result (self.new ≡ self.old) }
    {
        let Ok(bytes) = Bytes::from_slice(self.hall.alloc(), bytes) else {
            return Err(AskFault::Memory);
        };
        match self.ask(Ask::Msg { session, bytes }) {
            Ok(done) => Ok(done),
            Err(Full) => Err(AskFault::Full),
        }
    }

    /// Hands out the replies that wait for a session, one behind the other.
    pub fn take(&mut self, session: u32) -> Result<Done, Full>
        ensures done { IfOk result (λ done. IsAsked self.old.hall (Ask.Look session) done self.new.hall) }
        ensures full { OnErr result ((entries self.old.hall ≡ 2 ^ 61) × (self.new ≡ self.old)) }
    {
        self.ask(Ask::Look { session })
    }

    // Hands out what waits for a session, if its message went.
    fn take_behind(&mut self, session: u32, heard: &Answer) -> Option<Done>
        ensures taken { IfSome result (λ done. IsAsked self.old.hall (Ask.Look session) done self.new.hall) }
        ensures went { IfSome result (λ _. is_gone heard.now ≡ true) }
        ensures untaken { IfNone result (self.new ≡ self.old) }
        ensures none { IfNone result (is_gone heard.now ≡ true → entries self.old.hall ≡ 2 ^ 61) }
    {
        match heard {
            Answer::Went { .. } => self.take(session).ok(),
            _ => None,
        }
    }

    /// Takes a message of a session, and then hands out what waits for it.
    pub fn exchange(&mut self, session: u32, bytes: &[u8]) -> Result<Exchange, AskFault>
        ensures done { IfOk result (λ exchange. IsExchanged self.old.hall session bytes.now exchange self.new.hall) }
        ensures full { result ≡ Err AskFault.Full → entries self.old.hall ≡ 2 ^ 61 }
        ensures err { OnErr result (self.new ≡ self.old) }
    {
        let heard = self.message(session, bytes)?;
        let taken = self.take_behind(session, &heard.acted.answer);
        Ok(Exchange { heard, taken })
    }

    /// A session ends. Its fids, connections and windows go.
    pub fn end(&mut self, session: u32) -> Result<Done, Full>
        ensures done { IfOk result (λ done. IsAsked self.old.hall (Ask.End session) done self.new.hall) }
        ensures full { OnErr result ((entries self.old.hall ≡ 2 ^ 61) × (self.new ≡ self.old)) }
    {
        self.ask(Ask::End { session })
    }

    /// The bytes of the replies that wait for a session. Nothing is said of a broken display.
    pub fn waiting(&self, session: u32) -> &[u8]
        ensures { OfHistories self.now.hall (λ events. result.now ≡ outbox (journal_of self.now.hall.opening events) session) }
    {
        self.hall.outbox(session)
    }
}
