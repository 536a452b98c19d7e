//! A session in a world of its own: its messages are answered, its window is told its notes, and its reads that wait are answered.

ghost use Rattle.std.specs.Prelude.{◌≡◌, ◌≤◌, ◌++◌, true, false, length, All, IfOk, IsSome, OnOk};
ghost use Rattle.std.specs.Option.{option_and_then};
ghost use Rattle.model_alone.specs.alone.Lone.{all_settled, answered_alone, first_lone_desktop, first_lone_world, left_by, lone, lone_desktop, lone_from, lone_step, made_by, made_in, note_in, notes_in, replied, with_notes};
ghost use Rattle.law_strangers.specs.near.Steps.{IsSoundItem, IsSoundStep};
ghost use Rattle.model_world.specs.Answer.{answer};
ghost use Rattle.r9_files.specs.around.Words.{mark_after};
ghost use Rattle.r9_isol.specs.isol.World.{desktop_of};
ghost use Rattle.r9_isol.specs.lone.Settling.{IsLate};

use crate::isol::Desktop;
use crate::watch::Items;
use r9_event::event::{Item, Note, Opening};
use r9_geom::{Point, Rect};
use r9_memory::Memory;
use r9_session::Session;
use r9_text::Bytes;
use r9_wire::reply_bytes;
use std::alloc::Global;

/// The number of the session there.
const ITS_NUMBER: u32 = 1;

/// A session, and what it finds outside itself.
#[derive(Drop)]
pub struct Lone {
    alloc: Global,
    session: Session,
    desktop: Desktop,
}

/// A draw device with the display of an opening, and no window.
#[tactic(auto, unfolding(model_alone::specs::alone::Lone::started_alone))]
fn start_desktop(alloc: Global, opening: &Opening) -> Result<Desktop, Memory>
    ensures { IfOk result (λ desktop. desktop_of desktop ≡ first_lone_desktop opening.now) }
{
    let min = Point { x: 0, y: 0 };
    let max = Point {
        x: i64::from(opening.width),
        y: i64::from(opening.height),
    };
    Desktop::start(alloc, Rect { min, max }, opening.chan)
}

/// Whether memory ran out in a data write before its mark took effect.
fn ran_out(mark: Option<u32>, short: Option<u32>) -> bool
    ensures whole { result ≡ false → mark_after mark short ≡ mark }
    ensures short { result ≡ true → IsSome short × (mark_after mark short ≡ mark → ⊥) }
{
    match short {
        Some(_) => short != mark,
        None => false,
    }
}

/// The serial of the window that an item tells of as new.
fn made_by(item: &Item) -> Option<u32>
    ensures { result ≡ option_and_then made_by (note_in item.now) }
{
    match item {
        Item::Noted(Note::Made { serial, .. }) => Some(*serial),
        _ => None,
    }
}

/// The serial of the window that is made in a step, where one is.
fn made_in(items: &[Item]) -> Option<u32>
    ensures { result ≡ made_in items.now }
{
    let mut made = None;
    for item in items {
        if let Some(serial) = made_by(item) {
            made = Some(serial);
        }
    }
    made
}

impl Lone {
    ghost use Rattle.r9_isol.specs.lone.LoneView.{world_of, IsLinkedWorld};

    /// A session that has said nothing, before a draw device with the display of an opening.
    pub fn start(alloc: Global, opening: &Opening) -> Result<Self, Memory>
        ensures world { IfOk result (λ lone. world_of lone ≡ first_lone_world opening.now) }
        ensures linked { IfOk result (λ lone. IsLinkedWorld (world_of lone)) }
    {
        Ok(Lone {
            alloc,
            session: Session::fresh(alloc),
            desktop: start_desktop(alloc, opening)?,
        })
    }

    /// Answers a message. The bytes of its reply come behind those that there are.
    fn answer_message(
        &mut self,
        bytes: &[u8],
        mark: Option<u32>,
        replies: &mut Vec<Bytes>,
    ) -> Result<(), Memory>
        requires long { 7 ≤ length bytes.now }
        requires linked { IsLinkedWorld (world_of self.old) }
        ensures world { OnOk result (world_of self.new ≡ left_by (answer lone_desktop (world_of self.old).session (world_of self.old).desktop bytes.now mark)) }
        ensures replies { OnOk result (replies.new.items ≡ replies.old.items ++ replied (answer lone_desktop (world_of self.old).session (world_of self.old).desktop bytes.now mark).reply) }
        ensures linked { OnOk result (IsLinkedWorld (world_of self.new)) }
    {
        let answered = self
            .session
            .answer(self.alloc, &mut self.desktop, ITS_NUMBER, bytes, mark)?;
        if ran_out(mark, answered.short) {
            return Err(Memory);
        }
        if let Some(reply) = &answered.reply {
            replies.push(reply_bytes(self.alloc, reply)?)?;
        }
        Ok(())
    }

    /// Answers the message of a step, which stands first in it.
    fn answer(&mut self, items: &[Item], replies: &mut Vec<Bytes>) -> Result<(), Memory>
        requires sound { IsSoundStep items.now }
        requires linked { IsLinkedWorld (world_of self.old) }
        ensures world { OnOk result (world_of self.new ≡ (answered_alone (world_of self.old) items.now).0) }
        ensures replies { OnOk result (replies.new.items ≡ replies.old.items ++ (answered_alone (world_of self.old) items.now).1) }
        ensures linked { OnOk result (IsLinkedWorld (world_of self.new)) }
    {
        match items.first() {
            Some(Item::Sent(bytes, mark)) => {
                self.answer_message(bytes.as_slice(), *mark, replies)
            }
            _ => Ok(()),
        }
    }

    /// Its window is told the notes of a step.
    fn tell(&mut self, items: &[Item]) -> Result<(), Memory>
        requires sound { IsSoundStep items.now }
        requires linked { IsLinkedWorld (world_of self.old) }
        ensures world { OnOk result (world_of self.new ≡ with_notes (world_of self.old) (notes_in items.now)) }
        ensures linked { OnOk result (IsLinkedWorld (world_of self.new)) }
    {
        for item in items {
            if let Item::Noted(note) = item {
                self.desktop.note(note)?;
            }
        }
        Ok(())
    }

    /// Answers the earliest of the reads that wait and can be answered: the bytes of the reply, or None where none can be.
    fn answer_late(&mut self) -> Result<Option<Bytes>, Memory>
        requires linked { IsLinkedWorld (world_of self.old) }
        ensures given { IfOk result (λ given. IsLate (world_of self.old) given (world_of self.new)) }
        ensures linked { OnOk result (IsLinkedWorld (world_of self.new)) }
    {
        match self
            .session
            .answer_waiting(self.alloc, &mut self.desktop, ITS_NUMBER)?
        {
            Some(reply) => Ok(Some(reply_bytes(self.alloc, &reply)?)),
            None => Ok(None),
        }
    }

    /// Reads that wait are answered, the earliest that can be each time, until none can be.
    fn settle(&mut self, replies: &mut Vec<Bytes>) -> Result<(), Memory>
        requires linked { IsLinkedWorld (world_of self.old) }
        ensures world { OnOk result (world_of self.new ≡ (all_settled (world_of self.old)).0) }
        ensures replies { OnOk result (replies.new.items ≡ replies.old.items ++ (all_settled (world_of self.old)).1) }
        ensures linked { OnOk result (IsLinkedWorld (world_of self.new)) }
    {
        while let Some(reply) = self.answer_late()? {
            replies.push(reply)?;
        }
        Ok(())
    }

    /// What the session is told in one step: its message is answered, its window is told its notes, and then reads that wait are
    /// answered. The bytes of the replies come behind those that there are. After Memory nothing is said of it; that comes also where
    /// memory runs out in a data write before its mark takes effect.
    #[tactic(auto, unfolding(model_alone::specs::alone::Lone::lone_step))]
    pub fn step(&mut self, items: &[Item], replies: &mut Vec<Bytes>) -> Result<(), Memory>
        requires sound { IsSoundStep items.now }
        requires linked { IsLinkedWorld (world_of self.old) }
        ensures world { OnOk result (world_of self.new ≡ (lone_step (world_of self.old) items.now).0) }
        ensures replies { OnOk result (replies.new.items ≡ replies.old.items ++ (lone_step (world_of self.old) items.now).1) }
        ensures linked { OnOk result (IsLinkedWorld (world_of self.new)) }
    {
        self.desktop.set_made(made_in(items));
        self.answer(items, replies)?;
        self.tell(items)?;
        self.settle(replies)
    }

    /// The bytes of the replies to what a session alone with its window is told, in order (intro(5), draw(3), rio(4)). Memory also where
    /// memory runs out in a data write before its mark takes effect.
    #[tactic(auto, unfolding(model_alone::specs::alone::Lone::lone))]
    pub fn run(alloc: Global, opening: &Opening, items: &Items) -> Result<Vec<Bytes>, Memory>
        requires { All IsSoundStep items.now }
        ensures { IfOk result (λ replies. replies.items ≡ lone opening.now items.now) }
    {
        let mut lone = Lone::start(alloc, opening)?;
        let mut replies = Vec::new(alloc);
        for step in items.as_slice() {
            lone.step(step.as_slice(), &mut replies)?;
        }
        Ok(replies)
    }
}
