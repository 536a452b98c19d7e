//! The command `gen`.

ghost use Rattle.std.specs.Prelude.{◌≡◌, ◌≢◌, ◌≤◌, ◌<◌, ◌+◌, ◌++◌, max, ℕ, List, Option, false, codes, length, IfOk, OnOk};
ghost use Rattle.std.specs.Fmt.{decimal};
ghost use Rattle.model_history.specs.event.Legal.{IsLegal};
ghost use Rattle.model_history.specs.generator.Record.{generated};
ghost use Rattle.model_history.specs.records.Line.{line};
ghost use Rattle.model_world.specs.Replay.{costs, replay, replies};
ghost use Rattle.r9_opts.specs.declared.job.Job.TheVariants as job;
ghost use Rattle.r9_outside.specs.outside.Count.{Rose};
ghost use Rattle.r9_serve.specs.serve.Made.{CountsMade, count_lines, made_for, most_tiles, tiles_in};
ghost use Rattle.r9_serve.specs.serve.Run.{IsDone, IsInputAfter, IsOutAfter};

use crate::replay::make_event;
use crate::serve::put::put_text;
use crate::serve::status::Status;
use r9_chan::Chan;
use r9_event::event::{Entries, Opening};
use r9_gen::make;
use r9_hall::hall::World;
use r9_marks::steps::Steps;
use r9_memory::Memory;
use r9_outside::outside::{Sink, SinkFault};
use r9_text::{Bytes, push_decimal};
use std::alloc::Global;
use std::marker::Brand;
use std::sync::ledger::{Blank, Ledger};

/// The channels x8r8g8b8.
const RGB24: u32 = 0x6808_1828;

/// How many events a record has, how many replies they get, how many pixels they write, or 2^64 - 1 where there are more, and how many
/// tiles keep hidden pixels after the last event, and at most after any.
#[derive(Clone, Copy, Debug, PartialEq, Eq)]
struct Counts {
    events: u64,
    replies: u64,
    pixels: u64,
    tiles: u64,
    most: u64,
}

/// The display on which a made record is answered.
fn made_for() -> Opening
    ensures { result ≡ made_for }
{
    let Ok(chan) = Chan::from_word(RGB24) else {
        unreachable!();
    };
    Opening {
        width: 640,
        height: 480,
        chan,
    }
}

/// Nothing was counted yet.
fn no_counts() -> Counts
    ensures { result ≡ record { events = 0; replies = 0; pixels = 0; tiles = 0; most = 0 } }
{
    Counts {
        events: 0,
        replies: 0,
        pixels: 0,
        tiles: 0,
        most: 0,
    }
}

/// One event more, with so many replies, after which there are so many tiles. More than can be counted are more than there is memory for.
fn with_event(counts: Counts, replies: usize, tiles: usize) -> Result<Counts, Memory>
    ensures events { IfOk result (λ after. after.events ≡ counts.events + 1) }
    ensures replies { IfOk result (λ after. after.replies ≡ counts.replies + replies) }
    ensures most { IfOk result (λ after. after.most ≡ max counts.most tiles) }
{
    let events = counts.events.checked_add(1).ok_or(Memory)?;
    let replies = counts.replies.checked_add(replies as u64).ok_or(Memory)?;
    Ok(Counts {
        events,
        replies,
        most: counts.most.max(tiles as u64),
        ..counts
    })
}

/// Runs a history, and counts its events, the replies to them, the pixels that they write, and the tiles that they leave.
fn run_counted<L: Ledger>(
    alloc: Global,
    opening: Opening,
    mut left: Entries,
    blank: Blank,
) -> Result<Counts, Memory>
    requires name { blank.name ≡ L.name }
    requires parts { blank.parts ≡ L.parts }
    requires some { 0 < L.parts }
    requires legal { IsLegal left }
    ensures events { IfOk result (λ counts. counts.events ≡ length left) }
    ensures replies { IfOk result (λ counts. counts.replies ≡ length (replies opening left)) }
    ensures pixels { IfOk result (λ counts. counts.pixels ≤ costs opening left) }
    ensures tiles { IfOk result (λ counts. counts.tiles ≡ tiles_in (replay opening left)) }
    ensures most { IfOk result (λ counts. counts.most ≡ most_tiles opening left) }
{
    let mut world = World::start(alloc, opening, false)?;
    let mut pixels = Steps::<L>::new(blank);
    let mut counts = no_counts();
    'events: while let Some(event) = left.pop_first() {
        let given = make_event(&mut world, event, &mut pixels)?;
        counts = with_event(counts, given.as_slice().len(), world.tiles())?;
    }
    Ok(Counts {
        pixels: pixels.count(),
        tiles: world.tiles() as u64,
        ..counts
    })
}

/// Makes the record of a number, and runs it.
fn run_made(alloc: Global, number: u32) -> Result<Counts, Memory>
    ensures { IfOk result (λ counts. CountsMade number (count_lines counts.events counts.replies counts.pixels counts.tiles counts.most)) }
{
    let entries = make(alloc, number)?;
    run_counted::<Brand>(alloc, made_for(), entries, Blank::new(1))
}

/// Adds a line of a name and a count.
fn push_count(text: &mut Bytes, name: &[u8], count: u64) -> Result<(), Memory>
    ensures { OnOk result (text.new ≡ text.old ++ line (name.now ++ decimal count)) }
{
    text.push_all(name)?;
    push_decimal(text, count)?;
    text.push(b'\n')
}

/// The lines that tell the counts.
fn lines_of(alloc: Global, counts: Counts) -> Result<Bytes, Memory>
    ensures { IfOk result (λ text. text ≡ count_lines counts.events counts.replies counts.pixels counts.tiles counts.most) }
{
    let mut text = Bytes::new(alloc);
    push_count(&mut text, b"events ", counts.events)?;
    push_count(&mut text, b"replies ", counts.replies)?;
    push_count(&mut text, b"pixels ", counts.pixels)?;
    push_count(&mut text, b"tiles ", counts.tiles)?;
    push_count(&mut text, b"most ", counts.most)?;
    Ok(text)
}

/// What is put out for a number.
fn output(alloc: Global, number: u32) -> Result<Bytes, Memory>
    ensures { IfOk result (λ text. CountsMade number text) }
{
    let counts = run_made(alloc, number)?;
    lines_of(alloc, counts)
}

/// Makes the record of a number and runs it, and puts out how many events it has, how many replies they get, how many pixels they write,
/// and how many tiles keep hidden pixels at the end, and at most after any event.
pub fn generate<O: Sink>(alloc: Global, number: u32, out: &mut O) -> Status
    ensures done { result ≢ Status.WriteFault → IsDone result }
    ensures out { (left : Option (List ℕ)) → IsOutAfter (λ asked. asked ≡ job.Gen number) result left (O.held out.old) (O.held out.new) }
    ensures flushed { result ≡ Status.Done → O.unflushed out.new ≡ false }
    ensures input { (left : Option (List ℕ)) → IsInputAfter (λ asked. asked ≡ job.Gen number) result left left }
    ensures write_fault { result ≡ Status.WriteFault → Rose (O.faults out.old) (O.faults out.new) }
{
    let Ok(text) = output(alloc, number) else {
        return Status::Memory;
    };
    match put_text(text.as_slice(), out) {
        Ok(()) => Status::Done,
        Err(SinkFault::Failed) => Status::WriteFault,
        Err(SinkFault::Memory) => Status::Memory,
    }
}
