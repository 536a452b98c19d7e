//! One write of messages.

ghost use Rattle.std.specs.Prelude.{◌≡◌, ◌≢◌, ◌<◌, ◌≤◌, ◌+◌, ◌^◌, ◌⊎◌, ℕ, length, true, false, None, Some, IfOk, OnErr, IsSome};
ghost use Rattle.model_text.specs.text.Map.{lookup};
ghost use Rattle.model_draw.specs.cost.Cost.{messages_cost};
ghost use Rattle.model_draw.specs.draw.Act.{is_marked, no_memory, written, written_within};
ghost use Rattle.model_draw.specs.draw.Memory.{MayRunOut};
ghost use Rattle.model_draw.specs.looked.Rows.{rows_within};
ghost use Rattle.r9_draw.specs.draw.World.{moment_of, world_of, writes_of};

use crate::draw::draw::Draw;
use crate::draw::message::{Step, behind, one_message};
use r9_marks::steps::Steps;
use r9_memory::Memory;
use r9_text::Numbers;
use std::sync::ledger::Ledger;

/// How a write ended.
#[derive(Debug, Drop)]
pub struct Wrote {
    /// How many of its messages were done.
    pub done: u32,
    /// The number of the refusal of the message behind them.
    pub refusal: Option<u8>,
    /// Whether the write stopped at its mark, or for want of memory, before a message that is not refused.
    pub short: bool,
    /// How many bytes the rows had of each `y` that was done, in order.
    pub rows: Numbers,
}

// Whether the mark stands behind so many messages.
fn is_marked(mark: Option<u32>, done: u32) -> bool
    ensures { result ≡ is_marked mark done }
{
    match mark {
        Some(most) => most == done,
        None => false,
    }
}

impl Draw {
    /// Does the messages that the bytes spell, one after the other, until one is refused. Those that were done stand. With a
    /// mark it stops after so many messages, where the next one is not refused. Where memory runs out in a message that is
    /// not refused, it stops before it, and answers Memory where that is the first one. Each pixel that is written is counted in
    /// `pixels`.
    pub fn write<L: Ledger>(
        &mut self,
        client: u64,
        bytes: &[u8],
        mark: Option<u32>,
        pixels: &mut Steps<L>,
    ) -> Result<Wrote, Memory>
        requires live { IsSome (lookup (world_of self.old).clients client) }
        requires few { length bytes.now < 2 ^ 32 }
        ensures plain { IfOk result (λ w. w.short ≡ false → written client (world_of self.old) bytes.now mark ≡ record { world = world_of self.new; done = w.done; refusal = w.refusal }) }
        ensures short { IfOk result (λ w. w.short ≡ true → written client (world_of self.old) bytes.now (Some w.done) ≡ record { world = world_of self.new; done = w.done; refusal = Some no_memory }) }
        ensures refused { IfOk result (λ w. w.refusal ≢ Some no_memory) }
        ensures rows { IfOk result (λ w. w.rows ≡ rows_within w.done client (world_of self.old) bytes.now) }
        ensures cause { IfOk result (λ w. w.short ≡ true → (mark ≡ Some w.done) ⊎ MayRunOut client (world_of self.old) bytes.now w.done) }
        ensures memory { OnErr result ((world_of self.new ≡ world_of self.old) × ((n : ℕ) × MayRunOut client (world_of self.old) bytes.now n)) }
        ensures pixels { IfOk result (λ w. pixels.new ≤ pixels.old + messages_cost w.done client (world_of self.old) bytes.now) }
        ensures uncounted { OnErr result (pixels.new ≡ pixels.old) }
        ensures moment { moment_of self.new ≡ moment_of self.old }
        ensures writes { writes_of self.new + pixels.old ≡ writes_of self.old + pixels.new }
    {
        let mut rest = bytes;
        let mut done = 0;
        let mut rows = Numbers::new(self.device.alloc);
        'messages: while !rest.is_empty() {
            let marked = is_marked(mark, done);
            match one_message(&mut self.device, client, rest, marked, &mut rows, pixels) {
                Step::Done(len) => rest = behind(rest, len),
                Step::Refused(refusal) => {
                    return Ok(Wrote {
                        done,
                        refusal: Some(refusal),
                        short: false,
                        rows,
                    });
                }
                Step::Short => {
                    if done == 0 && !marked {
                        return Err(Memory);
                    }
                    return Ok(Wrote {
                        done,
                        refusal: None,
                        short: true,
                        rows,
                    });
                }
            }
            done += 1;
        }
        Ok(Wrote {
            done,
            refusal: None,
            short: false,
            rows,
        })
    }

    /// Does the messages that stand first in the bytes, so many at most, one after the other, until one is refused. What stands
    /// behind them is not looked at. Where memory runs out in a message that is not refused, it stops before it. Each pixel that is
    /// written is counted in `pixels`.
    pub fn write_first<L: Ledger>(
        &mut self,
        client: u64,
        bytes: &[u8],
        most: u32,
        pixels: &mut Steps<L>,
    ) -> Wrote
        requires live { IsSome (lookup (world_of self.old).clients client) }
        requires few { length bytes.now < 2 ^ 32 }
        ensures plain { result.short ≡ false → written_within most client (world_of self.old) None 0 bytes.now ≡ record { world = world_of self.new; done = result.done; refusal = result.refusal } }
        ensures short { result.short ≡ true → written_within result.done client (world_of self.old) None 0 bytes.now ≡ record { world = world_of self.new; done = result.done; refusal = None } }
        ensures refused { result.refusal ≢ Some no_memory }
        ensures rows { result.rows ≡ rows_within result.done client (world_of self.old) bytes.now }
        ensures cause { result.short ≡ true → MayRunOut client (world_of self.old) bytes.now result.done }
        ensures pixels { pixels.new ≤ pixels.old + messages_cost result.done client (world_of self.old) bytes.now }
        ensures moment { moment_of self.new ≡ moment_of self.old }
        ensures writes { writes_of self.new + pixels.old ≡ writes_of self.old + pixels.new }
    {
        let mut rest = bytes;
        let mut done = 0;
        let mut rows = Numbers::new(self.device.alloc);
        'messages: while done < most && !rest.is_empty() {
            match one_message(&mut self.device, client, rest, false, &mut rows, pixels) {
                Step::Done(len) => rest = behind(rest, len),
                Step::Refused(refusal) => {
                    return Wrote {
                        done,
                        refusal: Some(refusal),
                        short: false,
                        rows,
                    };
                }
                Step::Short => {
                    return Wrote {
                        done,
                        refusal: None,
                        short: true,
                        rows,
                    };
                }
            }
            done += 1;
        }
        Wrote {
            done,
            refusal: None,
            short: false,
            rows,
        }
    }
}
