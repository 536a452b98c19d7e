//! A stream of bytes, given message by message.

ghost use Rattle.std.specs.Prelude.{◌≡◌, ◌<◌, ◌≤◌, ◌+◌, ◌++◌, [], None, length, drop, IfOk, OnOk, OnErr};
ghost use Rattle.model_files.specs.frame.Frame.{first, given, left};
ghost use Rattle.r9_frame.specs.View.{cut_of, IsWithin};

use crate::next::Next;
use r9_memory::Memory;
use r9_text::Bytes;
use std::alloc::Global;
use std::marker::Model;

/// Cuts a stream into messages by their size fields, however the stream comes in pieces.
#[derive(Debug, Drop)]
pub struct Framer {
    alloc: Global,
    bytes: Vec<u8>,
    // The bytes before it are given already.
    start: usize,
    limit: u32,
    bad: Option<u32>,
}

impl Model for Framer {
    ghost use Rattle.std.specs.Prelude.{◌≤◌, drop, length};
    ghost use Rattle.model_files.specs.frame.Frame.{Framing};

    ghost Value = { Framing };

    ghost view = { λ f. record { held = drop f.start f.bytes.items; limit = f.limit; bad = f.bad } };

    ghost invariant = { λ f. f.start ≤ length f.bytes.items };
}

impl Framer {
    /// A framer that holds no bytes, for messages of at most so many.
    pub fn new(alloc: Global, limit: u32) -> Framer
        ensures { result ≡ record { held = []; limit = limit; bad = None } }
    {
        Framer {
            alloc,
            bytes: Vec::new(alloc),
            start: 0,
            limit,
            bad: None,
        }
    }

    /// Sets the greatest size of the messages that come next.
    pub fn set_limit(&mut self, limit: u32)
        ensures { self.new ≡ record self.old { limit = limit } }
    {
        self.limit = limit;
    }

    /// How many bytes are held.
    pub fn held(&self) -> usize
        ensures { result ≡ length self.now.held }
    {
        self.bytes.len() - self.start
    }

    /// Adds a piece of the stream. Each byte is moved at most once on average, whatever the pieces.
    pub fn feed(&mut self, piece: &[u8]) -> Result<(), Memory>
        ensures ok { OnOk result (self.new ≡ record self.old { held = self.old.held ++ piece.now }) }
        ensures err { OnErr result (self.new ≡ self.old) }
    {
        if self.start == self.bytes.len() {
            self.bytes.clear();
            self.start = 0;
        }
        if self.start > self.bytes.len() / 2 {
            let mut bytes = Vec::from_slice(self.alloc, &self.bytes[self.start..])?;
            bytes.extend_from_slice(piece)?;
            self.bytes = bytes;
            self.start = 0;
        } else {
            self.bytes.extend_from_slice(piece)?;
        }
        Ok(())
    }

    /// The next message. For want of memory all stays as it was.
    pub fn next(&mut self) -> Result<Next, Memory>
        ensures given { IfOk result (λ next. cut_of next ≡ given self.old) }
        ensures left { OnOk result (self.new ≡ left self.old) }
        ensures err { OnErr result (self.new ≡ self.old) }
    {
        if let Some(size) = self.bad {
            return Ok(Next::BadSize(size));
        }
        let next = first(self.alloc, self.limit, &self.bytes[self.start..])?;
        match &next {
            Next::Frame(frame) => self.start += frame.len(),
            Next::NeedMore => {}
            Next::BadSize(size) => self.bad = Some(*size),
        }
        Ok(next)
    }
}

/// The first message of bytes under a limit.
#[tactic(auto, unfolding(model_files::specs::frame::Frame::first))]
fn first(alloc: Global, limit: u32, bytes: &[u8]) -> Result<Next, Memory>
    ensures cut { IfOk result (λ next. cut_of next ≡ first limit bytes.now) }
    ensures within { IfOk result (λ next. IsWithin next (length bytes.now)) }
{
    if bytes.len() < 4 {
        return Ok(Next::NeedMore);
    }
    let size = u32::from_le_bytes([bytes[0], bytes[1], bytes[2], bytes[3]]);
    if size < 7 || size > limit {
        return Ok(Next::BadSize(size));
    }
    let len = size as usize;
    if bytes.len() < len {
        return Ok(Next::NeedMore);
    }
    let frame = Bytes::from_slice(alloc, &bytes[..len])?;
    Ok(Next::Frame(frame))
}
