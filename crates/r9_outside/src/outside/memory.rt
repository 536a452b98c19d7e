//! Sources and sinks in memory: such as never fail, and such as fail at the calls of a list.

ghost use Rattle.std.specs.Prelude.{◌≡◌, ◌≤◌, ◌<◌, [], List, ℕ, false, length, take, drop, min, Some, OnOk, OnErr, is_err};
ghost use Rattle.r9_outside.specs.outside.Count.{one_more};
ghost use Rattle.r9_outside.specs.outside.Failing.{fails_next};

use crate::outside::{Failed, Sink, SinkFault, Source};
use std::alloc::Global;

/// Copies the front of some bytes to the front of a buffer, as many as fit.
fn copy_front(bytes: &[u8], buffer: &mut [u8]) -> usize
    ensures count { result ≡ min (length bytes.now) (length buffer.old) }
    ensures copied { take result buffer.new ≡ take result bytes.now }
{
    let count = bytes.len().min(buffer.len());
    buffer[..count].copy_from_slice(&bytes[..count]);
    count
}

/// A source in memory that never fails.
#[derive(Drop)]
pub struct SureSource {
    bytes: Vec<u8>,
    at: usize,
    ghost in_range: { at ≤ length bytes.items },
}

impl SureSource {
    /// A source that has these bytes left.
    pub fn new(bytes: Vec<u8>) -> Self
        ensures { ⟦<SureSource as Source>⟧.left result ≡ Some bytes.items }
    {
        SureSource { bytes, at: 0 }
    }
}

impl Source for SureSource {
    ghost left = { λ s. Some (drop s.at s.bytes.items) };

    ghost faults = { λ s. 0 };

    ghost fails_next = { λ s. Some false };

    fn take(&mut self, buffer: &mut [u8]) -> Result<usize, Failed> {
        let count = copy_front(&self.bytes[self.at..], buffer);
        self.at += count;
        Ok(count)
    }
}

/// A sink in memory that never fails, but for want of memory.
#[derive(Drop)]
pub struct SureSink {
    bytes: Vec<u8>,
    unflushed: bool,
}

impl SureSink {
    /// A sink that holds nothing.
    pub fn new(alloc: Global) -> Self
        ensures held { ⟦<SureSink as Sink>⟧.held result ≡ Some [] }
        ensures flushed { ⟦<SureSink as Sink>⟧.unflushed result ≡ false }
    {
        SureSink {
            bytes: Vec::new(alloc),
            unflushed: false,
        }
    }

    /// The bytes that it holds.
    pub fn bytes(&self) -> &[u8]
        ensures { ⟦<SureSink as Sink>⟧.held self.now ≡ Some result.now }
    {
        &self.bytes
    }
}

impl Sink for SureSink {
    ghost held = { λ s. Some s.bytes.items };

    ghost unflushed = { λ s. s.unflushed };

    ghost faults = { λ s. 0 };

    ghost fails_next = { λ s. Some false };

    fn put(&mut self, piece: &[u8]) -> Result<usize, SinkFault> {
        if self.bytes.extend_from_slice(piece).is_err() {
            return Err(SinkFault::Memory);
        }
        self.unflushed = self.unflushed || !piece.is_empty();
        Ok(piece.len())
    }

    fn flush(&mut self) -> Result<(), Failed> {
        self.unflushed = false;
        Ok(())
    }
}

/// Counts calls, and fails those whose numbers, from 1, stand in a list. The counts stay at 2^64-1 once they are there.
#[derive(Drop)]
pub(crate) struct Fails {
    pub(crate) at: Vec<u64>,
    pub(crate) calls: u64,
    pub(crate) faults: u64,
}

impl Fails {
    pub(crate) fn new(at: Vec<u64>) -> Self
        ensures { (result.at.items ≡ at.items) × (result.calls ≡ 0) × (result.faults ≡ 0) }
    {
        Fails {
            at,
            calls: 0,
            faults: 0,
        }
    }

    pub(crate) fn call(&mut self) -> Result<(), Failed>
        ensures listed { is_err result ≡ fails_next self.old }
        ensures called { self.new.calls ≡ one_more self.old.calls }
        ensures same { self.new.at.items ≡ self.old.at.items }
        ensures failed { OnErr result (self.new.faults ≡ one_more self.old.faults) }
        ensures counted { self.old.faults ≤ self.new.faults }
        ensures ok { OnOk result (self.new.faults ≡ self.old.faults) }
    {
        self.calls = self.calls.saturating_add(1);
        if self.at.contains(&self.calls) {
            self.faults = self.faults.saturating_add(1);
            return Err(Failed);
        }
        Ok(())
    }
}

/// A source in memory some of whose calls fail.
#[derive(Drop)]
pub struct MemSource {
    source: SureSource,
    fails: Fails,
}

impl MemSource {
    /// A source that has these bytes left. The calls whose numbers, from 1, stand in `fails` will fail.
    pub fn new(bytes: Vec<u8>, fails: Vec<u64>) -> Self
        ensures left { ⟦<MemSource as Source>⟧.left result ≡ Some bytes.items }
        ensures failing { result.fails.at.items ≡ fails.items }
        ensures first { result.fails.calls ≡ 0 }
        ensures faults { ⟦<MemSource as Source>⟧.faults result ≡ 0 }
    {
        MemSource {
            source: SureSource::new(bytes),
            fails: Fails::new(fails),
        }
    }
}

impl Source for MemSource {
    ghost left = { λ s. ⟦<SureSource as Source>⟧.left s.source };

    ghost faults = { λ s. s.fails.faults };

    ghost fails_next = { λ s. Some (fails_next s.fails) };

    fn take(&mut self, buffer: &mut [u8]) -> Result<usize, Failed> {
        self.fails.call()?;
        self.source.take(buffer)
    }
}

/// A sink in memory some of whose calls fail. Puts and flushes are counted together.
#[derive(Drop)]
pub struct MemSink {
    sink: SureSink,
    fails: Fails,
}

impl MemSink {
    /// A sink that holds nothing. The calls whose numbers, from 1, stand in `fails` will fail.
    pub fn new(alloc: Global, fails: Vec<u64>) -> Self
        ensures held { ⟦<MemSink as Sink>⟧.held result ≡ Some [] }
        ensures flushed { ⟦<MemSink as Sink>⟧.unflushed result ≡ false }
        ensures failing { result.fails.at.items ≡ fails.items }
        ensures first { result.fails.calls ≡ 0 }
        ensures faults { ⟦<MemSink as Sink>⟧.faults result ≡ 0 }
    {
        MemSink {
            sink: SureSink::new(alloc),
            fails: Fails::new(fails),
        }
    }

    /// The bytes that it holds.
    pub fn bytes(&self) -> &[u8]
        ensures { ⟦<MemSink as Sink>⟧.held self.now ≡ Some result.now }
    {
        self.sink.bytes()
    }
}

impl Sink for MemSink {
    ghost held = { λ s. ⟦<SureSink as Sink>⟧.held s.sink };

    ghost unflushed = { λ s. ⟦<SureSink as Sink>⟧.unflushed s.sink };

    ghost faults = { λ s. s.fails.faults };

    ghost fails_next = { λ s. Some (fails_next s.fails) };

    fn put(&mut self, piece: &[u8]) -> Result<usize, SinkFault> {
        if self.fails.call().is_err() {
            return Err(SinkFault::Failed);
        }
        self.sink.put(piece)
    }

    fn flush(&mut self) -> Result<(), Failed> {
        self.fails.call()?;
        self.sink.flush()
    }
}
