//! A source and a sink whose fields say how they behave. They tell no content.

ghost use Rattle.std.specs.Prelude.{◌≡◌, ◌≤◌, length, None};

use r9_outside::outside::{Failed, Sink, SinkFault, Source, SureSource};
use std::alloc::Global;
use std::hint::spin_loop;
use std::sync::Arc;
use std::sync::atomic::{AtomicU64, Ordering};

/// How many bytes a sink holds.
pub type Held = Arc<AtomicU64, Global>;

/// A record's header, `rio9 2 1` and a newline, has so many bytes. It is put before anybody comes.
const HEADER_LEN: u64 = 9;

/// How often a source looks at a sink.
const LOOKS: u32 = 100_000_000;

/// Looks again and again at how many bytes a sink holds, until it has more than a header.
fn wait_for(held: &AtomicU64) -> Result<(), Failed> {
    for _ in 0..LOOKS {
        if held.load(Ordering::SeqCst) > HEADER_LEN {
            return Ok(());
        }
        spin_loop();
    }
    Err(Failed)
}

/// Takes some bytes, or a slow one.
fn take_some(source: &mut SureSource, buffer: &mut [u8], slow: bool) -> usize
    ensures { result ≤ length buffer.old }
{
    let most = if slow {
        buffer.len().min(1)
    } else {
        buffer.len()
    };
    match source.take(&mut buffer[..most]) {
        Ok(count) => count,
        Err(Failed) => 0,
    }
}

/// A source that gives some bytes, looks at a sink where there is one to look at, and then gives the rest.
#[derive(Drop)]
pub struct TestSource {
    first: SureSource,
    looks_at: Option<Held>,
    rest: SureSource,
    slow: bool,
    pub faults: u64,
}

impl TestSource {
    /// A source of these bytes. One that is slow gives one byte a take.
    pub fn new(first: Vec<u8>, looks_at: Option<Held>, rest: Vec<u8>, slow: bool) -> TestSource {
        TestSource {
            first: SureSource::new(first),
            looks_at,
            rest: SureSource::new(rest),
            slow,
            faults: 0,
        }
    }
}

impl Source for TestSource {
    ghost left = { λ s. None };

    ghost faults = { λ s. s.faults };

    ghost fails_next = { λ s. None };

    fn take(&mut self, buffer: &mut [u8]) -> Result<usize, Failed> {
        let count = take_some(&mut self.first, buffer, self.slow);
        if count > 0 {
            return Ok(count);
        }
        if let Some(held) = self.looks_at.take()
            && wait_for(&held).is_err()
        {
            self.faults = self.faults.saturating_add(1);
            return Err(Failed);
        }
        Ok(take_some(&mut self.rest, buffer, self.slow))
    }
}

/// A sink that keeps what it gets, and tells a number how many bytes it holds.
#[derive(Drop)]
pub struct TestSink {
    pub bytes: Vec<u8>,
    tells: Option<Held>,
    /// Whether it takes one byte a put.
    pub slow: bool,
    fails: bool,
    unflushed: bool,
    pub faults: u64,
}

impl TestSink {
    /// A sink that holds nothing. One that is slow takes one byte a put.
    pub fn new(alloc: Global, tells: Option<Held>, slow: bool) -> TestSink {
        TestSink {
            bytes: Vec::new(alloc),
            tells,
            slow,
            fails: false,
            unflushed: false,
            faults: 0,
        }
    }

    /// A sink whose first put fails.
    pub fn failing(alloc: Global) -> TestSink {
        TestSink {
            fails: true,
            ..TestSink::new(alloc, None, false)
        }
    }
}

impl Sink for TestSink {
    ghost held = { λ s. None };

    ghost unflushed = { λ s. s.unflushed };

    ghost faults = { λ s. s.faults };

    ghost fails_next = { λ s. None };

    fn put(&mut self, piece: &[u8]) -> Result<usize, SinkFault> {
        if self.fails {
            self.fails = false;
            self.faults = self.faults.saturating_add(1);
            return Err(SinkFault::Failed);
        }
        let count = if self.slow {
            piece.len().min(1)
        } else {
            piece.len()
        };
        if self.bytes.extend_from_slice(&piece[..count]).is_err() {
            return Err(SinkFault::Memory);
        }
        self.unflushed = self.unflushed || count > 0;
        if let Some(held) = &self.tells {
            held.store(self.bytes.len() as u64, Ordering::SeqCst);
        }
        Ok(count)
    }

    fn flush(&mut self) -> Result<(), Failed> {
        self.unflushed = false;
        Ok(())
    }
}
