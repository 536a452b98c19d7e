//! Both ends of a connection. They tell no content: what a real socket has left or holds is not proved. A call that waits looks up at
//! each tick, so that no peer can keep it for good.

ghost use Rattle.std.specs.Prelude.{◌≡◌, ◌≤◌, false, length, IfOk, None};

use crate::outside::{Failed, Gate, Sink, SinkFault, Source};
use std::io;
use std::io::{ErrorKind, Read, Write};
use std::net::{Shutdown, TcpStream};
use std::time::{Clock, Duration, Instant};

/// For so many milliseconds a call waits before it looks up.
const TICK: u64 = 500;

/// For so many seconds a client may send its first message.
const FIRST: u64 = 10;

/// A write that does not move for so many ticks, which are a minute, fails.
const WRITE_TICKS: u32 = 120;

/// For so many seconds what a client still sends is taken and dropped at its end, so that it gets the last replies.
const LINGER: u64 = 1;

/// How many bytes the head of a message has that tell its size.
const SIZE_LEN: u32 = 4;

/// Lets calls on a stream look up at each tick.
pub(crate) fn set_ticks(stream: &TcpStream) -> io::Result<()> {
    let tick = Some(Duration::from_millis(TICK));
    stream.set_read_timeout(tick)?;
    stream.set_write_timeout(tick)
}

/// Whether a call that failed may be made again: a signal interrupted it, or it waited for a tick.
fn may_go_on(error: &io::Error) -> bool {
    matches!(error.kind(), ErrorKind::Interrupted | ErrorKind::WouldBlock)
}

/// How much of a first message has come: its size, as far as its head tells it, and its bytes.
#[derive(Clone, Copy, Drop)]
struct First {
    size: u32,
    come: u32,
}

impl First {
    fn add(&mut self, bytes: &[u8]) {
        for byte in bytes {
            if self.come < SIZE_LEN {
                self.size |= u32::from(*byte) << (8 * self.come);
            }
            self.come = self.come.saturating_add(1);
        }
    }

    fn is_whole(&self) -> bool {
        self.come >= self.size.max(SIZE_LEN)
    }
}

/// What a client sends. It fails if the first message is not whole in time, and ends if the gate closes.
#[derive(Drop)]
pub struct TcpSource<'a, 'b, R: Clock> {
    stream: TcpStream,
    clock: &'a R,
    gate: &'b Gate,
    begun: Option<Instant>,
    first: First,
    pub(crate) faults: u64,
}

impl<'a, 'b, R: Clock> TcpSource<'a, 'b, R> {
    /// The source of a client that has just come.
    pub(crate) fn new(stream: TcpStream, clock: &'a R, gate: &'b Gate) -> Self
        ensures { result.faults ≡ 0 }
    {
        TcpSource {
            stream,
            clock,
            gate,
            begun: Instant::now(clock).ok(),
            first: First { size: 0, come: 0 },
            faults: 0,
        }
    }

    /// How long the client has been there. A clock that fails says no time.
    fn age(&self) -> Duration {
        match self.begun {
            Some(begun) => begun.elapsed(self.clock).unwrap_or(Duration::ZERO),
            None => Duration::ZERO,
        }
    }

    fn is_late(&self) -> bool {
        !self.first.is_whole() && self.age() > Duration::from_secs(FIRST)
    }

    /// Reads what comes next, in time. Once the gate is closed that is the end.
    fn wait_for(&self, buffer: &mut [u8]) -> io::Result<usize>
        ensures { IfOk result (λ n. n ≤ length buffer.old) }
    {
        for _ in 0..u64::MAX {
            if self.gate.is_closed() {
                return Ok(0);
            }
            if self.is_late() {
                return Err(ErrorKind::TimedOut.into());
            }
            match (&self.stream).read(buffer) {
                Err(error) if may_go_on(&error) => {}
                made => return made,
            }
        }
        Err(ErrorKind::TimedOut.into())
    }

    /// Takes and drops what still comes, up to its end or a limit.
    pub(crate) fn drain(&mut self) {
        let mut buffer = [0; 4096];
        let begun = self.age();
        for _ in 0..u64::MAX {
            match self.stream.read(&mut buffer) {
                Ok(0) => return,
                Ok(_) => {}
                Err(error) if may_go_on(&error) => {}
                Err(_) => return,
            }
            if self.gate.is_closed()
                || self.age().saturating_sub(begun) > Duration::from_secs(LINGER)
            {
                return;
            }
        }
    }
}

impl<'a, 'b, R: Clock> Source for TcpSource<'a, 'b, R> {
    ghost left = { λ s. None };

    ghost faults = { λ s. s.faults };

    ghost fails_next = { λ s. None };

    fn take(&mut self, buffer: &mut [u8]) -> Result<usize, Failed> {
        match self.wait_for(buffer) {
            Ok(count) => {
                if !self.first.is_whole() {
                    self.first.add(&buffer[..count]);
                }
                Ok(count)
            }
            Err(_) => {
                self.faults = self.faults.saturating_add(1);
                Err(Failed)
            }
        }
    }
}

/// What a client is sent. It fails if a write does not move, and does not wait once the gate is closed.
#[derive(Drop)]
pub struct TcpSink<'b> {
    stream: TcpStream,
    gate: &'b Gate,
    unflushed: bool,
    pub(crate) faults: u64,
}

impl<'b> TcpSink<'b> {
    /// The sink of a client that has just come.
    pub(crate) fn new(stream: TcpStream, gate: &'b Gate) -> Self
        ensures { (result.faults ≡ 0) × (result.unflushed ≡ false) }
    {
        TcpSink {
            stream,
            gate,
            unflushed: false,
            faults: 0,
        }
    }

    /// Tells the client that no more comes.
    pub(crate) fn end(&self) {
        // Who has gone needs not be told.
        let _ = self.stream.shutdown(Shutdown::Write);
    }

    /// Writes what the client takes, in time. Once the gate is closed nothing is waited for.
    fn write(&self, piece: &[u8]) -> io::Result<usize>
        ensures { IfOk result (λ n. n ≤ length piece.now) }
    {
        for _ in 0..WRITE_TICKS {
            match (&self.stream).write(piece) {
                Err(error) if may_go_on(&error) && !self.gate.is_closed() => {}
                made => return made,
            }
        }
        Err(ErrorKind::TimedOut.into())
    }
}

impl<'b> Sink for TcpSink<'b> {
    ghost held = { λ s. None };

    ghost unflushed = { λ s. s.unflushed };

    ghost faults = { λ s. s.faults };

    ghost fails_next = { λ s. None };

    fn put(&mut self, piece: &[u8]) -> Result<usize, SinkFault> {
        match self.write(piece) {
            Ok(count) if count > 0 || piece.is_empty() => {
                self.unflushed = self.unflushed || count > 0;
                Ok(count)
            }
            _ => {
                // Nothing more is read from who takes nothing, so that its worker is free.
                let _ = self.stream.shutdown(Shutdown::Both);
                self.faults = self.faults.saturating_add(1);
                Err(SinkFault::Failed)
            }
        }
    }

    fn flush(&mut self) -> Result<(), Failed> {
        // A socket holds nothing back.
        self.unflushed = false;
        Ok(())
    }
}
