//! Sources and sinks over std's readers and writers, as standard input and output. They tell no content: what a real
//! stream has left or holds is not proved. A call that a signal interrupted is made again, and is no fault.

ghost use Rattle.std.specs.Prelude.{◌≡◌, ◌≤◌, false, length, IfOk, None};
ghost use Rattle.r9_outside.specs.outside.Count.{one_more};

use crate::outside::{Failed, Sink, SinkFault, Source};
use std::io;
use std::io::{ErrorKind, Read, Write};

/// Reads, and again if a signal interrupted it.
fn read_again<R: Read>(reader: &mut R, buffer: &mut [u8]) -> io::Result<usize>
    ensures { IfOk result (λ n. n ≤ length buffer.old) }
{
    for _ in 0..u64::MAX {
        match reader.read(buffer) {
            Err(error) if error.kind() == ErrorKind::Interrupted => {}
            made => return made,
        }
    }
    Err(ErrorKind::Interrupted.into())
}

/// Writes, and again if a signal interrupted it.
fn write_again<W: Write>(writer: &mut W, piece: &[u8]) -> io::Result<usize>
    ensures { IfOk result (λ n. n ≤ length piece.now) }
{
    for _ in 0..u64::MAX {
        match writer.write(piece) {
            Err(error) if error.kind() == ErrorKind::Interrupted => {}
            made => return made,
        }
    }
    Err(ErrorKind::Interrupted.into())
}

/// A source over a reader.
#[derive(Drop)]
pub struct ReadSource<R: Read + Drop> {
    reader: R,
    faults: u64,
}

impl<R: Read + Drop> ReadSource<R> {
    /// A source that has counted no fault.
    pub fn new(reader: R) -> Self
        ensures { result.faults ≡ 0 }
    {
        ReadSource { reader, faults: 0 }
    }
}

impl<R: Read + Drop> Source for ReadSource<R> {
    ghost left = { λ s. None };

    ghost faults = { λ s. s.faults };

    ghost fails_next = { λ s. None };

    fn take(&mut self, buffer: &mut [u8]) -> Result<usize, Failed> {
        match read_again(&mut self.reader, buffer) {
            Ok(count) => Ok(count),
            Err(_) => {
                self.faults = self.faults.saturating_add(1);
                Err(Failed)
            }
        }
    }
}

/// A sink over a writer.
#[derive(Drop)]
pub struct WriteSink<W: Write + Drop> {
    writer: W,
    unflushed: bool,
    faults: u64,
}

impl<W: Write + Drop> WriteSink<W> {
    /// A sink that has counted no fault.
    pub fn new(writer: W) -> Self
        ensures faults { result.faults ≡ 0 }
        ensures flushed { result.unflushed ≡ false }
    {
        WriteSink {
            writer,
            unflushed: false,
            faults: 0,
        }
    }

    fn fail(&mut self) -> Failed
        ensures rose { self.new.faults ≡ one_more self.old.faults }
        ensures counted { self.old.faults ≤ self.new.faults }
        ensures same { self.new.unflushed ≡ self.old.unflushed }
    {
        self.faults = self.faults.saturating_add(1);
        Failed
    }
}

impl<W: Write + Drop> Sink for WriteSink<W> {
    ghost held = { λ s. None };

    ghost unflushed = { λ s. s.unflushed };

    ghost faults = { λ s. s.faults };

    ghost fails_next = { λ s. None };

    fn put(&mut self, piece: &[u8]) -> Result<usize, SinkFault> {
        match write_again(&mut self.writer, piece) {
            Ok(count) if count > 0 || piece.is_empty() => {
                self.unflushed = self.unflushed || count > 0;
                Ok(count)
            }
            _ => {
                self.fail();
                Err(SinkFault::Failed)
            }
        }
    }

    fn flush(&mut self) -> Result<(), Failed> {
        match self.writer.flush() {
            Ok(()) => {
                self.unflushed = false;
                Ok(())
            }
            Err(_) => Err(self.fail()),
        }
    }
}
