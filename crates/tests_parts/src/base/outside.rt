use r9_outside::outside::{
    Failed, MemSink, MemSource, ReadSource, Sink, SinkFault, Source, WriteSink, put_all,
};
use std::io;
use std::io::{ErrorKind, Read, Write};
use std::test::Fail;

/// A stream whose first call a signal interrupts, and whose third call fails. Each other call moves a byte.
#[derive(Drop)]
struct Interrupted {
    calls: u32,
}

impl Interrupted {
    fn call(&mut self) -> io::Result<()> {
        self.calls = self.calls.saturating_add(1);
        match self.calls {
            1 => Err(ErrorKind::Interrupted.into()),
            3 => Err(ErrorKind::BrokenPipe.into()),
            _ => Ok(()),
        }
    }
}

impl Read for Interrupted {
    fn read(&mut self, buffer: &mut [u8]) -> io::Result<usize> {
        self.call()?;
        Ok(buffer.len().min(1))
    }
}

impl Write for Interrupted {
    fn write(&mut self, piece: &[u8]) -> io::Result<usize> {
        self.call()?;
        Ok(piece.len().min(1))
    }

    fn flush(&mut self) -> io::Result<()> {
        Ok(())
    }
}

#[test]
fn interrupted_calls_are_made_again(rt: HostRuntime) -> Result<(), Fail> {
    let mut source = ReadSource::new(Interrupted { calls: 0 });
    let mut buffer = [0; 2];
    for taken in [Ok(1), Err(Failed), Ok(1)] {
        assert_eq!(rt; source.take(&mut buffer), taken);
    }
    let mut sink = WriteSink::new(Interrupted { calls: 0 });
    for put in [Ok(1), Err(SinkFault::Failed), Ok(1)] {
        assert_eq!(rt; sink.put(b"ab"), put);
    }
    Ok(())
}

// The adapters over the standard streams are trusted.
#[test]
fn streams_are_read_and_written(rt: HostRuntime) -> Result<(), Fail> {
    let mut source = ReadSource::new(b"abc".as_slice());
    let mut buffer = [0; 2];
    assert_eq!(rt; source.take(&mut buffer), Ok(2));
    assert_eq!(rt; buffer.as_slice(), b"ab".as_slice());
    assert_eq!(rt; source.take(&mut buffer), Ok(1));
    assert_eq!(rt; source.take(&mut buffer), Ok(0));
    let mut held = Vec::new(rt.alloc());
    let mut sink = WriteSink::new(&mut held);
    assert_eq!(rt; put_all(&mut sink, b"abc"), Ok(()));
    assert_eq!(rt; sink.flush(), Ok(()));
    drop(sink);
    assert_eq!(rt; held.as_slice(), b"abc".as_slice());
    Ok(())
}

// The second take fails, and the first put.
#[test]
fn calls_fail_by_a_list(rt: HostRuntime) -> Result<(), Fail> {
    let alloc = rt.alloc();
    let mut source = MemSource::new(b"ab".to_vec(alloc)?, [2].to_vec(alloc)?);
    let mut buffer = [0; 1];
    for taken in [Ok(1), Err(Failed), Ok(1), Ok(0)] {
        assert_eq!(rt; source.take(&mut buffer), taken);
    }
    let mut sink = MemSink::new(alloc, [1].to_vec(alloc)?);
    for put in [Err(SinkFault::Failed), Ok(2)] {
        assert_eq!(rt; sink.put(b"ab"), put);
    }
    assert_eq!(rt; sink.bytes(), b"ab".as_slice());
    Ok(())
}
