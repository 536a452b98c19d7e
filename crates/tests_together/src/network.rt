//! Both ends of a connection in one process.

use crate::calls::{Ending, called};
use crate::ends::TestSink;
use crate::talks::{REPLIES, SENT, bytes_of, record_of, without_takes};
use r9_outside::outside::{Door, Gate, GateWriter, TcpDoor};
use r9_serve::serve::{DOORS, Status};
use std::alloc::Global;
use std::io::{Read, Write};
use std::net::{Net, Shutdown, SocketAddr, TcpListener, TcpStream};
use std::sync::Wait;
use std::test::Fail;
use std::thread::{Threads, join};
use std::time::Clock;
use std::{array, io};

/// Where the server listens, at a port that the system picks.
const ADDRESS: &str = "127.0.0.1:0";

/// Opens the listener that the doors share, and tells its address.
fn opened<R: Net<Listener = TcpListener, Stream = TcpStream> + Clock + Sync>(
    rt: &R,
    gate: &Gate,
) -> io::Result<SocketAddr> {
    if TcpDoor::new(rt, gate).listen(ADDRESS).is_err() {
        return Err(io::ErrorKind::AddrNotAvailable.into());
    }
    gate.listener()
        .ok_or(io::ErrorKind::NotConnected)?
        .local_addr()
}

/// Sends what a session sends and then these bytes, and reads all that comes back.
fn ask<R: Net<Stream = TcpStream>>(
    rt: &R,
    alloc: Global,
    address: SocketAddr,
    more: &[u8],
) -> io::Result<Vec<u8>> {
    let mut stream = TcpStream::connect(rt, address)?;
    stream.write_all(&bytes_of(alloc, SENT[0])?)?;
    stream.write_all(more)?;
    stream.shutdown(Shutdown::Write)?;
    let mut answer = Vec::new(alloc);
    stream.read_to_end(&mut answer)?;
    Ok(answer)
}

/// Serves one session of the network.
fn served_there<R: Net<Listener = TcpListener, Stream = TcpStream> + Clock + Threads + Wait + Sync>(
    rt: &R,
    alloc: Global,
    gate: &Gate,
) -> Ending {
    let mut doors: [_; DOORS] = array::from_fn(|_| TcpDoor::new(rt, gate));
    let words = ["serve", "--listen", ADDRESS, "--conns", "1"];
    let out = TestSink::new(alloc, None, false);
    called(rt, alloc, &words, Vec::new(alloc), out, &mut doors)
}

/// What a client got that sent these bytes behind a session's, and how its server ended.
fn both<R: Net<Listener = TcpListener, Stream = TcpStream> + Clock + Threads + Wait + Sync>(
    rt: &R,
    alloc: Global,
    more: &[u8],
) -> io::Result<(Vec<u8>, Ending)> {
    let gate = Gate::new();
    let address = opened(rt, &gate)?;
    let (served, answer) = join(
        rt,
        || served_there(rt, alloc, &gate),
        || ask(rt, alloc, address, more),
    );
    Ok((answer?, served))
}

#[test]
fn a_client_is_served_over_the_network(rt: HostRuntime) -> Result<(), Fail> {
    let alloc = rt.alloc();
    let gate = Gate::new();
    assert!(rt; TcpDoor::new(&rt, &gate).listen("nowhere").is_err());
    let (answer, served) = both(&rt, alloc, &[])?;
    assert_eq!(rt; answer.as_slice(), bytes_of(alloc, REPLIES[0])?.as_slice());
    assert_eq!(rt; (served.status, served.err.len()), (Status::Done, 0));
    let record = without_takes(alloc, &served.out)?;
    assert_eq!(rt; record.as_str(), record_of(alloc, SENT[0])?.as_str());
    Ok(())
}

// What it sends behind a size that no message has stays unread, and takes nothing from what it is sent.
#[test]
fn a_bad_size_ends_a_session_behind_its_replies(rt: HostRuntime) -> Result<(), Fail> {
    let alloc = rt.alloc();
    let mut more = [0; 20_000];
    more[0] = 1;
    let (answer, served) = both(&rt, alloc, &more)?;
    assert_eq!(rt; answer.as_slice(), bytes_of(alloc, REPLIES[0])?.as_slice());
    assert_eq!(rt;
        (served.status, served.err.as_slice()),
        (Status::Done, b"session 1: bad size 1\n".as_slice())
    );
    Ok(())
}

/// A writer that fails.
#[derive(Drop)]
struct Broken;

impl Write for Broken {
    fn write(&mut self, _piece: &[u8]) -> io::Result<usize> {
        Err(io::ErrorKind::StorageFull.into())
    }

    fn flush(&mut self) -> io::Result<()> {
        Ok(())
    }
}

#[test]
fn nobody_is_let_in_once_a_writer_has_failed(rt: HostRuntime) -> Result<(), Fail> {
    let gate = Gate::new();
    opened(&rt, &gate)?;
    let mut writer = GateWriter::new(Broken, &gate);
    assert!(rt; writer.write(b"a").is_err());
    assert!(rt; matches!(TcpDoor::new(&rt, &gate).accept(), Ok(None)));
    Ok(())
}
