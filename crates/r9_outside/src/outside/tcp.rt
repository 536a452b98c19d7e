//! Doors of the network. They tell neither who comes nor what is sent: what a real socket has left or holds is not proved.

ghost use Rattle.std.specs.Prelude.{◌≡◌, ◌≤◌, false, None};
ghost use Rattle.r9_outside.specs.outside.Count.{one_more};
ghost use Rattle.r9_outside.specs.outside.Doors.{untold};

use crate::outside::socket::{TcpSink, TcpSource, set_ticks};
use crate::outside::{AcceptFault, Door, Failed, Gate};
use libc::net as c;
use std::io::ErrorKind;
use std::net::{Net, TcpListener, TcpStream};
use std::os::fd::{AsRawFd, OwnedFd};
use std::time::{Clock, Duration};
use std::{io, thread};

/// The numbers of descriptors up to this one are those of the standard streams.
const LAST_STANDARD: i32 = 2;

/// A client from which nothing came for so many seconds is asked whether it is there, again after each interval, so many times.
const IDLE: u8 = 30;

const INTERVAL: u8 = 10;

const TRIES: u8 = 3;

/// After so many milliseconds an accept that had no room is made again.
const PAUSE: u64 = 50;

/// What the system tells where it has no room for a connection now, as Linux numbers it: ENOMEM, ENFILE, EMFILE and ENOBUFS; and where
/// one broke before it was accepted: EPROTO and ECONNABORTED.
const PASSING: [i32; 6] = [12, 23, 24, 105, 71, 103];

/// A door at an address of the network. The doors of a program share a gate with its one listener.
#[derive(Drop)]
pub struct TcpDoor<'a, 'b, R: Net + Clock> {
    rt: &'a R,
    gate: &'b Gate,
    inside: bool,
    over: bool,
    faults: u64,
}

/// Asks the system to find out whether the clients of a listener are still there. What asks the C library is unsafe code: it names four
/// options that the library knows, each an `int` of four bytes.
fn set_keepalive(listener: &TcpListener) -> io::Result<()> {
    let fd = listener.as_raw_fd();
    let (on, idle, interval, tries) = (value(1), value(IDLE), value(INTERVAL), value(TRIES));
    let tcp = c::IPPROTO_TCP;
    let statuses = unsafe {
        [
            c::setsockopt(fd, c::SOL_SOCKET, c::SO_KEEPALIVE, &on, 4),
            c::setsockopt(fd, tcp, c::TCP_KEEPIDLE, &idle, 4),
            c::setsockopt(fd, tcp, c::TCP_KEEPINTVL, &interval, 4),
            c::setsockopt(fd, tcp, c::TCP_KEEPCNT, &tries, 4),
        ]
    };
    if statuses == [0; 4] {
        Ok(())
    } else {
        Err(ErrorKind::InvalidInput.into())
    }
}

/// An option's value: an `int` in the first bytes.
fn value(number: u8) -> [u8; 16] {
    let mut bytes = [0; 16];
    bytes[0] = number;
    bytes
}

/// A listener at an address.
fn bound<R: Net<Listener = TcpListener, Stream = TcpStream>>(
    rt: &R,
    address: &str,
) -> io::Result<TcpListener> {
    let listener = TcpListener::bind(rt, address)?;
    // A socket in the place of a closed standard stream would be written to as if it were that.
    if listener.as_raw_fd() <= LAST_STANDARD {
        return Err(ErrorKind::AddrNotAvailable.into());
    }
    // The sockets that it accepts have these options too.
    set_keepalive(&listener)?;
    // An accept waits as long as a read.
    set_ticks(&TcpStream::from(OwnedFd::from(listener.try_clone()?)))?;
    Ok(listener)
}

/// The next connection. It waits for a tick at most.
fn accepted(gate: &Gate) -> io::Result<TcpStream> {
    let listener = gate.listener().ok_or(ErrorKind::NotConnected)?;
    let (stream, _) = listener.accept()?;
    set_ticks(&stream)?;
    // A stream that keeps small replies back is slow, and no fault.
    let _ = stream.set_nodelay(true);
    Ok(stream)
}

/// Whether an accept may be made again. If the system had no room, it is so after a pause.
fn may_accept_again(clock: &impl Clock, error: &io::Error) -> bool {
    if matches!(error.kind(), ErrorKind::Interrupted | ErrorKind::WouldBlock) {
        return true;
    }
    let passes = error
        .raw_os_error()
        .is_some_and(|number| PASSING.contains(&number));
    if passes {
        thread::sleep(clock, Duration::from_millis(PAUSE));
    }
    passes
}

impl<'a, 'b, R: Net<Listener = TcpListener, Stream = TcpStream> + Clock> TcpDoor<'a, 'b, R> {
    /// A door that has counted no fault.
    pub fn new(rt: &'a R, gate: &'b Gate) -> Self
        ensures { (result.faults ≡ 0) × (result.inside ≡ false) × (result.over ≡ false) }
    {
        TcpDoor {
            rt,
            gate,
            inside: false,
            over: false,
            faults: 0,
        }
    }

    /// Binds the listener, unless it is bound, or the gate is closed and nobody is let in.
    fn bind(&self, address: &str) -> io::Result<()> {
        if self.gate.listener().is_some() || self.gate.is_closed() {
            return Ok(());
        }
        match self.gate.listener.try_set(bound(self.rt, address)?) {
            Ok(_) => Ok(()),
            Err(_) => Err(ErrorKind::AddrInUse)?,
        }
    }

    /// Another handle of a stream, as soon as there is room for it.
    fn same(&self, stream: &TcpStream) -> io::Result<TcpStream> {
        for _ in 0..u64::MAX {
            match stream.try_clone() {
                Err(error) if may_accept_again(self.rt, &error) && !self.gate.is_closed() => {}
                made => return made,
            }
        }
        Err(ErrorKind::TimedOut.into())
    }

    /// The next connection, once to read from and once to write to, or None once the gate is closed.
    fn next(&self) -> io::Result<Option<(TcpStream, TcpStream)>> {
        for _ in 0..u64::MAX {
            if self.gate.is_closed() {
                return Ok(None);
            }
            match accepted(self.gate) {
                Ok(stream) => {
                    let same = self.same(&stream)?;
                    return Ok(Some((stream, same)));
                }
                Err(error) if may_accept_again(self.rt, &error) => {}
                Err(error) => return Err(error),
            }
        }
        Ok(None)
    }

    fn fail(&mut self) -> Failed
        ensures rose { self.new.faults ≡ one_more self.old.faults }
        ensures counted { self.old.faults ≤ self.new.faults }
        ensures same { (self.new.inside ≡ self.old.inside) × (self.new.over ≡ self.old.over) }
    {
        self.faults = self.faults.saturating_add(1);
        Failed
    }
}

impl<'a, 'b, R: Net<Listener = TcpListener, Stream = TcpStream> + Clock + Sync> Door
    for TcpDoor<'a, 'b, R> {
    type In = TcpSource<'a, 'b, R>;

    type Out = TcpSink<'b>;

    ghost faults = { λ d. d.faults };

    ghost fails_next = { λ d. None };

    ghost coming = { λ d. None };

    ghost over = { λ d. d.over };

    ghost inside = { λ d. untold d.inside };

    ghost ended = { λ d. None };

    fn listen(&mut self, address: &str) -> Result<(), Failed> {
        match self.bind(address) {
            Ok(()) => Ok(()),
            Err(_) => Err(self.fail()),
        }
    }

    fn accept(&mut self) -> Result<Option<(TcpSource<'a, 'b, R>, TcpSink<'b>)>, AcceptFault> {
        match self.next() {
            Ok(Some((input, output))) => {
                self.inside = true;
                Ok(Some((
                    TcpSource::new(input, self.rt, self.gate),
                    TcpSink::new(output, self.gate),
                )))
            }
            Ok(None) => {
                self.over = true;
                Ok(None)
            }
            Err(_) => {
                self.fail();
                Err(AcceptFault::Failed)
            }
        }
    }

    /// A client that did not fail is told that no more comes, and what it still sends is dropped for a while, since a socket that is
    /// closed with bytes to read takes from the client what it was sent last.
    fn done(
        &mut self,
        _session: Option<u32>,
        mut input: TcpSource<'a, 'b, R>,
        output: TcpSink<'b>,
    ) {
        if input.faults == 0 && output.faults == 0 {
            output.end();
            input.drain();
        }
        self.inside = false;
    }
}
