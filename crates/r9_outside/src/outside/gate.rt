//! What the doors of a program share.

use std::io;
use std::io::{ErrorKind, Write};
use std::net::TcpListener;
use std::sync::OnceLock;
use std::sync::atomic::AtomicBool;
use std::sync::atomic::Ordering::SeqCst;

/// The listener of a program's doors, which the first listen binds. Once the gate is closed nobody is let in any more, and nothing
/// more is read from who is inside.
#[derive(Drop)]
pub struct Gate {
    pub(crate) listener: OnceLock<TcpListener>,
    closed: AtomicBool,
}

impl Gate {
    /// An open gate, with no listener.
    pub fn new() -> Gate {
        Gate {
            listener: OnceLock::new(),
            closed: AtomicBool::new(false),
        }
    }

    /// The listener, once it is bound.
    pub fn listener(&self) -> Option<&TcpListener> {
        self.listener.get()
    }

    /// Closes the gate for good.
    pub fn close(&self) {
        self.closed.store(true, SeqCst);
    }

    pub(crate) fn is_closed(&self) -> bool {
        self.closed.load(SeqCst)
    }

    /// Closes the gate if a call failed. A call that a signal interrupted is made again.
    fn note<T>(&self, made: &io::Result<T>) {
        if let Err(error) = made {
            if error.kind() != ErrorKind::Interrupted {
                self.close();
            }
        }
    }
}

/// A writer that closes a gate once it has failed, as that of a record: what is not recorded is not to go on.
#[derive(Drop)]
pub struct GateWriter<'a, W: Write + Drop> {
    writer: W,
    gate: &'a Gate,
}

impl<'a, W: Write + Drop> GateWriter<'a, W> {
    /// A writer over another one.
    pub fn new(writer: W, gate: &'a Gate) -> Self {
        GateWriter { writer, gate }
    }
}

impl<'a, W: Write + Drop> Write for GateWriter<'a, W> {
    fn write(&mut self, piece: &[u8]) -> io::Result<usize> {
        let made = self.writer.write(piece);
        self.gate.note(&made);
        made
    }

    fn flush(&mut self) -> io::Result<()> {
        let made = self.writer.flush();
        self.gate.note(&made);
        made
    }
}
