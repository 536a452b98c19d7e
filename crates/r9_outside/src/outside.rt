//! The outside as traits: where bytes come from, where they go, and where sessions come from. Each object counts its own
//! faults, so that a caller cannot answer a fault that did not happen.
#![tactic(auto)]

mod door;
mod doors;
mod gate;
mod memory;
mod sink;
mod socket;
mod source;
mod streams;
mod tcp;

pub use door::{AcceptFault, Door};
pub use doors::{Done, MemDoor, SureDoor};
pub use gate::{Gate, GateWriter};
pub use memory::{MemSink, MemSource, SureSink, SureSource};
pub use sink::{Sink, SinkFault, put_all};
pub use socket::{TcpSink, TcpSource};
pub use source::Source;
pub use streams::{ReadSource, WriteSink};
pub use tcp::TcpDoor;

/// A call of the outside failed, and was counted.
#[derive(Clone, Copy, Debug, PartialEq, Eq)]
pub struct Failed;
