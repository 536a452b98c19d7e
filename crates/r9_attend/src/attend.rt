//! One session of a server: a reader that asks what comes from its one end, and a writer that gives what waits to the other.
#![tactic(auto)]

mod ends;
mod muster;
mod pace;
mod progress;
mod reading;
mod room;
mod serves;
mod session;
mod writing;

pub use ends::{Attended, ReadEnd, WriteEnd};
pub(crate) use muster::Muster;
pub use serves::Serves;
pub use session::attend;
