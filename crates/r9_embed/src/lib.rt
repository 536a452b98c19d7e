//! A display inside another program: what the server does in a turn, as calls that start no thread, never wait, and read or write nothing outside.
#![tactic(auto)]

mod embedded;
mod events;
mod picture;

pub use embedded::{AskFault, Done, Embedded, Exchange, Full, OpenFault};
pub use events::{EventFault, LoadFault};
pub use picture::RowsFault;
