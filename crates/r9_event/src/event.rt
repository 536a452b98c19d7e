//! What happens to the server and what it answers, as plain values: events, entries of a history, replies, what is told to
//! windows and what is ordered of the draw device.
#![tactic(auto)]

mod ask;
mod event;
mod lists;
mod own;
mod rio;

pub use ask::{Answer, Ask};
pub use event::{Did, Entry, Event, Opening, Reply};
pub use lists::{Entries, Notes, Orders, Replies, Uses};
pub use own::{Item, Use};
pub use rio::{Note, Order};
