//! Session records: histories as text, written and read, and which event may come next.
#![tactic(auto)]

mod digits;
mod fitting;
mod header;
mod line;
mod reading;
mod roll;
mod writing;

pub use header::write_header;
pub use line::event_of;
pub use reading::{JournalFault, Record, read_record};
pub use roll::Roll;
pub use writing::{entry_len, write_entry, write_reply, write_reply_of};
