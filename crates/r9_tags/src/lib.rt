//! The reads of a session that wait for something to give (flush(5), rio(4)). At most 64 wait.
#![tactic(auto)]

mod waiting;

pub use waiting::{LIMIT, ParkFault, Waiting};
