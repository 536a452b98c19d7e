//! The workers of a server: each attends to the sessions of its door, one after the other, beside the others.
#![tactic(auto)]

mod doors;
mod lines;
mod report;
mod room;
mod threads;
mod worker;
mod workers;

pub use doors::listen_all;
pub use lines::Unplain;
pub use report::Report;
pub use threads::has_threads;
pub use workers::{told_of_history, work_all};
