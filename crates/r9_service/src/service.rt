//! The command `serve`: a hall, served to the sessions that come to doors.
#![tactic(auto)]

mod outcome;
mod run;
mod serving;
mod telling;

pub use outcome::{Outcome, Served, Service};
pub use serving::serve;
