//! The words of the command line as a job.
#![tactic(auto)]

mod command;
mod fit;
mod job;
mod reading;
mod values;

pub use job::{Job, OptsFault};
pub use reading::read_words;
