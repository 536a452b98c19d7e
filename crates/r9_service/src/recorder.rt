//! The recorder: a hall, with the sink to which its history is written while it goes on.
#![tactic(auto)]

mod hall;
mod keeps;
mod recorder;
mod running;

pub use keeps::Keeps;
pub use recorder::{RecordFault, Recorder, give_back, told_of_recorder};
pub use running::{Running, Runs};
