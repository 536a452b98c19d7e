//! What a session answers: its fids, the reads that wait, its connections to the draw device, the windows that it uses, and each
//! message of intro(5).
#![tactic(auto)]

mod answer;
mod attaching;
mod holding;
mod leaving;
mod looking;
mod opening;
mod reading;
mod session;
mod taking;
mod wait;
mod waiting;
mod waking;
mod walking;
mod writing;

pub use session::Session;
pub use writing::Answered;
