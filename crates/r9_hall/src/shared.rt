//! What a session does at a desktop (intro(5), read(5)), in the middle of a turn that goes on: as the session does it at anything outside
//! itself, and the turn began as before.
#![tactic(auto)]

mod answering;
mod leaving;
mod shared;
mod waiting;

pub use answering::answer;
pub use leaving::leave;
pub use waiting::answer_waiting;
