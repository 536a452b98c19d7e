//! The command `alone`: a record is read, its history runs, and a session that is alone with its window in it is answered in a world of its
//! own, which is told only its own messages and the notes of its window.
#![tactic(auto)]

mod alone;
mod fault;
mod watching;

pub use alone::alone_input;
pub use fault::AloneFault;
