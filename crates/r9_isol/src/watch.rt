//! Whether a session is alone with its window in a history, and what it is told then.
#![tactic(auto)]

mod copies;
mod history;
mod items;
mod reasons;
mod telling;
mod watch;

pub use history::watches_hold_histories;
pub use items::{Items, Step};
pub use watch::{Watch, WatchFault};
