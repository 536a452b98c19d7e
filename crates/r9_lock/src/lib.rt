//! One value that threads take turns at, with one history of the entries that the turns made.
#![tactic(auto)]

mod bell;
mod bells;
mod chronicle;
mod pass;
mod rule;
mod shared;
mod view;

pub use bells::bell_of;
pub use chronicle::{Acted, Chronicle};
pub use pass::Pass;
pub use shared::{Refused, Shared, Spent};
