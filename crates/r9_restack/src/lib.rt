//! Pixels moved to where they are kept when an image gets another list of windows.
#![tactic(auto)]

mod changing;
mod giving;
mod ordering;
mod placing;
mod restacking;
mod stacks;

pub use changing::change;
pub use giving::{Source, Supply};
pub use ordering::{groups_are_orders, reorder};
pub use restacking::{conceal, disclose, leave, restack};
pub use stacks::count_front;
