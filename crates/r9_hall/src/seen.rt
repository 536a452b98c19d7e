//! What the messages of sessions used by which a session could notice another one: attaches (attach(5)), walks (walk(5)), opens (open(5)), and
//! what is written to `ctl`, `data` and `wctl` (draw(3), rio(4)).
#![tactic(auto)]

mod answering;
mod ending;
mod look;
mod using;

pub use answering::{Seen, answer};
pub use ending::{push_new_hosts, used_last};
pub use look::Look;
