//! What a message of a session used by which the session could notice another one, but for what it wrote to the draw device: names of
//! attaches (attach(5)), walks and opens (walk(5), open(5)), and what is written to `ctl` and `wctl` (draw(3), rio(4)).
#![tactic(auto)]

mod files;
mod texts;
mod walks;

pub use files::open_used;
pub use texts::{asks_for_new, asks_for_windows, chooses_display};
pub use walks::walk_used;
