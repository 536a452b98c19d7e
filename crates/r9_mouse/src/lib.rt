//! The events of the mouse that wait for a window's `mouse` file (mouse(3), rio(4)), and their text.
#![tactic(auto)]

mod queue;
mod spelling;

pub use model_files::mouse::Mouse;
pub use queue::MouseQueue;
pub use spelling::{read_mouse, text};
