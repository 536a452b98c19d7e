//! Reads and writes of one open file (read(5), write(5)): of the draw device (draw(3)), and of windows and rios (rio(4)).
#![tactic(auto)]

mod reading;
mod windows;
mod writing;

pub use reading::{CTL_LEN, read_file, read_now};
pub use writing::write_file;
