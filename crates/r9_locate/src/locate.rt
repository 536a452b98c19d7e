//! Where the pixels of images and of the windows on them are kept, found by rows, and read and written there.
#![tactic(auto)]

mod keeping;
mod lists;
mod runs;
mod viewing;

pub use keeping::Run;
pub use lists::{Frame, Lists, place_among};
pub use runs::{along, steady, steady_top, top};
pub use viewing::{Pixels, inward, read_view, save_view, show_own, write_view};
