//! The draw device (draw(3)): images and windows, what ids refer to, connections, and what these keep together.
#![tactic(auto)]

mod device;
mod lookup;

pub use device::{Device, Opening, release};
pub use lookup::{DISPLAY, is_near_point, is_near_rect};
pub use r9_layers::{ImageNo, Info};
