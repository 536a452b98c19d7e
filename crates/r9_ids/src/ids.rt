//! The image ids and the screen ids of all connections, in order.
#![tactic(auto)]

mod image_ids;
mod rows;
mod screen_ids;

pub use image_ids::ImageIds;
pub use screen_ids::ScreenIds;
