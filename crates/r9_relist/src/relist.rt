//! Another list of the windows of an image, with the tiles that it takes and gives back.
#![tactic(auto)]

mod leaving;
mod relisting;

pub use leaving::{take_away, take_whole};
pub use relisting::{add, common, hide, relist, reorder_windows, reserve_move, settle, unhide};
