//! What reads of a window's mouse file give (mouse(3), rio(4)): the definitions that contracts of other crates cite, and
//! laws about them as contracts of functions that do nothing.
#![tactic(auto)]

/// An event of the mouse, as mouse(3) tells it.
#[derive(Clone, Copy, PartialEq, Eq, Debug)]
pub struct Mouse {
    /// Where the pointer is, in pixels.
    pub x: i32,
    pub y: i32,
    /// The buttons that are pressed: 1 left, 2 middle, 4 right, 8 and 16 the wheel.
    pub buttons: u8,
    /// When it happened, in milliseconds.
    pub msec: u32,
}

mod laws;

pub use laws::{clicks_stand_in_order, queue_goes_on, read_is_oldest};
