//! What the window manager orders of the draw device: images for its windows, and screens on them for the rios in windows
//! (rio(4)).
#![tactic(auto)]

mod display;
mod going;
mod image;
mod next;
mod orders;
mod rects;
mod rio;
mod there;
mod window;

pub use orders::carry_out;
