//! Channel descriptors (image(6)), premultiplied colours, and their composition by the operators of Porter and Duff
//! (draw(2)). No call takes memory.
#![tactic(auto)]

mod channel;
mod colour;
mod descriptor;
mod operator;

pub use colour::Colour;
pub use descriptor::{BadChan, Chan, ChanText};
pub use operator::{Op, comp};
