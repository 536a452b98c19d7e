//! Composition of rows of raw pixels, as draw(2) does it at each point. No call takes memory.
#![tactic(auto)]

mod field;
mod kind;
mod layout;
mod moving;
mod place;
mod reading;
mod repeated;
mod rows;
mod single;
mod writing;

pub use repeated::solid;
pub use rows::compose;
pub use single::Through;
