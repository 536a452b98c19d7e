//! The names of the draw device, tied to images, which are found by name, by number and by who made them without a walk over
//! all of them.
#![tactic(auto)]

mod index;
mod rows;
mod ties;

pub use ties::Ties;
