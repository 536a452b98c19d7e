//! What image ids, screen ids, screens and windows of the draw device refer to (draw(3)), with how often each image and each
//! screen is referred to, so that what nothing refers to any more goes without a look at the others.
#![tactic(auto)]

mod adding;
mod freeing;
mod pending;
mod release;
mod rows;
mod taking;
mod tally;
mod uses;
mod windows;

pub use uses::Uses;
