//! The window manager: which windows there are, in which rio and where, and who gets the input (rio(1), rio(4)). It knows
//! no images: what an act asks of the draw device it gives as orders, and what windows are told as notes.
#![tactic(auto)]

mod act;
mod alone;
mod draft;
mod input;
mod making;
mod manager;
mod moving;
mod naming;
mod showing;
mod sizing;
mod step;

pub use act::{Act, ActFault, Step};
pub use manager::Manager;
