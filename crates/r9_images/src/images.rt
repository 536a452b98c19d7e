//! What the image ids, the screen ids and the names of the draw device refer to, and what goes when a reference goes
//! (draw(3)).
#![tactic(auto)]

mod adding;
mod book;
mod fault;
mod freed;
mod freeing;
mod naming;

pub use book::Book;
pub use fault::BookFault;
pub use freed::Freed;
pub use model_draw_parts::images::Thing;
