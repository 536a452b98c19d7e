//! A text in a window that scrolls: the pieces that a text is cut into, what each of them changes in the rows that the
//! window shows, and where its characters stand.
#![tactic(auto)]

mod moves;
mod piece;
mod place;
mod window;

pub use model_client::textwin::Move;
pub use moves::Moves;
pub use piece::first_piece;
pub use window::TextWin;
