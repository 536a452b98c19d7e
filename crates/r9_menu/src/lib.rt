//! A desk: windows that a mouse makes, moves and deletes by a menu, as commands of rio(4).
#![tactic(auto)]

mod asked;
mod desk;
mod panes;
mod spelled;
mod texts;

pub use desk::Desk;
pub use model_client::desk::Text;
pub use texts::Texts;
