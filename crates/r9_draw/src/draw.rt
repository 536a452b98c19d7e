//! The draw device (draw(3)): messages that are written, orders of the window manager, connections, and what is shown.
#![tactic(auto)]

mod draw;
mod fault;
mod files;
mod listed;
mod marks;
mod message;
mod shown;
mod write;

pub use draw::Draw;
pub use fault::DrawFault;
pub use shown::Shown;
pub use write::Wrote;
