//! The messages that a client writes to the draw device (draw(3)): the one that stands first in bytes.
#![tactic(auto)]

mod fields;
mod letters;
mod listed;
mod lists;
mod message;
mod naming;
mod reading;
mod restacking;
mod writing;

pub use listed::{Listed, next_listed};
pub use message::{Dmsg, DmsgFault};
pub use naming::{NameUse, Naming};
pub use reading::next_msg;
pub use restacking::Restacking;
pub use writing::{Background, Writing};
