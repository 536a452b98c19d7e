//! The record of a session that makes, moves and deletes windows as events of the mouse say: its lines, one for each thing that the
//! client says (rio(4), mouse(3), draw(3)).
#![tactic(auto)]

mod bands;
mod events;
mod opening;
mod record;

pub use crate::deskfile::DeskFault;
pub use record::desk_record;
