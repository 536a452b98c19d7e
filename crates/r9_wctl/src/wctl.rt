//! The commands for windows (rio(4)): reading them, and what their options make of a rectangle.
#![tactic(auto)]

mod command;
mod gathered;
mod key;
mod number;
mod options;
mod reading;
mod rectangle;
mod setting;
mod verb;
mod word;

pub use command::{Command, Wctl, WctlFault};
pub use model_files::wctl::{Amount, Choice};
pub use options::Options;
pub use reading::read_wctl;
pub use rectangle::apply;
pub use setting::read_path;
