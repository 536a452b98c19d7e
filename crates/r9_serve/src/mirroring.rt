//! The command `mirror`: a record is read, its history runs, and after each entry the cells of the display that have changed are put
//! out, with a cursor over them.
#![tactic(auto)]

mod mirror;
mod run;

pub use run::{MirrorFault, mirror_input};
