//! The fids of a session: the numbers by which a client names files (intro(5)). A table binds at most 1,024 of them.
#![tactic(auto)]

mod table;

pub use table::{FidFault, FidTable, LIMIT, NO_FID, Openable};
