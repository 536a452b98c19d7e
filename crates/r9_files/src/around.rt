//! What sessions find outside themselves (attach(5), draw(3), rio(4)): calls that a whole server has, and any other place where a
//! session may run.
#![tactic(auto)]

mod outside;
mod wrote;

pub use outside::Outside;
pub use wrote::{Told, Wrote};
