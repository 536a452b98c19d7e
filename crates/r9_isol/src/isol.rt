//! A session that is alone with its window: what it is answered in a world of its own.
#![tactic(auto)]

mod calls;
mod desktop;
mod device;
mod notes;
mod outside;
mod uncounted;

pub use desktop::Desktop;
