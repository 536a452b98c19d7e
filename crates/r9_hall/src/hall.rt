//! The core of the server: the world to which a history leads, and the hall, which keeps of the history and answers sessions.
#![tactic(auto)]

mod acts;
mod hall;
mod outboxes;
mod sessions;
mod settling;
mod watching;
mod world;

pub use hall::Hall;
pub use world::World;
