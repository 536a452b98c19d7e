//! Records made by a generator, for tests and for measuring: eight windows that are raised, lowered, moved and drawn on.
#![tactic(auto)]

mod bytes;
mod desk;
mod making;
mod record;

pub use record::make;
