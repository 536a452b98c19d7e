//! A session in a world of its own: what it is answered where it is told only its own messages and the notes of its window.
#![tactic(auto)]

mod lone;

pub use lone::Lone;
