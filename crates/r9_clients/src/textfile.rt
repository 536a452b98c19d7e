//! The input of a text: a font and the text that is shown with it.
#![tactic(auto)]

mod input;

pub use input::{BadInput, Input, read_input};
