//! A window's console: the keys that are typed in it, the reads of `cons` and the text of the window (cons(3), rio(4)).
#![tactic(auto)]

mod console;
mod line;
mod transcript;

pub use console::Console;
