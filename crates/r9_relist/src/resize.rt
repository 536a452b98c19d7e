//! An image that stands nowhere gets another size while its windows stay: pixels that it shows no more of a window go to tiles,
//! and those that it shows newly come from there.
#![tactic(auto)]

mod framing;
mod moving;
mod resizing;

pub use resizing::resize;
