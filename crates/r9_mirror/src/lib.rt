//! The picture that a viewer of a mirror keeps: the frames of the mirror change it as their bytes come.
#![tactic(auto)]

mod fault;
mod lines;
mod place;
mod viewer;
mod words;

pub use fault::ViewFault;
pub use viewer::Viewer;
