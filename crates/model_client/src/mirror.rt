//! The frames of a mirror of the display, and the picture that a viewer keeps of them: the definitions that contracts of
//! other crates cite. No code.
#![tactic(auto)]
