//! An image as a file (image(6)): the definitions that contracts of other crates cite. No code.
#![tactic(auto)]
