//! The cursor that a mirror of the display shows: the definitions that contracts of other crates cite. No code.
#![tactic(auto)]
