//! Laws of maps as lists of keys and values. They are cited by proofs of other crates; no code.
#![tactic(auto)]
