//! Images that are the same in two worlds of images but for their numbers. Definitions, and the lemmas about them that proofs of other
//! crates cite; no code.
#![tactic(auto)]
