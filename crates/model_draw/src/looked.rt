//! How the bytes of a write to the draw device are read again after it: by the number of bytes that the rows of each `y` have. Definitions
//! that contracts of other crates cite, and the lemmas about them that proofs of other crates cite; no code.
#![tactic(auto)]
