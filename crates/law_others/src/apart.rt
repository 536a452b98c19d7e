//! A part of a draw device of which its other connections know nothing, and changes beside it that leave it as it is. Definitions, and
//! the lemmas about them that proofs of other crates cite; no code.
#![tactic(auto)]
