//! What a client writes that makes, moves and deletes windows as the mouse says, and the windows that are there then. Definitions, and
//! lemmas that proofs of other crates cite; no code.
#![tactic(auto)]
