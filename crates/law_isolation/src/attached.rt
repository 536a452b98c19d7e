//! The attach that gives a session that is alone its window is answered alike in both worlds. Lemmas that proofs of other crates cite;
//! no code.
#![tactic(auto)]
