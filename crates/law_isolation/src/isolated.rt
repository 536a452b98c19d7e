//! A session that is alone with its window is isolated in each history, from the laws of draw devices and of names. Lemmas that proofs
//! of other crates cite; no code.
#![tactic(auto)]
