//! A window on the root rio's screen that is placed, raised and lowered. Lemmas that proofs of other crates cite; no code.
#![tactic(auto)]
