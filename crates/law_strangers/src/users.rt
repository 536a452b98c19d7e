//! Who uses a window, in each history. Lemmas that proofs of other crates cite; no code.
#![tactic(auto)]
