//! The root rio's screen stays on the display, whatever is done to a draw device. Lemmas that proofs of other crates cite; no code.
#![tactic(auto)]
