//! What the session does leaves its window on the root rio's screen, and its name tied. Lemmas that proofs of other crates cite; no code.
#![tactic(auto)]
