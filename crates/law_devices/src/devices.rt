//! What a session that is alone asks of a draw device is its own. Lemmas that proofs of other crates cite; no code.
#![tactic(auto)]
