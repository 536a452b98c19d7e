//! A write of a session that is alone is answered alike. Lemmas that proofs of other crates cite; no code.
#![tactic(auto)]
