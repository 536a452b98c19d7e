//! Draw devices that are the same to a session, with all that they keep for that. Lemmas that proofs of other crates cite; no code.
#![tactic(auto)]
