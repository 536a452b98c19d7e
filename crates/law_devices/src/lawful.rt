//! The relation between two draw devices that are the same to a session meets all laws that isolation asks of one. Lemmas that proofs of
//! other crates cite; no code.
#![tactic(auto)]
