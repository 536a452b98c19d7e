//! A session's window comes, or gets another image, on two draw devices that are the same to the session. Lemmas that proofs of other
//! crates cite; no code.
#![tactic(auto)]
