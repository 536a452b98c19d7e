//! Ids that a session frees and connections of it that end, and what goes with them, on two draw devices that are the same to its
//! connections. Lemmas that proofs of other crates cite; no code.
#![tactic(auto)]
