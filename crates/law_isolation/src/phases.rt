//! What each event keeps of a session that is alone: before it begins, while it lives, and after it ended. Lemmas that proofs of other
//! crates cite; no code.
#![tactic(auto)]
