//! What each call of an outside keeps, each message of a session keeps. Lemmas that proofs of other crates cite; no code.
#![tactic(auto)]
