//! What a server answers to a client that is its only session, message by message, and to the draw messages that it sends.
//! Definitions, and the lemmas about them that proofs of other crates cite; no code.
#![tactic(auto)]
