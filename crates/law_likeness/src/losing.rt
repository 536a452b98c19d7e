//! Two draw devices that are the same to the connections of one session, once an image, a screen or an id has gone from both.
//! Lemmas that proofs of other crates cite; no code.
#![tactic(auto)]
