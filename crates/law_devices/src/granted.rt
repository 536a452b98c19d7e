//! A session's window gets its image, another one, and loses it, on two draw devices that are the same to the session. Lemmas that proofs
//! of other crates cite; no code.
#![tactic(auto)]
