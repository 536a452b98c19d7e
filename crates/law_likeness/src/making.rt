//! The messages that change ids, on two draw devices that are the same to the connections of one session. Definitions, and the lemmas
//! about them that proofs of other crates cite; no code.
#![tactic(auto)]
