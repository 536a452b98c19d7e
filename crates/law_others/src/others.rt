//! The messages of other sessions, which leave a draw device that is the same to one session as another so. Definitions, and the lemmas
//! about them that proofs of other crates cite; no code.
#![tactic(auto)]
