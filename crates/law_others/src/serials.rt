//! Which windows an act tells, and that it gives serials in order. Lemmas that proofs of other crates cite; no code.
#![tactic(auto)]
