//! A write of draw messages is refused for want of memory only where a mark says so. Lemmas that proofs of other crates cite; no code.
#![tactic(auto)]
