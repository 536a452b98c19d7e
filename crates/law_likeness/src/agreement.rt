//! When two outsides answer a session alike. Definitions, and the lemmas about them that proofs of other crates cite; no code.
#![tactic(auto)]
