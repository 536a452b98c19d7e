//! What each step of the window manager orders and tells, seen from one window. Definitions, and the lemmas about them that proofs of
//! other crates cite; no code.
#![tactic(auto)]
