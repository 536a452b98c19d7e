//! A draw device is whole when it starts, and stays whole and orderly whatever the window manager orders of it. Lemmas that proofs of
//! other crates cite; no code.
#![tactic(auto)]
