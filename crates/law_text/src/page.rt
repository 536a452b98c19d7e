//! What a client says to show a text in a window that scrolls, and what the window then shows. Definitions, and the lemmas about them
//! that proofs of other crates cite; no code.
#![tactic(auto)]
