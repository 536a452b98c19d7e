//! What a client that points has of a draw device to draw the bands of menus with, and that the window manager's orders leave it.
//! Definitions, and lemmas that proofs of other crates cite; no code.
#![tactic(auto)]
