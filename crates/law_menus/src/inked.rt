//! What a client that points has of a draw device between two events of the mouse, to draw the bands of menus with, and what is written
//! for an event does to the device. Definitions, and lemmas that proofs of other crates cite; no code.
#![tactic(auto)]
