//! What the texts that a desk writes for an event of the mouse do to the draw device: orders on windows, each with a name of its window.
//! Lemmas that proofs of other crates cite; no code.
#![tactic(auto)]
