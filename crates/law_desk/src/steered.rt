//! What a desk writes for events of the mouse on the display is answered without an error, and rio's windows are those of the desk's table
//! after each. Definitions, and lemmas that proofs of other crates cite; no code.
#![tactic(auto)]
