//! What holds of a desk's table after each event of the mouse on the display: its windows may stand as they do, there is room for those that
//! come, and what a mode names is there. Definitions, and lemmas that proofs of other crates cite; no code.
#![tactic(auto)]
