//! What a history does that makes, moves and deletes windows as the mouse says. Definitions; no code.
#![tactic(auto)]
