//! What a history does that shows a text in a window. Definitions; no code.
#![tactic(auto)]
