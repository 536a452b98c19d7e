//! What a client says to begin, to open files and to draw. Definitions; no code.
#![tactic(auto)]
