//! What a client that points says to show a menu's bands in a window. Definitions; no code.
#![tactic(auto)]
