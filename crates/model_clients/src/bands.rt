//! What a client that points says to make the colours of a menu's bands. Definitions; no code.
#![tactic(auto)]
