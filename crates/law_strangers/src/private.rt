//! Where an event gives no reason, its session asks only what it may ask where it is alone, and has only what is its own; no code.
#![tactic(auto)]
