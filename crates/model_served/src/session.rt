//! What a server may do when it is asked, and what one session sees of its history. Definitions that contracts cite; no code.
#![tactic(auto)]
