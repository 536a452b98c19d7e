//! Each event of a history is answered alike by a world of a session's own, where it gives no reason; no code.
#![tactic(auto)]
