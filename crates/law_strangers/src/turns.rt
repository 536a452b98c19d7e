//! What sessions that begin and end, takes and the stop leave of a session that is alone with its window; no code.
#![tactic(auto)]
