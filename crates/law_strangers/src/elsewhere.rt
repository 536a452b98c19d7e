//! Other sessions have nothing of the window of a session that is alone, whatever they say without a reason; no code.
#![tactic(auto)]
