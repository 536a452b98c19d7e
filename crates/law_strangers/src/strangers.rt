//! What other sessions do changes nothing of what a session that is alone sees; no code.
#![tactic(auto)]
