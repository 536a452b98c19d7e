//! A message of another session that gives no reason leaves both worlds the same to a session that is alone; no code.
#![tactic(auto)]
