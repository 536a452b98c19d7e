//! What the server and a world of its own have in common for a session that is alone, and lemmas that each event keeps it; no code.
#![tactic(auto)]
