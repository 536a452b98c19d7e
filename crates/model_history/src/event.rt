//! Histories of events: which event may come next, and what waits for a session. Definitions that contracts cite; no code.
#![tactic(auto)]
