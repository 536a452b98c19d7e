//! The names of windows are free when orders give them, and apart: a definition, and the lemmas that acts and sessions keep it; no code.
#![tactic(auto)]
