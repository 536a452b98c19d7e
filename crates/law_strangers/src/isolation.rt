//! Lemmas on the way to the theorem that a session alone with its window is isolated; no code.
#![tactic(auto)]
