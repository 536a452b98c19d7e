//! What holds of the ties of a draw device holds after orders and after what sessions do, where it holds of new names; no code.
#![tactic(auto)]
