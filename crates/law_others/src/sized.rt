//! Which size of the display the orders of an act are for. A definition, and the lemma that it is the one which the root rio has after
//! the act; no code.
#![tactic(auto)]
