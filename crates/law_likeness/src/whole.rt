//! What a draw device keeps whatever is done to it: its images stand where its book has them, what is there is what is used, and its
//! ids ascend. Lemmas that proofs of other crates cite; no code.
#![tactic(auto)]
