//! A menu's window shows its bands after the write of them, which leaves what the next menu's are drawn with. Definitions, and lemmas that
//! proofs of other crates cite; no code.
#![tactic(auto)]
