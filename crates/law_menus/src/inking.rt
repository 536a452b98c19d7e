//! A client that points opens its files and makes the colours of the bands, and has then what it draws the bands of menus with.
//! Definitions, and lemmas that proofs of other crates cite; no code.
#![tactic(auto)]
