//! What pixels mean, as definitions in `specs/` over plain numbers and lists; there is no code.
//!
//! `Channels` has channel descriptors, colours and raw pixels (image(6), draw(2)); `Composition` the operators of Porter
//! and Duff on premultiplied colours; `Rows` how the pixels of a rectangle lie in rows of bytes.
#![tactic(auto)]
