//! What a connection of the draw device has beside its ids: the operator of its next drawing, what its `ctl` describes, the
//! bytes that it has not read, what its images count, and its fonts (draw(3)).
#![tactic(auto)]

mod client;
mod fonts;
mod size;
mod sizes;

pub use client::{
    Client, Clients, describe, described_by, font_of, forget, lives, op_of, pending_len, put_font,
    remove, replace_pending, set_cell, set_op,
};
pub use sizes::Sizes;
