//! A read that waits.

use std::marker::Model;

/// A read that waits: its fid, and how many bytes it asks for.
#[derive(Drop)]
pub struct Wait {
    pub(crate) fid: u32,
    pub(crate) count: u32,
}

impl Model for Wait {
    ghost use Rattle.std.specs.Prelude.{◌+◌, ◌<◌, ◌^◌};
    ghost use Rattle.model_world.specs.Session as model;

    ghost Value = { model.Wait };

    ghost view = { λ w. record { fid = w.fid; count = w.count } };

    ghost invariant = { λ w. 11 + w.count < 2 ^ 32 };
}
