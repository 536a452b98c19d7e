//! A sum that only proofs read, such as what was asked for costs. It takes no bytes and does nothing when the program runs.
#![tactic(auto)]

ghost use Rattle.std.specs.Prelude.{◌≡◌, ◌+◌, ℕ};
ghost use Rattle.std.specs.Borrow.{ftrue};

use std::marker::Model;

/// What costs something.
pub trait Asked {
    /// What it costs.
    ghost cost: { Self → ℕ };
}

/// What all that was asked for costs. Only contracts read the sum: no code can tell it.
#[derive(Drop)]
pub struct Tally {
    pub ghost sum: { ℕ },
}

impl Model for Tally {
    ghost also_owns = { λ _. ftrue };
}

// It owns nothing.
unsafe impl Send for Tally {}

// It has nothing to read.
unsafe impl Sync for Tally {}

impl Tally {
    /// Nothing was asked for yet.
    pub fn none() -> Tally
        ensures { result.sum ≡ 0 }
    {
        Tally {}
    }

    /// The same, and one more that was asked for.
    pub fn and<X: Asked>(&self, _asked: &X) -> Tally
        ensures { result.sum ≡ self.now.sum + X.cost _asked.now }
    {
        Tally {}
    }
}
