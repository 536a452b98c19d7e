//! A count of steps, such as the pixels that were written.
#![tactic(auto)]

ghost use Rattle.std.specs.Prelude.{◌≡◌, ◌+◌, ◌-◌, ◌<◌, ◌^◌, ℕ, min};

use std::marker::Model;
use std::sync::ledger::{Blank, Book, Ledger, Share};

/// How many steps were taken, over a ledger: no second count can be made for it.
#[derive(Drop)]
pub struct Steps<L: Ledger> {
    book: Book<L>,
    share: Share<L>,
    count: u64,
}

impl<L: Ledger> Model for Steps<L> {
    ghost Value = { ℕ };

    ghost view = { λ steps. steps.book.total };

    ghost invariant = { λ steps. (0 < steps.share.parts) × (steps.count ≡ min steps.book.total (2 ^ 64 - 1)) };
}

impl<L: Ledger> Steps<L> {
    /// No step was taken yet.
    pub fn new(blank: Blank) -> Self
        requires name { blank.name ≡ L.name }
        requires parts { blank.parts ≡ L.parts }
        requires some { 0 < L.parts }
        ensures { result ≡ 0 }
    {
        let (book, share) = blank.open();
        Steps {
            book,
            share,
            count: 0,
        }
    }

    /// Takes so many steps.
    pub fn add(&mut self, more: u64)
        ensures { self.new ≡ self.old + more }
    {
        self.book.add(&mut self.share, more);
        self.count = self.count.saturating_add(more);
    }

    /// How many steps were taken, or 2^64 - 1 where there were more.
    pub fn count(&self) -> u64
        ensures { result ≡ min self.now (2 ^ 64 - 1) }
    {
        let _ = &self.book;
        self.count
    }
}
