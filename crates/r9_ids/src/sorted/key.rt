//! What rows are ordered by.

ghost use Rattle.std.specs.Prelude.{◌≡◌};
ghost use Rattle.r9_ids.specs.sorted.Order.{comes_before, is_key};

/// What a row is known by: three numbers, of which the first counts most. A row that has fewer numbers has 0 in the others.
#[derive(Clone, Copy, PartialEq, Eq, Debug)]
pub struct Key {
    pub first: u64,
    pub second: u64,
    pub third: u64,
}

impl Key {
    /// Whether it is smaller than the other.
    #[tactic(auto, unfolding(crate::specs::sorted::Order::comes_before))]
    pub fn comes_before(self, other: Key) -> bool
        ensures { result ≡ comes_before self other }
    {
        // No part of it is a branch: the rows are halved by it, and each answer is as likely as the other.
        let is_rest_before = (self.second < other.second)
            | ((self.second == other.second) & (self.third < other.third));
        (self.first < other.first) | ((self.first == other.first) & is_rest_before)
    }

    /// Whether it is the other.
    #[tactic(auto, unfolding(crate::specs::sorted::Order::is_key))]
    pub fn is(self, other: Key) -> bool
        ensures { result ≡ is_key self other }
    {
        self.first == other.first && self.second == other.second && self.third == other.third
    }
}

/// A row that tells its key.
pub trait Keyed: Copy {
    ghost use Rattle.r9_ids.specs.declared.sorted.key.Key.{Key};

    ghost key_of: { Self → Key };

    /// Its key.
    fn key(&self) -> Key
        ensures { result ≡ key_of self.now };
}
