//! The rows by which ties are found and kept in order.

ghost use Rattle.std.specs.Prelude.{◌≡◌};

use crate::sorted::{Key, Keyed};

/// A tie, in the order of the numbers.
#[derive(Clone, Copy)]
pub(crate) struct Numbered {
    pub(crate) number: u64,
}

impl Keyed for Numbered {
    ghost use Rattle.r9_ids.specs.ties.Rows.{number_key};

    ghost key_of = { number_key };

    fn key(&self) -> Key {
        Key {
            first: self.number,
            second: 0,
            third: 0,
        }
    }
}

/// A tie, in the order of the connections and ids that made it.
#[derive(Clone, Copy)]
pub(crate) struct Owned {
    pub(crate) client: u64,
    pub(crate) id: u32,
    pub(crate) number: u64,
}

impl Keyed for Owned {
    ghost use Rattle.r9_ids.specs.ties.Rows.{owned_key};

    ghost key_of = { owned_key };

    fn key(&self) -> Key {
        Key {
            first: self.client,
            second: self.id as u64,
            third: self.number,
        }
    }
}
