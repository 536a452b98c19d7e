//! What an image id counts, as a row among others.

ghost use Rattle.std.specs.Prelude.{◌≡◌};
ghost use Rattle.r9_ids.specs.sorted.Order.{key};

use r9_ids::sorted::{Key, Keyed};

/// What an image id counts.
#[derive(Clone, Copy)]
pub(crate) struct Size {
    pub id: u32,
    pub size: u32,
}

/// What the row of an image id is known by.
pub(crate) fn key_of_id(id: u32) -> Key
    ensures { result ≡ key id 0 0 }
{
    Key {
        first: u64::from(id),
        second: 0,
        third: 0,
    }
}

impl Keyed for Size {
    ghost use Rattle.r9_ids.specs.sorted.Order.{key};

    ghost key_of = { λ row. key row.id 0 0 };

    fn key(&self) -> Key {
        key_of_id(self.id)
    }
}
