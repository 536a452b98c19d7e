//! Ids as rows.

ghost use Rattle.std.specs.Prelude.{◌≡◌};
ghost use Rattle.r9_ids.specs.sorted.Order.{key};

use crate::sorted::{Key, Keyed};
use model_draw_parts::images::{ImageId, ScreenId};

/// An image id, in the order of the connections and then of the ids.
#[derive(Clone, Copy)]
pub(crate) struct ImageRow {
    pub(crate) e: ImageId,
}

/// A screen id, in the order of the connections and then of the ids.
#[derive(Clone, Copy)]
pub(crate) struct ScreenRow {
    pub(crate) e: ScreenId,
}

/// A public screen id, in the order of the ids and then of the connections.
#[derive(Clone, Copy)]
pub(crate) struct PublicRow {
    pub(crate) e: ScreenId,
}

/// What the row of an id is known by.
pub(crate) fn key_of_id(client: u64, id: u32) -> Key
    ensures { result ≡ key client id 0 }
{
    Key {
        first: client,
        second: u64::from(id),
        third: 0,
    }
}

/// What the row of a public id is known by.
pub(crate) fn key_of_public(id: u32, client: u64) -> Key
    ensures { result ≡ key id client 0 }
{
    Key {
        first: u64::from(id),
        second: client,
        third: 0,
    }
}

impl Keyed for ImageRow {
    ghost use Rattle.r9_ids.specs.sorted.Order.{key};

    ghost key_of = { λ row. key row.e.client row.e.id 0 };

    fn key(&self) -> Key {
        key_of_id(self.e.client, self.e.id)
    }
}

impl Keyed for ScreenRow {
    ghost use Rattle.r9_ids.specs.sorted.Order.{key};

    ghost key_of = { λ row. key row.e.client row.e.id 0 };

    fn key(&self) -> Key {
        key_of_id(self.e.client, self.e.id)
    }
}

impl Keyed for PublicRow {
    ghost use Rattle.r9_ids.specs.sorted.Order.{key};

    ghost key_of = { λ row. key row.e.id row.e.client 0 };

    fn key(&self) -> Key {
        key_of_public(self.e.id, self.e.client)
    }
}
