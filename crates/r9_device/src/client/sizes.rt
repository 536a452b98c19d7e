//! What the images of a connection count for the limit on them.

ghost use Rattle.std.specs.Prelude.{◌≡◌, ◌<◌, ◌+◌, ◌^◌, ◌≤◌, [], OnOk};
ghost use Rattle.std.specs.List.{sum_by};
ghost use Rattle.model_text.specs.text.Map.{and, without};
ghost use Rattle.r9_ids.specs.sorted.Order.{key};
ghost use Rattle.r9_ids.specs.sorted.Rows.{Ascend, without_key};
ghost use Rattle.r9_device.specs.client.Rows.{entries_of, key_of, total_of};

use crate::client::size::{Size, key_of_id};
use r9_ids::sorted::Sorted;
use r9_memory::Memory;
use std::alloc::Global;
use std::marker::Model;

/// What each image id that a connection made counts, in ascending order of the ids, and the sum.
#[derive(Drop)]
pub struct Sizes {
    rows: Sorted<Size>,
    total: u64,
}

impl Model for Sizes {
    ghost use Rattle.std.specs.Prelude.{◌≡◌};
    ghost use Rattle.r9_device.specs.client.Counted.{Counted};
    ghost use Rattle.r9_device.specs.client.Rows.{entries_of, total_of};

    ghost Value = { Counted };

    ghost view = { λ s. record { entries = entries_of s.rows.rows; room = s.rows.room } };

    ghost invariant = { λ s. s.total ≡ total_of s.rows.rows };
}

// Takes the row of an id away, and gives what it counted, 0 where there was none.
fn take(rows: &mut Sorted<Size>, id: u32) -> u32
    ensures order { Ascend key_of rows.old.rows }
    ensures rows { rows.new.rows ≡ without_key key_of (key id 0 0) rows.old.rows }
    ensures sum { total_of rows.new.rows + result ≡ total_of rows.old.rows }
    ensures room { rows.old.room ≤ rows.new.room }
{
    match rows.remove(key_of_id(id)) {
        Some(row) => row.size,
        None => 0,
    }
}

impl Sizes {
    /// No ids.
    pub fn new(alloc: Global) -> Self
        ensures { result.entries ≡ [] }
    {
        Sizes {
            rows: Sorted::new(alloc),
            total: 0,
        }
    }

    /// What all count together.
    pub fn total(&self) -> u64
        ensures { result ≡ sum_by (λ e. e.1) self.now.entries }
    {
        self.total
    }

    /// Makes room for one more id.
    pub fn reserve(&mut self) -> Result<(), Memory>
        ensures room { OnOk result (0 < self.new.room) }
        ensures kept { self.new.entries ≡ self.old.entries }
    {
        self.rows.reserve()
    }

    /// An id counts so much from now on. There is room for it.
    pub fn set(&mut self, id: u32, size: u32)
        requires room { 0 < self.old.room }
        requires fits { sum_by (λ e. e.1) self.old.entries + size < 2 ^ 64 }
        ensures { self.new.entries ≡ and self.old.entries id size }
    {
        let before = take(&mut self.rows, id);
        self.rows.put(Size { id, size });
        self.total = self.total - u64::from(before) + u64::from(size);
    }

    /// An id counts no longer.
    pub fn forget(&mut self, id: u32)
        ensures { self.new.entries ≡ without self.old.entries id }
    {
        let before = take(&mut self.rows, id);
        self.total -= u64::from(before);
    }
}
