//! Rows in ascending order.

ghost use Rattle.std.specs.Prelude.{◌≡◌, ◌==◌, ◌<◌, ◌≤◌, ◌+◌, [], None, find, length, OnOk, OnErr, IsSome};
ghost use Rattle.r9_ids.specs.sorted.Rows.{Rows, Ascend, has_key, first_from, put_in_order, without_key, set_row};

use crate::sorted::key::{Key, Keyed};
use crate::sorted::piece::Piece;
use crate::sorted::pieces::{first_among, put_among, put_first, remove_among, set_among, split};
use r9_memory::Memory;
use std::alloc::Global;
use std::marker::Model;

/// Rows in ascending order of their keys, each key once. They lie in pieces of fewer than 64 rows: a row is found by halving
/// over the pieces and then within one, and one that comes or goes moves the rows of one piece and, rarely, the list of the
/// pieces.
#[derive(Drop)]
pub struct Sorted<T: Keyed> {
    alloc: Global,
    pieces: Vec<Piece<T>>,
    // Takes the upper half of a piece that splits.
    spare: Option<Piece<T>>,
    count: usize,
}

impl<T: Keyed> Model for Sorted<T> {
    ghost use Rattle.std.specs.Prelude.{vec_len, vec_capacity};
    ghost use Rattle.r9_ids.specs.sorted.Rows.{Rows, Ascend};
    ghost use Rattle.r9_ids.specs.sorted.Pieces.{IsSound, joined, room_of};

    ghost Value = { Rows T };

    ghost view = { λ s. record {
      rows = joined s.pieces.items;
      room = room_of s.spare (vec_len s.pieces) (vec_capacity s.pieces) s.count;
    } };

    ghost invariant = { λ s. Ascend T.key_of (joined s.pieces.items) × IsSound s.pieces.items s.spare s.count };
}

impl<T: Keyed> Sorted<T> {
    /// No rows.
    pub fn new(alloc: Global) -> Self
        ensures { result.rows ≡ [] }
    {
        Sorted {
            alloc,
            pieces: Vec::new(alloc),
            spare: None,
            count: 0,
        }
    }

    /// How many rows there are.
    pub fn len(&self) -> usize
        ensures { result ≡ length self.now.rows }
    {
        self.count
    }

    /// Whether there is no row.
    pub fn is_empty(&self) -> bool
        ensures { result ≡ (length self.now.rows == 0) }
    {
        self.count == 0
    }

    /// The row with a key.
    pub fn get(&self, key: Key) -> Option<T>
        ensures found { result ≡ find (has_key T.key_of key) self.now.rows }
        ensures order { Ascend T.key_of self.now.rows }
    {
        let row = self.first_from(key)?;
        if row.key().is(key) { Some(row) } else { None }
    }

    /// The first row whose key is not smaller than this one.
    pub fn first_from(&self, key: Key) -> Option<T>
        ensures found { result ≡ first_from T.key_of key self.now.rows }
        ensures order { Ascend T.key_of self.now.rows }
    {
        first_among(&self.pieces, key)
    }

    /// Makes room for one more row. The rows stay as they are, also after Memory.
    pub fn reserve(&mut self) -> Result<(), Memory>
        ensures room { OnOk result (0 < self.new.room) }
        ensures full { OnErr result (self.old.room ≡ 0) }
        ensures rows { self.new.rows ≡ self.old.rows }
        ensures kept { self.old.room ≤ self.new.room }
    {
        if self.count == usize::MAX {
            return Err(Memory);
        }
        self.pieces.reserve(1)?;
        if self.spare.is_none() {
            self.spare = Some(Piece::new(self.alloc)?);
        }
        Ok(())
    }

    /// Adds a row, for which there is room, and whose key no row has. Takes no memory.
    pub fn put(&mut self, row: T)
        requires absent { find (has_key T.key_of (T.key_of row)) self.old.rows ≡ None }
        requires room { 0 < self.old.room }
        ensures rows { self.new.rows ≡ put_in_order T.key_of row self.old.rows }
        ensures room { self.old.room ≤ self.new.room + 1 }
    {
        self.count += 1;
        if self.pieces.is_empty() {
            put_first(&mut self.pieces, &mut self.spare, row);
            return;
        }
        let at = put_among(&mut self.pieces, row);
        if self.pieces[at].is_full() {
            split(&mut self.pieces, at, &mut self.spare);
        }
    }

    /// Takes out the row with a key, and gives it. Takes no memory.
    pub fn remove(&mut self, key: Key) -> Option<T>
        ensures found { result ≡ find (has_key T.key_of key) self.old.rows }
        ensures order { Ascend T.key_of self.old.rows }
        ensures rows { self.new.rows ≡ without_key T.key_of key self.old.rows }
        ensures room { self.old.room ≤ self.new.room }
    {
        let found = remove_among(&mut self.pieces, key)?;
        self.count -= 1;
        Some(found)
    }

    /// Puts a row in the place of the one that has its key. Takes no memory.
    pub fn set(&mut self, row: T)
        requires { IsSome (find (has_key T.key_of (T.key_of row)) self.old.rows) }
        ensures rows { self.new.rows ≡ set_row T.key_of row self.old.rows }
        ensures room { self.new.room ≡ self.old.room }
    {
        set_among(&mut self.pieces, row);
    }
}
