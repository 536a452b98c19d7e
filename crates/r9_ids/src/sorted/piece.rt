//! A piece of the rows: some that follow one another.

ghost use Rattle.std.specs.Prelude.{◌≡◌, ◌==◌, ◌<◌, [], None, find, length, take, drop, IfOk, IsSome};
ghost use Rattle.r9_ids.specs.sorted.Rows.{Ascend, has_key, is_before, first_from, put_in_order, without_key, set_row};
ghost use Rattle.r9_ids.specs.sorted.Pieces.{ends_before, place_in};

use crate::sorted::key::{Key, Keyed};
use r9_memory::Memory;
use std::alloc::Global;
use std::marker::Model;

// How many rows a piece has place for. One that has so many splits.
pub(crate) const MOST: usize = 64;
// How many rows stay where it splits.
pub(crate) const HALF: usize = MOST / 2;

#[derive(Drop)]
pub(crate) struct Piece<T: Keyed> {
    rows: Vec<T>,
}

impl<T: Keyed> Model for Piece<T> {
    ghost use Rattle.std.specs.Prelude.{List, vec_capacity, length, ◌≤◌};
    ghost use Rattle.r9_ids.specs.sorted.Rows.{Ascend};
    ghost use Rattle.r9_ids.specs.declared.sorted.piece.TheConstants.{MOST};

    ghost Value = { List T };

    ghost view = { λ p. p.rows.items };

    ghost invariant = { λ p. Ascend T.key_of p.rows.items × (MOST ≤ vec_capacity p.rows) };
}

impl<T: Keyed> Piece<T> {
    pub(crate) fn new(alloc: Global) -> Result<Self, Memory>
        ensures { IfOk result (λ piece. piece ≡ []) }
    {
        Ok(Piece {
            rows: Vec::with_capacity(alloc, MOST)?,
        })
    }

    pub(crate) fn len(&self) -> usize
        ensures { result ≡ length self.now }
    {
        self.rows.len()
    }

    pub(crate) fn is_full(&self) -> bool
        ensures { result ≡ (length self.now == MOST) }
    {
        self.rows.len() == MOST
    }

    // Whether the keys of all its rows are smaller.
    pub(crate) fn ends_before(&self, key: Key) -> bool
        ensures { result ≡ ends_before T.key_of key self.now }
    {
        match self.rows.last() {
            Some(row) => row.key().comes_before(key),
            None => true,
        }
    }

    // How many rows have smaller keys.
    fn place(&self, key: Key) -> usize
        ensures { result ≡ place_in T.key_of key self.now }
    {
        self.rows.partition_point(|row| row.key().comes_before(key))
    }

    pub(crate) fn first_from(&self, key: Key) -> Option<T>
        ensures { result ≡ first_from T.key_of key self.now }
    {
        let at = self.place(key);
        if at == self.rows.len() {
            return None;
        }
        Some(self.rows[at])
    }

    pub(crate) fn put(&mut self, row: T)
        requires absent { find (has_key T.key_of (T.key_of row)) self.old ≡ None }
        requires room { length self.old < MOST }
        ensures { self.new ≡ put_in_order T.key_of row self.old }
    {
        let at = self.place(row.key());
        match self.rows.insert(at, row) {
            Ok(()) => {}
            Err(_) => unreachable!(),
        }
    }

    // Takes out the row with the key, where there is one, and gives it.
    pub(crate) fn remove(&mut self, key: Key) -> Option<T>
        ensures found { result ≡ find (has_key T.key_of key) self.old }
        ensures rows { self.new ≡ without_key T.key_of key self.old }
    {
        let at = self.place(key);
        if at == self.rows.len() {
            return None;
        }
        let row = self.rows[at];
        if row.key().is(key) {
            self.rows.remove(at);
            Some(row)
        } else {
            None
        }
    }

    // Puts the row in the place of that with its key, which is there.
    pub(crate) fn set(&mut self, row: T)
        requires { IsSome (find (has_key T.key_of (T.key_of row)) self.old) }
        ensures { self.new ≡ set_row T.key_of row self.old }
    {
        let at = self.place(row.key());
        self.rows[at] = row;
    }

    // Moves its upper half into an empty piece.
    pub(crate) fn split(&mut self, upper: &mut Piece<T>)
        requires whole { length self.old ≡ MOST }
        requires empty { upper.old ≡ [] }
        ensures lower { self.new ≡ take HALF self.old }
        ensures upper { upper.new ≡ drop HALF self.old }
    {
        match upper.rows.extend_from_slice(&self.rows[HALF..]) {
            Ok(()) => {}
            Err(_) => unreachable!(),
        }
        self.rows.truncate(HALF);
    }
}
