//! The ties.

ghost use Rattle.std.specs.Prelude.{◌≡◌, ◌==◌, ◌<◌, ◌≤◌, ◌+◌, ◌++◌, ◌∷◌, [], None, Some, not, find, filter, length, OnOk, OnErr, IsOk, IsSomeAnd, MatchOption, true};
ghost use Rattle.std.specs.Option.{option_map};
ghost use Rattle.std.specs.List.{list_any};
ghost use Rattle.std.specs.Str.{bytes_eq};
ghost use Rattle.model_draw_parts.specs.images.Release.{is_tied_by};
ghost use Rattle.r9_ids.specs.ties.Kept.{AreOnce};

use crate::sorted::Key;
use crate::ties::index::Index;
use model_draw_parts::images::Tie;
use r9_memory::Memory;
use std::alloc::Global;
use std::marker::Model;

/// How long a name may be that is tied without more memory, once there is room.
const MOST_NAME: usize = 255;

/// Names tied to images, in the order in which they were tied. Each tie has a number of its own, which rises.
#[derive(Drop)]
pub struct Ties {
    index: Index,
    next: u64,
}

impl Model for Ties {
    ghost use Rattle.std.specs.Prelude.{nat_eq, vec_capacity};
    ghost use Rattle.std.specs.HashMap.{get, spare};
    ghost use Rattle.r9_ids.specs.ties.Kept.{Tied, Holds, gathered, named, room_of};

    ghost Value = { Tied };

    ghost view = { λ s. record {
      ties = gathered (get nat_eq s.index.store) s.index.order.rows;
      next = s.next;
      room = room_of s.index.order.room s.index.owners.room (spare s.index.store) (spare s.index.names) (vec_capacity s.index.text) (vec_capacity s.index.key_text) s.next;
    } };

    ghost invariant = { λ s. Holds (gathered (get nat_eq s.index.store) s.index.order.rows) s.index.order.rows s.index.owners.rows (get nat_eq s.index.store) (named s.index.names) s.next };
}

impl Ties {
    /// No ties.
    pub fn new(alloc: Global) -> Self
        ensures ties { result.ties ≡ [] }
        ensures next { result.next ≡ 0 }
    {
        Ties {
            index: Index::new(alloc),
            next: 0,
        }
    }

    /// The number of the next tie.
    pub fn next(&self) -> u64
        ensures { result ≡ self.now.next }
    {
        self.next
    }

    /// Makes room, so that the next name of at most 255 bytes is tied without memory.
    pub fn reserve(&mut self) -> Result<(), Memory>
        ensures room { OnOk result (0 < self.new.room) }
        ensures full { OnErr result (self.old.room ≡ 0) }
        ensures ties { self.new.ties ≡ self.old.ties }
        ensures next { self.new.next ≡ self.old.next }
        ensures more { self.old.room ≤ self.new.room }
    {
        if self.next == u64::MAX {
            return Err(Memory);
        }
        self.index.reserve(MOST_NAME)
    }

    /// The tie of a name.
    pub fn find(&self, name: &[u8]) -> Option<&Tie>
        ensures found { option_map (λ t. t.now) result ≡ find (λ t. bytes_eq t.name name.now) self.now.ties }
        ensures once { AreOnce self.now.ties }
    {
        match self.index.names.get(name) {
            Some(number) => self.index.store.get(number),
            None => None,
        }
    }

    /// Whether a tie has the number.
    pub fn has(&self, number: u64) -> bool
        ensures { result ≡ list_any (λ t. t.number == number) self.now.ties }
    {
        self.index.store.contains_key(&number)
    }

    /// Ties a name, which has no tie, to an image, by an id of a connection. After Memory all is as before.
    pub fn push(&mut self, client: u64, id: u32, image: u32, name: &[u8]) -> Result<(), Memory>
        requires { find (λ t. bytes_eq t.name name.now) self.old.ties ≡ None }
        ensures made { OnOk result (self.new.ties ≡ self.old.ties ++ record { name = name.now; number = self.old.next; image = image; client = client; id = id } ∷ []) }
        ensures next { OnOk result (self.new.next ≡ self.old.next + 1) }
        ensures kept { OnErr result (self.new.ties ≡ self.old.ties) }
        ensures same { OnErr result (self.new.next ≡ self.old.next) }
        ensures room { 0 < self.old.room → length name.now ≤ 255 → IsOk result }
    {
        if self.next == u64::MAX {
            return Err(Memory);
        }
        self.index.reserve(name.len())?;
        self.index.add(self.next, image, client, id, name);
        self.next += 1;
        Ok(())
    }

    /// Ends the tie of a number, where one has it. Takes no memory.
    pub fn end(&mut self, number: u64)
        ensures ties { self.new.ties ≡ filter (λ t. not (t.number == number)) self.old.ties }
        ensures next { self.new.next ≡ self.old.next }
        ensures room { self.old.room ≤ self.new.room }
    {
        self.index.remove(number);
    }

    // The number of the first tie that an id of a connection made.
    fn first_of_id(&self, client: u64, id: u32) -> Option<u64>
        ensures first { MatchOption result (filter (is_tied_by client id) self.now.ties ≡ []) (λ number. IsSomeAnd (find (λ t. t.number == number) self.now.ties) (λ t. is_tied_by client id t ≡ true)) }
        ensures once { AreOnce self.now.ties }
    {
        let key = Key {
            first: client,
            second: id as u64,
            third: 0,
        };
        let row = self.index.owners.first_from(key)?;
        if row.client == client && row.id == id {
            Some(row.number)
        } else {
            None
        }
    }

    // The number of the first tie that a connection made.
    fn first_of_client(&self, client: u64) -> Option<u64>
        ensures first { MatchOption result (filter (λ t. t.client == client) self.now.ties ≡ []) (λ number. IsSomeAnd (find (λ t. t.number == number) self.now.ties) (λ t. (t.client == client) ≡ true)) }
        ensures once { AreOnce self.now.ties }
    {
        let key = Key {
            first: client,
            second: 0,
            third: 0,
        };
        let row = self.index.owners.first_from(key)?;
        if row.client == client {
            Some(row.number)
        } else {
            None
        }
    }

    /// Ends the ties that an id of a connection made. Takes no memory.
    pub fn end_of_id(&mut self, client: u64, id: u32)
        ensures ties { self.new.ties ≡ filter (λ t. not (is_tied_by client id t)) self.old.ties }
        ensures next { self.new.next ≡ self.old.next }
        ensures room { self.old.room ≤ self.new.room }
    {
        'ending: while let Some(number) = self.first_of_id(client, id) {
            self.end(number);
        }
    }

    /// Ends the ties that a connection made. Takes no memory.
    pub fn end_of_client(&mut self, client: u64)
        ensures ties { self.new.ties ≡ filter (λ t. not (t.client == client)) self.old.ties }
        ensures next { self.new.next ≡ self.old.next }
        ensures room { self.old.room ≤ self.new.room }
    {
        'ending: while let Some(number) = self.first_of_client(client) {
            self.end(number);
        }
    }
}
