//! The ways to a tie: by number, in the order of the numbers, by name, and by who made it.

ghost use Rattle.std.specs.Prelude.{◌≡◌, ◌<◌, ◌≤◌, ℕ, List, [], None, Some, Option, cond, nat_eq, find, length, OnOk, OnErr, IfOk, IsOk, IfSome, MatchOption, vec_capacity, ◌==◌, IsSome, is_some};
ghost use Rattle.std.specs.Option.{option_map};
ghost use Rattle.std.specs.Str.{bytes_eq};
ghost use Rattle.std.specs.HashMap.{get, spare, IsEmpty};
ghost use Rattle.r9_ids.specs.sorted.Order.{key};
ghost use Rattle.r9_ids.specs.sorted.Rows.{has_key, put_in_order, without_key};
ghost use Rattle.r9_ids.specs.ties.Kept.{named};
ghost use Rattle.r9_ids.specs.ties.Rows.{number_key, owned_key, numbered, owned};

use crate::sorted::{Key, Sorted};
use crate::ties::rows::{Numbered, Owned};
use model_draw_parts::images::Tie;
use r9_memory::Memory;
use r9_text::Bytes;
use std::alloc::Global;
use std::collections::HashMap;

#[derive(Drop)]
pub(crate) struct Index {
    pub(crate) alloc: Global,
    pub(crate) order: Sorted<Numbered>,
    pub(crate) owners: Sorted<Owned>,
    pub(crate) store: HashMap<u64, Tie>,
    pub(crate) names: HashMap<Vec<u8>, u64>,
    // What the two texts of the next name are put into.
    pub(crate) text: Vec<u8>,
    pub(crate) key_text: Vec<u8>,
}

// Room for so many bytes, in place of what is there.
fn reserve_text(text: &mut Vec<u8>, len: usize) -> Result<(), Memory>
    ensures ok { OnOk result (len ≤ vec_capacity text.new) }
    ensures full { OnErr result (vec_capacity text.old < len) }
    ensures empty { text.new.items ≡ [] }
    ensures more { vec_capacity text.old ≤ vec_capacity text.new }
{
    text.clear();
    text.reserve(len)?;
    Ok(())
}

// The text, in what was kept for it, which is another then.
fn take_text(alloc: Global, kept: &mut Vec<u8>, text: &[u8]) -> Vec<u8>
    requires { length text.now ≤ vec_capacity kept.old }
    ensures { result.items ≡ text.now }
{
    let mut taken = std::mem::replace(kept, Vec::new(alloc));
    taken.clear();
    match taken.extend_from_slice(text) {
        Ok(()) => taken,
        Err(_) => unreachable!(),
    }
}

// Keeps the text's memory for the next name, where it is more than what is kept.
fn keep_text(kept: &mut Vec<u8>, text: Vec<u8>)
    ensures { vec_capacity kept.old ≤ vec_capacity kept.new }
{
    if kept.capacity() < text.capacity() {
        *kept = text;
    }
}

// Takes out a name, and keeps its memory for the next one.
fn remove_name(names: &mut HashMap<Vec<u8>, u64>, kept: &mut Vec<u8>, name: &[u8])
    ensures names { (q : List ℕ) → named names.new q ≡ cond (bytes_eq name.now q) None (named names.old q) }
    ensures room { spare names.old ≤ spare names.new }
    ensures more { vec_capacity kept.old ≤ vec_capacity kept.new }
{
    if let Some((key_text, _)) = names.remove_entry(name) {
        keep_text(kept, key_text);
    }
}

impl Index {
    ghost use Rattle.r9_ids.specs.ties.Room.{HasGrown};

    pub(crate) fn new(alloc: Global) -> Self
        ensures order { result.order.rows ≡ [] }
        ensures owners { result.owners.rows ≡ [] }
        ensures store { (n : ℕ) → get nat_eq result.store n ≡ None }
        ensures names { (q : List ℕ) → named result.names q ≡ None }
    {
        Index {
            alloc,
            order: Sorted::new(alloc),
            owners: Sorted::new(alloc),
            store: HashMap::new(alloc),
            names: HashMap::new(alloc),
            text: Vec::new(alloc),
            key_text: Vec::new(alloc),
        }
    }

    // Makes room for one more tie, with a name of so many bytes.
    pub(crate) fn reserve(&mut self, len: usize) -> Result<(), Memory>
        ensures order { self.new.order.rows ≡ self.old.order.rows }
        ensures owners { self.new.owners.rows ≡ self.old.owners.rows }
        ensures store { (n : ℕ) → get nat_eq self.new.store n ≡ get nat_eq self.old.store n }
        ensures names { (q : List ℕ) → named self.new.names q ≡ named self.old.names q }
        ensures order_room { OnOk result (0 < self.new.order.room) }
        ensures owners_room { OnOk result (0 < self.new.owners.room) }
        ensures store_room { OnOk result (0 < spare self.new.store) }
        ensures names_room { OnOk result (0 < spare self.new.names) }
        ensures text_room { OnOk result (len ≤ vec_capacity self.new.text) }
        ensures key_room { OnOk result (len ≤ vec_capacity self.new.key_text) }
        ensures more { HasGrown self.old self.new }
        ensures room { 0 < self.old.order.room → 0 < self.old.owners.room → 0 < spare self.old.store → 0 < spare self.old.names → len ≤ vec_capacity self.old.text → len ≤ vec_capacity self.old.key_text → IsOk result }
    {
        self.order.reserve()?;
        self.owners.reserve()?;
        self.store.reserve(1)?;
        self.names.reserve(1)?;
        reserve_text(&mut self.text, len)?;
        reserve_text(&mut self.key_text, len)
    }

    // Adds a tie, of a number and a name that no tie has. There is room for it.
    pub(crate) fn add(&mut self, number: u64, image: u32, client: u64, id: u32, name: &[u8])
        requires order_room { 0 < self.old.order.room }
        requires owners_room { 0 < self.old.owners.room }
        requires store_room { 0 < spare self.old.store }
        requires names_room { 0 < spare self.old.names }
        requires text_room { length name.now ≤ vec_capacity self.old.text }
        requires key_room { length name.now ≤ vec_capacity self.old.key_text }
        requires order_absent { find (has_key number_key (key number 0 0)) self.old.order.rows ≡ None }
        requires owners_absent { find (has_key owned_key (key client id number)) self.old.owners.rows ≡ None }
        ensures order { self.new.order.rows ≡ put_in_order number_key (record { number = number }) self.old.order.rows }
        ensures owners { self.new.owners.rows ≡ put_in_order owned_key (record { client = client; id = id; number = number }) self.old.owners.rows }
        ensures store { (n : ℕ) → get nat_eq self.new.store n ≡ cond (number == n) (Some (record { name = name.now; number = number; image = image; client = client; id = id })) (get nat_eq self.old.store n) }
        ensures names { (q : List ℕ) → named self.new.names q ≡ cond (bytes_eq name.now q) (Some number) (named self.old.names q) }
    {
        let text = take_text(self.alloc, &mut self.text, name);
        let key_text = take_text(self.alloc, &mut self.key_text, name);
        let tie = Tie {
            name: Bytes::from(text),
            number,
            image,
            client,
            id,
        };
        match self.store.insert(number, tie) {
            Ok(_) => {}
            Err(_) => unreachable!(),
        }
        match self.names.insert(key_text, number) {
            Ok(_) => {}
            Err(_) => unreachable!(),
        }
        self.order.put(Numbered { number });
        self.owners.put(Owned { client, id, number });
    }

    // Takes out the tie of a number, where there is one, and keeps the memory of its texts for the next.
    pub(crate) fn remove(&mut self, number: u64)
        ensures order { MatchOption (get nat_eq self.old.store number) (self.new.order.rows ≡ self.old.order.rows) (λ _. self.new.order.rows ≡ without_key number_key (key number 0 0) self.old.order.rows) }
        ensures store { (n : ℕ) → get nat_eq self.new.store n ≡ cond (number == n) None (get nat_eq self.old.store n) }
        ensures owners { MatchOption (get nat_eq self.old.store number) (self.new.owners.rows ≡ self.old.owners.rows) (λ t. self.new.owners.rows ≡ without_key owned_key (key t.client t.id t.number) self.old.owners.rows) }
        ensures names { MatchOption (get nat_eq self.old.store number) (self.new.names ≡ self.old.names) (λ t. (q : List ℕ) → named self.new.names q ≡ cond (bytes_eq t.name q) None (named self.old.names q)) }
        ensures more { HasGrown self.old self.new }
    {
        let Some(tie) = self.store.remove(&number) else {
            return;
        };
        let _ = self.order.remove(Key {
            first: number,
            second: 0,
            third: 0,
        });
        remove_name(&mut self.names, &mut self.key_text, tie.name.as_slice());
        let _ = self.owners.remove(Key {
            first: tie.client,
            second: tie.id as u64,
            third: tie.number,
        });
        keep_text(&mut self.text, tie.name.into_vec());
    }
}
