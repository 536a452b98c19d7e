//! The image ids of all connections.

ghost use Rattle.std.specs.Prelude.{◌≡◌, ◌==◌, ◌<◌, ◌≤◌, ◌+◌, ◌&&◌, ◌∷◌, [], not, find, filter, length, None, Some, IfSome, IfOk, MatchOption, OnOk, OnErr};
ghost use Rattle.model_draw_parts.specs.images.Book.{put_image_id};
ghost use Rattle.model_draw_parts.specs.images.Release.{is_image_id};
ghost use Rattle.r9_ids.specs.ids.Own.{images_from};

use crate::ids::rows::{ImageRow, key_of_id};
use crate::sorted::{Key, Sorted};
use model_draw_parts::images::ImageId;
use r9_memory::Memory;
use std::alloc::Global;
use std::marker::Model;

/// Image ids in ascending order by connection and then by id, each once.
#[derive(Drop)]
pub struct ImageIds {
    rows: Sorted<ImageRow>,
}

impl Model for ImageIds {
    ghost use Rattle.r9_ids.specs.ids.ImageIds.{Ids};
    ghost use Rattle.r9_ids.specs.ids.Rows.{images_of};

    ghost Value = { Ids };

    ghost view = { λ s. record { ids = images_of s.rows.rows; room = s.rows.room } };
}

impl ImageIds {
    /// No ids.
    pub fn new(alloc: Global) -> Self
        ensures { result.ids ≡ [] }
    {
        ImageIds {
            rows: Sorted::new(alloc),
        }
    }

    /// How many ids there are.
    pub fn len(&self) -> usize
        ensures { result ≡ length self.now.ids }
    {
        self.rows.len()
    }

    /// Makes room for one more id. The ids stay as they are, also after Memory.
    pub fn reserve(&mut self) -> Result<(), Memory>
        ensures room { OnOk result (0 < self.new.room) }
        ensures full { OnErr result (self.old.room ≡ 0) }
        ensures kept { self.new.ids ≡ self.old.ids }
        ensures more { self.old.room ≤ self.new.room }
    {
        self.rows.reserve()
    }

    /// What an id of a connection refers to.
    pub fn get(&self, client: u64, id: u32) -> Option<ImageId>
        ensures found { result ≡ find (is_image_id client id) self.now.ids }
        ensures same { IfSome result (λ e. (e.client ≡ client) × (e.id ≡ id)) }
    {
        match self.rows.get(key_of_id(client, id)) {
            Some(row) => Some(row.e),
            None => None,
        }
    }

    /// The first id of a connection.
    pub fn first_of(&self, client: u64) -> Option<ImageId>
        ensures found { result ≡ find (λ e. e.client == client) self.now.ids }
        ensures there { IfSome result (λ e. find (is_image_id e.client e.id) self.now.ids ≡ Some e) }
        ensures rest { IfSome result (λ e. filter (λ x. x.client == client) self.now.ids ≡ e ∷ filter (λ x. x.client == client) (filter (λ x. not (is_image_id e.client e.id x)) self.now.ids)) }
    {
        match self.rows.first_from(key_of_id(client, 0)) {
            Some(row) => {
                if row.e.client != client {
                    return None;
                }
                Some(row.e)
            }
            None => None,
        }
    }

    // The first id of a connection from one on.
    fn next_of(&self, client: u64, from: u64) -> Option<ImageId>
        ensures rest { MatchOption result (images_from client from self.now.ids ≡ []) (λ e. images_from client from self.now.ids ≡ e ∷ images_from client (e.id + 1) self.now.ids) }
    {
        let row = self.rows.first_from(Key {
            first: client,
            second: from,
            third: 0,
        })?;
        if row.e.client == client {
            Some(row.e)
        } else {
            None
        }
    }

    /// How many ids a connection has: more than can be counted are more than there is memory for.
    pub fn count_of(&self, client: u64) -> Result<usize, Memory>
        ensures { IfOk result (λ n. n ≡ length (filter (λ e. e.client == client) self.now.ids)) }
    {
        let mut count: usize = 0;
        let mut from: u64 = 0;
        'counting: while let Some(e) = self.next_of(client, from) {
            count = count.checked_add(1).ok_or(Memory)?;
            from = u64::from(e.id) + 1;
        }
        Ok(count)
    }

    /// Puts an id into its place, which is not among them. There is room for it.
    pub fn put(&mut self, e: ImageId)
        requires room { 0 < self.old.room }
        requires fresh { find (is_image_id e.client e.id) self.old.ids ≡ None }
        ensures ids { self.new.ids ≡ put_image_id e self.old.ids }
        ensures room { self.old.room ≤ self.new.room + 1 }
    {
        self.rows.put(ImageRow { e });
    }

    /// Takes an id out. Takes no memory.
    pub fn remove(&mut self, client: u64, id: u32)
        ensures rest { self.new.ids ≡ filter (λ e. not (is_image_id client id e)) self.old.ids }
        ensures room { self.old.room ≤ self.new.room }
        ensures back { IfSome (find (is_image_id client id) self.old.ids) (λ e. put_image_id e self.new.ids ≡ self.old.ids) }
    {
        let _ = self.rows.remove(key_of_id(client, id));
    }
}
