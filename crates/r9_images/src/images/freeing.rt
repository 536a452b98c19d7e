//! Freeing ids and screens, and the end of a connection.

ghost use Rattle.std.specs.Prelude.{◌≡◌, ◌==◌, ◌≤◌, ◌+◌, ◌&&◌, Ok, Err, Some, find, IfOk, IfErr, IfSome, OnErr, not, filter};
ghost use Rattle.model_draw_parts.specs.images.Release as model;
ghost use Rattle.r9_images.specs.images.View.{IfRefused};

use crate::images::book::Book;
use crate::images::fault::BookFault;
use crate::images::freed::Freed;
use model_draw_parts::images::ImageId;
use r9_memory::Memory;

impl Book {
    // The image id where the connection may free it.
    fn own_image_id(&self, client: u64, id: u32) -> Option<ImageId>
        ensures found { result ≡ model.own_image_id self.now.book client id }
        ensures there { IfSome result (λ e. find (model.is_image_id e.client e.id) self.now.book.image_ids ≡ Some e) }
    {
        if id == 0 && client != 0 {
            return None;
        }
        self.image_id(client, id)
    }

    /// Frees an image id, ends the ties that it made, and gives what has gone. Refused by 4 exactly where the connection does
    /// not know the id, or it is 0, but for the manager's. After Memory the book is as before. The room falls by one at most.
    #[tactic(auto, unfolding(model_draw_parts::specs::images::Release::free_id))]
    pub fn free_id(&mut self, client: u64, id: u32) -> Result<Freed, BookFault>
        ensures freed { IfOk result (λ gone. model.free_id self.old.book client id ≡ Ok (record { book = self.new.book; gone = gone })) }
        ensures refused { IfErr result (λ f. IfRefused f (λ n. model.free_id self.old.book client id ≡ Err n)) }
        ensures kept { OnErr result (self.new.book ≡ self.old.book) }
        ensures room { self.old.room ≤ self.new.room + 1 }
    {
        let Some(e) = self.own_image_id(client, id) else {
            return Err(BookFault::Refused(4));
        };
        let things = self.uses.free_image_id(e)?;
        self.ties.end_of_id(client, id);
        Ok(Freed { things })
    }

    /// Frees a screen id, and gives what has gone. Refused by 5 exactly where the connection does not know the id. After Memory
    /// the book is as before. The room falls by one at most.
    #[tactic(auto, unfolding(model_draw_parts::specs::images::Release::free_screen))]
    pub fn free_screen(&mut self, client: u64, id: u32) -> Result<Freed, BookFault>
        ensures freed { IfOk result (λ gone. model.free_screen self.old.book client id ≡ Ok (record { book = self.new.book; gone = gone })) }
        ensures refused { IfErr result (λ f. IfRefused f (λ n. model.free_screen self.old.book client id ≡ Err n)) }
        ensures kept { OnErr result (self.new.book ≡ self.old.book) }
        ensures room { self.old.room ≤ self.new.room + 1 }
    {
        let Some(e) = self.uses.screen_id(client, id) else {
            return Err(BookFault::Refused(5));
        };
        let things = self.uses.free_screen_id(e)?;
        Ok(Freed { things })
    }

    /// A connection ends: its image ids are freed in ascending order, then its screen ids, and its ties end. Gives what has
    /// gone. After Memory the book is as before. The room falls by one at most.
    #[tactic(auto, unfolding(model_draw_parts::specs::images::Release::leave))]
    pub fn leave(&mut self, client: u64) -> Result<Freed, Memory>
        ensures left { IfOk result (λ gone. model.leave self.old.book client ≡ record { book = self.new.book; gone = gone }) }
        ensures kept { OnErr result (self.new.book ≡ self.old.book) }
        ensures room { self.old.room ≤ self.new.room + 1 }
    {
        let things = self.uses.leave(client)?;
        self.ties.end_of_client(client);
        Ok(Freed { things })
    }
}
