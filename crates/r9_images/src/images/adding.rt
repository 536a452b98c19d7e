//! Adding ids and screens.

ghost use Rattle.std.specs.Prelude.{◌≡◌, ◌==◌, ◌&&◌, ◌<◌, ◌≤◌, Ok, Err, None, false, find, IfOk, IfErr, OnOk, OnErr};
ghost use Rattle.std.specs.List.{list_any};
ghost use Rattle.model_draw_parts.specs.images.Book as model;
ghost use Rattle.model_draw_parts.specs.images.Release.{is_image_id, is_screen_id};
ghost use Rattle.r9_images.specs.images.View.{IfRefused, IsRefusal};

use crate::images::book::Book;
use crate::images::fault::BookFault;
use model_draw_parts::images::{ImageId, Screen, ScreenId};
use r9_memory::Memory;

impl Book {
    /// Makes room, so that the next call that adds an id, a screen or a name does not answer Memory: a name may have 255 bytes
    /// for this.
    pub fn reserve(&mut self) -> Result<(), Memory>
        ensures room { OnOk result (0 < self.new.room) }
        ensures kept { self.new.book ≡ self.old.book }
        ensures more { self.old.room ≤ self.new.room }
    {
        self.uses.reserve()?;
        self.ties.reserve()?;
        Ok(())
    }

    fn has_image_id(&self, client: u64, id: u32) -> bool
        ensures { result ≡ model.is_image_id_taken self.now.book client id }
    {
        id == 0 && client != 0 || self.image_id(client, id).is_some()
    }

    pub(crate) fn is_image_taken(&self, client: u64, id: u32) -> bool
        ensures taken { result ≡ model.is_image_id_taken self.now.book client id }
        ensures fresh { result ≡ false → find (is_image_id client id) self.now.book.image_ids ≡ None }
    {
        self.has_image_id(client, id)
    }

    fn has_public(&self, id: u32) -> bool
        ensures { result ≡ list_any (λ e. e.public && (e.id == id)) self.now.book.screen_ids }
    {
        self.uses.public(id).is_some()
    }

    fn has_screen_id(&self, client: u64, id: u32, public: bool) -> bool
        ensures { result ≡ model.is_screen_id_taken self.now.book client id public }
    {
        self.uses.screen_id(client, id).is_some() || public && self.has_public(id)
    }

    fn is_screen_taken(&self, client: u64, id: u32, public: bool) -> bool
        ensures taken { result ≡ model.is_screen_id_taken self.now.book client id public }
        ensures fresh { result ≡ false → find (is_screen_id client id) self.now.book.screen_ids ≡ None }
    {
        self.has_screen_id(client, id, public)
    }

    /// An id for a new image to which nothing refers yet, as a window where it has a screen, which lives. Refused by 6 exactly
    /// where the connection has the id, or it is 0, but for the manager's.
    #[tactic(auto, unfolding(model_draw_parts::specs::images::Book::add_id))]
    pub fn add_id(
        &mut self,
        client: u64,
        id: u32,
        image: u32,
        screen: Option<u32>,
    ) -> Result<(), BookFault>
        ensures made { OnOk result (model.add_id self.old.book client id image screen ≡ Ok self.new.book) }
        ensures refused { IfErr result (λ f. IfRefused f (λ n. model.add_id self.old.book client id image screen ≡ Err n)) }
        ensures kept { OnErr result (self.new.book ≡ self.old.book) }
        ensures room { 0 < self.old.room → IfErr result IsRefusal }
    {
        if self.is_image_taken(client, id) {
            return Err(BookFault::Refused(6));
        }
        self.uses.reserve()?;
        let tie = None;
        self.uses.add_image_id(
            ImageId {
                client,
                id,
                image,
                tie,
            },
            screen,
        );
        Ok(())
    }

    /// One more id for a screen that lives. Refused by 7 exactly where the connection has the id, or it is to be public and
    /// there is a public screen of it.
    #[tactic(auto, unfolding(model_draw_parts::specs::images::Book::add_screen))]
    pub fn add_screen(
        &mut self,
        client: u64,
        id: u32,
        screen: u32,
        public: bool,
    ) -> Result<(), BookFault>
        ensures made { OnOk result (model.add_screen self.old.book client id screen public ≡ Ok self.new.book) }
        ensures refused { IfErr result (λ f. IfRefused f (λ n. model.add_screen self.old.book client id screen public ≡ Err n)) }
        ensures kept { OnErr result (self.new.book ≡ self.old.book) }
        ensures room { 0 < self.old.room → IfErr result IsRefusal }
    {
        if self.is_screen_taken(client, id, public) {
            return Err(BookFault::Refused(7));
        }
        self.uses.reserve()?;
        self.uses.add_screen_id(ScreenId {
            client,
            id,
            screen,
            public,
        });
        Ok(())
    }

    /// Makes a screen on an image, with the image that fills what its windows uncover, under an id, and gives its number: the
    /// one that came back last, else the lowest that was never given out. Refused by 7 as `add_screen`.
    #[tactic(auto, unfolding(model_draw_parts::specs::images::Book::new_screen))]
    pub fn new_screen(
        &mut self,
        client: u64,
        id: u32,
        public: bool,
        image: u32,
        fill: u32,
    ) -> Result<u32, BookFault>
        ensures number { IfOk result (λ s. s ≡ model.next_screen self.old.book) }
        ensures made { OnOk result (model.new_screen self.old.book client id public image fill ≡ Ok self.new.book) }
        ensures refused { IfErr result (λ f. IfRefused f (λ n. model.new_screen self.old.book client id public image fill ≡ Err n)) }
        ensures kept { OnErr result (self.new.book ≡ self.old.book) }
        ensures room { 0 < self.old.room → IfErr result IsRefusal }
    {
        if self.is_screen_taken(client, id, public) {
            return Err(BookFault::Refused(7));
        }
        self.uses.reserve()?;
        let Some(screen) = self.uses.next_screen() else {
            return Err(BookFault::Memory);
        };
        self.uses.add_screen(
            ScreenId {
                client,
                id,
                screen,
                public,
            },
            Screen { image, fill },
        );
        Ok(screen)
    }
}
