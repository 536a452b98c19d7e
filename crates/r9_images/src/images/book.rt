//! A book, and looking up in it.

ghost use Rattle.std.specs.Prelude.{◌≡◌, ◌<◌, ◌≤◌, ◌^◌, Ok, Err, Some, None, find, IfOk, IfErr, OnOk, OnErr, IfSome, IsSome};
ghost use Rattle.std.specs.Option.{option_map};
ghost use Rattle.model_draw_parts.specs.images.Book as model;
ghost use Rattle.model_draw_parts.specs.images.Release.{is_image_id};
ghost use Rattle.r9_images.specs.images.View.{IfRefused};

use crate::images::fault::BookFault;
use crate::uses::Uses;
use model_draw_parts::images::{ImageId, Screen, Tie};
use r9_ids::ties::Ties;
use std::alloc::Global;
use std::marker::Model;

/// What the ids of connections and the names refer to. Images, screens and connections are numbers. Connection 0 is the
/// window manager's; image id 0 of each connection is that of the manager, the display.
#[derive(Drop)]
pub struct Book {
    pub(crate) uses: Uses,
    pub(crate) ties: Ties,
}

impl Model for Book {
    ghost use Rattle.std.specs.Prelude.{◌≡◌, [], min};
    ghost use Rattle.r9_images.specs.uses.Freed.{freed_of};
    ghost use Rattle.r9_images.specs.uses.Room.{room};
    ghost use Rattle.r9_images.specs.images.View.{Roomy};

    ghost Value = { Roomy };

    ghost view = { λ b. record { book = (freed_of b.uses b.ties.ties b.ties.next).book; room = min (room b.uses) b.ties.room } };

    ghost invariant = { λ b. b.uses.gone.items ≡ [] };
}

impl Book {
    /// A book of nothing.
    pub fn new(alloc: Global) -> Self
        ensures { result.book ≡ model.empty_book }
    {
        Book {
            uses: Uses::new(alloc),
            ties: Ties::new(alloc),
        }
    }

    pub(crate) fn image_id(&self, client: u64, id: u32) -> Option<ImageId>
        ensures found { result ≡ model.image_id self.now.book client id }
        ensures there { IfSome result (λ e. find (is_image_id e.client e.id) self.now.book.image_ids ≡ Some e) }
    {
        let owner = if id == 0 { 0 } else { client };
        self.uses.image_id(owner, id)
    }

    pub(crate) fn tie_of<'a>(&'a self, name: &[u8]) -> Option<&'a Tie>
        ensures { option_map (λ t. t.now) result ≡ model.tie_of self.now.book name.now }
    {
        self.ties.find(name)
    }

    fn is_stale(&self, e: ImageId) -> bool
        ensures { result ≡ model.is_stale self.now.book e }
    {
        match e.tie {
            Some(number) => !self.ties.has(number),
            None => false,
        }
    }

    /// The image of an id. Refused by 4 exactly where the connection does not know the id, and by 18 exactly where it was
    /// made by a name whose tie has ended.
    #[tactic(auto, unfolding(model_draw_parts::specs::images::Book::image))]
    pub fn image(&self, client: u64, id: u32) -> Result<u32, u8>
        ensures { result ≡ model.image self.now.book client id }
    {
        let Some(e) = self.image_id(client, id) else {
            return Err(4);
        };
        if self.is_stale(e) {
            return Err(18);
        }
        Ok(e.image)
    }

    /// The image of an id that the connection knows, also where a name made it whose tie has ended.
    pub fn shown(&self, client: u64, id: u32) -> Option<u32>
        ensures { result ≡ option_map (λ e. e.image) (model.image_id self.now.book client id) }
    {
        match self.image_id(client, id) {
            Some(e) => Some(e.image),
            None => None,
        }
    }

    /// The screen of an id. Refused by 5 exactly where the connection does not know it.
    #[tactic(auto, unfolding(model_draw_parts::specs::images::Book::screen))]
    pub fn screen(&self, client: u64, id: u32) -> Result<u32, u8>
        ensures { result ≡ model.screen self.now.book client id }
    {
        match self.uses.screen_id(client, id) {
            Some(e) => Ok(e.screen),
            None => Err(5),
        }
    }

    /// The public screen of an id. Refused by 5 exactly where there is none.
    #[tactic(auto, unfolding(model_draw_parts::specs::images::Book::public))]
    pub fn public(&self, id: u32) -> Result<u32, u8>
        ensures { result ≡ model.public self.now.book id }
    {
        match self.uses.public(id) {
            Some(e) => Ok(e.screen),
            None => Err(5),
        }
    }

    /// The image of a name. Refused by 17 exactly where no image has it.
    #[tactic(auto, unfolding(model_draw_parts::specs::images::Book::named))]
    pub fn name(&self, name: &[u8]) -> Result<u32, u8>
        ensures { result ≡ model.named self.now.book name.now }
    {
        match self.tie_of(name) {
            Some(t) => Ok(t.image),
            None => Err(17),
        }
    }

    /// Whether there is a screen on the image.
    pub fn has_screen(&self, image: u32) -> bool
        ensures { result ≡ model.has_screen self.now.book image }
    {
        self.uses.has_screen(image)
    }

    /// The screen on which the image stands: None exactly where it is no window.
    pub fn screen_of(&self, image: u32) -> Option<u32>
        ensures { result ≡ model.screen_of self.now.book image }
    {
        self.uses.screen_of(image)
    }

    fn screen_numbered(&self, screen: u32) -> Option<Screen>
        ensures { result ≡ model.screen_numbered self.now.book screen }
    {
        self.uses.screen_numbered(screen)
    }

    /// The image of a screen that lives.
    pub fn image_of(&self, screen: u32) -> u32
        requires { IsSome (model.screen_numbered self.now.book screen) }
        ensures { result ≡ model.image_of self.now.book screen }
    {
        match self.screen_numbered(screen) {
            Some(screen) => screen.image,
            None => 0,
        }
    }

    /// The fill of a screen that lives.
    pub fn fill_of(&self, screen: u32) -> u32
        requires { IsSome (model.screen_numbered self.now.book screen) }
        ensures { result ≡ model.fill_of self.now.book screen }
    {
        match self.screen_numbered(screen) {
            Some(screen) => screen.fill,
            None => 0,
        }
    }

    /// Whether the id was made by a name.
    pub fn by_name(&self, client: u64, id: u32) -> bool
        ensures { result ≡ model.by_name self.now.book client id }
    {
        match self.image_id(client, id) {
            Some(e) => e.tie.is_some(),
            None => false,
        }
    }
}
