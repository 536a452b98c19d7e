//! The names of images.

ghost use Rattle.std.specs.Prelude.{◌≡◌, ◌==◌, ◌<◌, ◌≤◌, Ok, Err, None, IfOk, IfErr, IsOk, OnOk, OnErr, true, find, not, ◌||◌, is_ok, is_some, filter, length, vec_capacity};
ghost use Rattle.model_draw_parts.specs.images.Book as model;
ghost use Rattle.model_draw_parts.specs.images.Release.{is_image_id};
ghost use Rattle.r9_images.specs.images.Names.{with_image_id, with_tie, without_tie};
ghost use Rattle.r9_images.specs.images.View.{IfRefused, IsRefusal};

use crate::images::book::Book;
use crate::images::fault::BookFault;
use model_draw_parts::images::ImageId;

fn is_kept_name(client: u64, name: &[u8]) -> bool
    ensures { result ≡ model.is_kept_name client name.now }
{
    client != 0 && name.starts_with(b"window.")
}

fn is_other_name(client: u64, name: &[u8], tied: u32, image: u32) -> bool
    ensures { result ≡ (model.is_kept_name client name.now || not (tied == image)) }
{
    is_kept_name(client, name) || tied != image
}

impl Book {
    fn is_name_taken(&self, client: u64, name: &[u8]) -> bool
        ensures { result ≡ (is_some (model.tie_of self.now.book name.now) || model.is_kept_name client name.now) }
    {
        self.tie_of(name).is_some() || is_kept_name(client, name)
    }

    // The image that `tie` gives the name.
    #[tactic(auto, unfolding(model_draw_parts::specs::images::Book::tie))]
    fn image_to_tie(&self, client: u64, id: u32, name: &[u8]) -> Result<u32, u8>
        ensures ok { IfOk result (λ i. model.tie self.now.book client id name.now ≡ Ok (with_tie self.now.book client id i name.now)) }
        ensures untied { OnOk result (model.tie_of self.now.book name.now ≡ None) }
        ensures refused { IfErr result (λ n. model.tie self.now.book client id name.now ≡ Err n) }
    {
        let image = self.image(client, id)?;
        if self.is_name_taken(client, name) {
            return Err(16);
        }
        Ok(image)
    }

    // The number of the tie that `untie` ends.
    #[tactic(auto, unfolding(model_draw_parts::specs::images::Book::untie))]
    fn tie_to_end(&self, client: u64, id: u32, name: &[u8]) -> Result<u64, u8>
        ensures ok { IfOk result (λ number. model.untie self.now.book client id name.now ≡ Ok (without_tie self.now.book number)) }
        ensures refused { IfErr result (λ n. model.untie self.now.book client id name.now ≡ Err n) }
    {
        let image = self.image(client, id)?;
        let Some(t) = self.tie_of(name) else {
            return Err(17);
        };
        if is_other_name(client, name, t.image, image) {
            return Err(19);
        }
        Ok(t.number)
    }

    // The image id that `add_named` adds.
    #[tactic(auto, unfolding(model_draw_parts::specs::images::Book::add_named))]
    fn id_to_add(&self, client: u64, id: u32, name: &[u8]) -> Result<ImageId, u8>
        ensures ok { IfOk result (λ e. model.add_named self.now.book client id name.now ≡ Ok (with_image_id self.now.book e)) }
        ensures fresh { IfOk result (λ e. find (is_image_id e.client e.id) self.now.book.image_ids ≡ None) }
        ensures refused { IfErr result (λ n. model.add_named self.now.book client id name.now ≡ Err n) }
    {
        if self.is_image_taken(client, id) {
            return Err(6);
        }
        let Some(t) = self.tie_of(name) else {
            return Err(17);
        };
        Ok(ImageId {
            client,
            id,
            image: t.image,
            tie: Some(t.number),
        })
    }

    /// Why `tie` would be refused: its refusal, found without memory.
    pub fn can_tie(&self, client: u64, id: u32, name: &[u8]) -> Result<(), u8>
        ensures ok { OnOk result (is_ok (model.tie self.now.book client id name.now) ≡ true) }
        ensures refused { IfErr result (λ n. model.tie self.now.book client id name.now ≡ Err n) }
    {
        self.image_to_tie(client, id, name)?;
        Ok(())
    }

    /// Why `untie` would be refused: its refusal, found without memory.
    pub fn can_untie(&self, client: u64, id: u32, name: &[u8]) -> Result<(), u8>
        ensures ok { OnOk result (is_ok (model.untie self.now.book client id name.now) ≡ true) }
        ensures refused { IfErr result (λ n. model.untie self.now.book client id name.now ≡ Err n) }
    {
        self.tie_to_end(client, id, name)?;
        Ok(())
    }

    /// Why `add_named` would be refused: its refusal, found without memory.
    pub fn can_add_named(&self, client: u64, id: u32, name: &[u8]) -> Result<(), u8>
        ensures ok { OnOk result (is_ok (model.add_named self.now.book client id name.now) ≡ true) }
        ensures refused { IfErr result (λ n. model.add_named self.now.book client id name.now ≡ Err n) }
    {
        self.id_to_add(client, id, name)?;
        Ok(())
    }

    /// Ties a name to the image of an id. Refused first as `image` refuses the id, then by 16 exactly where the name is tied, or
    /// begins with `window.` and the connection is not the manager's.
    pub fn tie(&mut self, client: u64, id: u32, name: &[u8]) -> Result<(), BookFault>
        ensures made { OnOk result (model.tie self.old.book client id name.now ≡ Ok self.new.book) }
        ensures refused { IfErr result (λ f. IfRefused f (λ n. model.tie self.old.book client id name.now ≡ Err n)) }
        ensures kept { OnErr result (self.new.book ≡ self.old.book) }
        ensures room { 0 < self.old.room → length name.now ≤ 255 → IfErr result IsRefusal }
    {
        let image = self.image_to_tie(client, id, name)?;
        self.ties.push(client, id, image, name)?;
        Ok(())
    }

    /// Ends the tie of a name. Refused first as `image` refuses the id, then by 17 exactly where no image has the name, and by 19
    /// exactly where it begins with `window.` and the connection is not the manager's, or is tied to another image than the id's.
    /// Takes no memory.
    pub fn untie(&mut self, client: u64, id: u32, name: &[u8]) -> Result<(), BookFault>
        ensures made { OnOk result (model.untie self.old.book client id name.now ≡ Ok self.new.book) }
        ensures refused { IfErr result (λ f. IfRefused f (λ n. model.untie self.old.book client id name.now ≡ Err n)) }
        ensures kept { OnErr result (self.new.book ≡ self.old.book) }
        ensures memory { IfErr result IsRefusal }
        ensures room { self.old.room ≤ self.new.room }
    {
        let number = self.tie_to_end(client, id, name)?;
        self.ties.end(number);
        Ok(())
    }

    /// An id for the image with a name, which refers to the name's tie. Refused by 6 as `add_id`, and by 17 exactly where no
    /// image has the name.
    pub fn add_named(&mut self, client: u64, id: u32, name: &[u8]) -> Result<(), BookFault>
        ensures made { OnOk result (model.add_named self.old.book client id name.now ≡ Ok self.new.book) }
        ensures refused { IfErr result (λ f. IfRefused f (λ n. model.add_named self.old.book client id name.now ≡ Err n)) }
        ensures kept { OnErr result (self.new.book ≡ self.old.book) }
        ensures room { 0 < self.old.room → IfErr result IsRefusal }
    {
        let e = self.id_to_add(client, id, name)?;
        self.uses.reserve()?;
        self.uses.add_image_id(e, None);
        Ok(())
    }
}
