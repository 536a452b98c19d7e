//! Freeing ids, and the end of a connection.

ghost use Rattle.std.specs.Prelude.{◌≡◌, ◌==◌, ◌<◌, ◌≤◌, ◌+◌, ◌*◌, ℕ, Bool, [], List, None, Some, false, true, not, filter, find, length, vec_capacity, IfOk, OnOk, OnErr};
ghost use Rattle.std.specs.List.{fold, list_any};
ghost use Rattle.model_draw_parts.specs.images.Release as model;
ghost use Rattle.model_draw_parts.specs.declared.images.Thing.{Thing as AThing};
ghost use Rattle.model_draw_parts.specs.declared.images.Thing.TheVariants as kind;
ghost use Rattle.model_draw_parts.specs.declared.images.Tie.{Tie};
ghost use Rattle.r9_images.specs.uses.Tally.{count_of, gone_of, room_of};

use crate::uses::pending::Pending;
use crate::uses::tally::Tally;
use crate::uses::uses::Uses;
use model_draw_parts::images::{ImageId, ScreenId, Thing};
use r9_memory::Memory;

// Where no more things go at once they are given in a list of their own, and the long one stays for the next call.
const FEW: usize = 8;

fn forget(images: &mut Tally, numbers: &mut Tally, thing: Thing)
    ensures image_counts { (q : ℕ) → count_of images.new.uses q ≡ count_of images.old.uses q }
    ensures screen_counts { (q : ℕ) → count_of numbers.new.uses q ≡ count_of numbers.old.uses q }
    ensures images { (q : ℕ) → gone_of images.new.uses q ≡ true → (gone_of images.old.uses q ≡ true) × (model.same_thing (kind.Image q) thing ≡ false) }
    ensures screens { (q : ℕ) → gone_of numbers.new.uses q ≡ true → (gone_of numbers.old.uses q ≡ true) × (model.same_thing (kind.Screen q) thing ≡ false) }
    ensures image_room { room_of images.old.uses images.old.made ≤ room_of images.new.uses images.new.made }
    ensures screen_room { room_of numbers.old.uses numbers.old.made ≤ room_of numbers.new.uses numbers.new.made }
{
    match thing {
        Thing::Image(i) => images.forget(i),
        Thing::Screen(s) => numbers.forget(s),
    }
}

// What has gone is no longer marked.
fn forget_all(images: &mut Tally, numbers: &mut Tally, gone: &[Thing])
    requires images { (q : ℕ) → gone_of images.old.uses q ≡ list_any (model.same_thing (kind.Image q)) gone.now }
    requires screens { (q : ℕ) → gone_of numbers.old.uses q ≡ list_any (model.same_thing (kind.Screen q)) gone.now }
    ensures image_counts { (q : ℕ) → count_of images.new.uses q ≡ count_of images.old.uses q }
    ensures screen_counts { (q : ℕ) → count_of numbers.new.uses q ≡ count_of numbers.old.uses q }
    ensures no_image { (q : ℕ) → gone_of images.new.uses q ≡ false }
    ensures no_screen { (q : ℕ) → gone_of numbers.new.uses q ≡ false }
    ensures image_room { room_of images.old.uses images.old.made ≤ room_of images.new.uses images.new.made }
    ensures screen_room { room_of numbers.old.uses numbers.old.made ≤ room_of numbers.new.uses numbers.new.made }
{
    for thing in gone {
        forget(images, numbers, *thing);
    }
}

// So many things may go: more than can be counted are more than there is memory for.
fn most(images: usize, screens: usize, windows: usize) -> Result<usize, Memory>
    ensures { IfOk result (λ n. n ≡ images + (3 * screens + 3 * windows)) }
{
    let from_screens = screens.checked_mul(3).ok_or(Memory)?;
    let from_windows = windows.checked_mul(3).ok_or(Memory)?;
    let others = from_screens.checked_add(from_windows).ok_or(Memory)?;
    images.checked_add(others).ok_or(Memory)
}

impl Uses {
    ghost use Rattle.r9_images.specs.uses.Room.{room};
    ghost use Rattle.r9_images.specs.uses.Freed.{freed_of, given, left_by, own_images, own_screens, IsKnown, HasRoom};

    // Makes room for so many things to go.
    fn make_room(&mut self, most: usize) -> Result<Pending, Memory>
        ensures room { OnOk result (HasRoom self.new most) }
        ensures pending { IfOk result (λ p. p.things ≡ []) }
        ensures most { IfOk result (λ p. most ≤ p.most) }
        ensures kept { (ties : List Tie) (next_tie : ℕ) → freed_of self.new ties next_tie ≡ freed_of self.old ties next_tie }
        ensures image_ids { self.new.image_ids ≡ self.old.image_ids }
        ensures screen_ids { self.new.screen_ids ≡ self.old.screen_ids }
        ensures windows { self.new.windows ≡ self.old.windows }
        ensures gone { self.new.gone.items ≡ self.old.gone.items }
        ensures more { room self.old ≤ room self.new + 1 }
    {
        self.gone.reserve(most)?;
        self.spare.reserve(most)?;
        self.images.know(0)?;
        let stack = std::mem::replace(&mut self.stack, Vec::new(self.alloc));
        Pending::in_memory(stack, most)
    }

    // Gives what has gone: in the empty list, where that has room for it, else in the one that was kept.
    fn take_gone(&mut self, mut few: Vec<Thing>) -> Vec<Thing>
        requires { few.items ≡ [] }
        ensures gone { result.items ≡ self.old.gone.items }
        ensures none { self.new.gone.items ≡ [] }
        ensures kept { (gone : List AThing) (ties : List Tie) (next_tie : ℕ) → given self.new gone ties next_tie ≡ given self.old gone ties next_tie }
        ensures more { room self.old ≤ room self.new }
    {
        forget_all(&mut self.images, &mut self.numbers, &self.gone);
        if self.gone.len() > few.capacity() {
            return std::mem::replace(&mut self.gone, few);
        }
        match few.extend_from_slice(&self.gone) {
            Ok(()) => {}
            Err(_) => unreachable!(),
        }
        self.gone.clear();
        few
    }

    // The id of an image that is no window goes. There is room for one thing to go.
    fn drop_plain(&mut self, e: ImageId)
        requires there { find (model.is_image_id e.client e.id) self.old.image_ids.ids ≡ Some e }
        requires plain { find (λ w. w.image == e.image) self.old.windows.windows ≡ None }
        requires gone { length self.old.gone.items < vec_capacity self.old.gone }
        ensures freed { (ties : List Tie) (next_tie : ℕ) → freed_of self.new ties next_tie ≡ model.freed_image_id (freed_of self.old ties next_tie) e }
        ensures more { room self.old ≤ room self.new }
    {
        self.take_image_id(e);
        if self.stays(Thing::Image(e.image)) {
            return;
        }
        let _ = self.let_image_go(e.image);
    }

    // An image id goes. There is room for all that may go.
    fn drop_image_id(&mut self, e: ImageId, pending: &mut Pending)
        requires there { find (model.is_image_id e.client e.id) self.old.image_ids.ids ≡ Some e }
        requires none { pending.old.things ≡ [] }
        requires room { HasRoom self.old (1 + 3 * length self.old.windows.windows) }
        requires most { 1 + 3 * length self.old.windows.windows ≤ pending.old.most }
        ensures freed { (ties : List Tie) (next_tie : ℕ) → freed_of self.new ties next_tie ≡ model.freed_image_id (freed_of self.old ties next_tie) e }
        ensures none { pending.new.things ≡ [] }
        ensures most { pending.new.most ≡ pending.old.most }
        ensures room { (more : ℕ) → HasRoom self.old (1 + 3 * length self.old.windows.windows + more) → HasRoom self.new (3 * length self.new.windows.windows + more) }
        ensures fewer { 3 * length self.new.windows.windows ≤ 1 + 3 * length self.old.windows.windows }
        ensures image_ids { self.new.image_ids.ids ≡ filter (λ x. not (model.is_image_id e.client e.id x)) self.old.image_ids.ids }
        ensures screen_ids { self.new.screen_ids ≡ self.old.screen_ids }
        ensures more { room self.old ≤ room self.new }
    {
        self.take_image_id(e);
        pending.push(Thing::Image(e.image));
        self.settle(pending);
    }

    // A screen id goes. There is room for all that may go.
    fn drop_screen_id(&mut self, e: ScreenId, pending: &mut Pending)
        requires there { find (model.is_screen_id e.client e.id) self.old.screen_ids.ids ≡ Some e }
        requires none { pending.old.things ≡ [] }
        requires room { HasRoom self.old (3 + 3 * length self.old.windows.windows) }
        requires most { 3 + 3 * length self.old.windows.windows ≤ pending.old.most }
        ensures freed { (ties : List Tie) (next_tie : ℕ) → freed_of self.new ties next_tie ≡ model.freed_screen_id (freed_of self.old ties next_tie) e }
        ensures none { pending.new.things ≡ [] }
        ensures most { pending.new.most ≡ pending.old.most }
        ensures room { (more : ℕ) → HasRoom self.old (3 + 3 * length self.old.windows.windows + more) → HasRoom self.new (3 * length self.new.windows.windows + more) }
        ensures fewer { 3 * length self.new.windows.windows ≤ 3 + 3 * length self.old.windows.windows }
        ensures screen_ids { self.new.screen_ids.ids ≡ filter (λ x. not (model.is_screen_id e.client e.id x)) self.old.screen_ids.ids }
        ensures image_ids { self.new.image_ids ≡ self.old.image_ids }
        ensures more { room self.old ≤ room self.new }
    {
        self.take_screen_id(e);
        pending.push(Thing::Screen(e.screen));
        self.settle(pending);
    }

    // The image ids of a connection go, in ascending order. There is room for all that may go.
    fn drop_image_ids(&mut self, client: u64, pending: &mut Pending)
        requires none { pending.old.things ≡ [] }
        requires room { HasRoom self.old (own_images self.old client + 3 * length self.old.windows.windows) }
        requires most { own_images self.old client + 3 * length self.old.windows.windows ≤ pending.old.most }
        ensures freed { (ties : List Tie) (next_tie : ℕ) → freed_of self.new ties next_tie ≡ fold model.freed_image_id (freed_of self.old ties next_tie) (filter (λ e. e.client == client) self.old.image_ids.ids) }
        ensures none { pending.new.things ≡ [] }
        ensures most { pending.new.most ≡ pending.old.most }
        ensures room { (more : ℕ) → HasRoom self.old (own_images self.old client + 3 * length self.old.windows.windows + more) → HasRoom self.new (3 * length self.new.windows.windows + more) }
        ensures fewer { 3 * length self.new.windows.windows ≤ own_images self.old client + 3 * length self.old.windows.windows }
        ensures screen_ids { self.new.screen_ids ≡ self.old.screen_ids }
        ensures more { room self.old ≤ room self.new }
    {
        'dropping: while let Some(e) = self.image_ids.first_of(client) {
            self.drop_image_id(e, pending);
        }
    }

    // The screen ids of a connection go, in ascending order. There is room for all that may go.
    fn drop_screen_ids(&mut self, client: u64, pending: &mut Pending)
        requires none { pending.old.things ≡ [] }
        requires room { HasRoom self.old (3 * own_screens self.old client + 3 * length self.old.windows.windows) }
        requires most { 3 * own_screens self.old client + 3 * length self.old.windows.windows ≤ pending.old.most }
        ensures freed { (ties : List Tie) (next_tie : ℕ) → freed_of self.new ties next_tie ≡ fold model.freed_screen_id (freed_of self.old ties next_tie) (filter (λ e. e.client == client) self.old.screen_ids.ids) }
        ensures more { room self.old ≤ room self.new }
    {
        'dropping: while let Some(e) = self.screen_ids.first_of(client) {
            self.drop_screen_id(e, pending);
        }
    }

    // The same, and gives what has gone.
    fn free_plain(&mut self, e: ImageId) -> Result<Vec<Thing>, Memory>
        requires there { find (model.is_image_id e.client e.id) self.old.image_ids.ids ≡ Some e }
        requires plain { find (λ w. w.image == e.image) self.old.windows.windows ≡ None }
        requires none { self.old.gone.items ≡ [] }
        ensures freed { (ties : List Tie) (next_tie : ℕ) → IfOk result (λ gone. given self.new gone.items ties next_tie ≡ model.freed_image_id (freed_of self.old ties next_tie) e) }
        ensures none { self.new.gone.items ≡ [] }
        ensures kept { (ties : List Tie) (next_tie : ℕ) → OnErr result (freed_of self.new ties next_tie ≡ freed_of self.old ties next_tie) }
        ensures more { room self.old ≤ room self.new }
    {
        let few = Vec::with_capacity(self.alloc, 1)?;
        self.gone.reserve(1)?;
        self.drop_plain(e);
        Ok(self.take_gone(few))
    }

    fn free_window(&mut self, e: ImageId) -> Result<Vec<Thing>, Memory>
        requires there { find (model.is_image_id e.client e.id) self.old.image_ids.ids ≡ Some e }
        requires none { self.old.gone.items ≡ [] }
        ensures freed { (ties : List Tie) (next_tie : ℕ) → IfOk result (λ gone. given self.new gone.items ties next_tie ≡ model.freed_image_id (freed_of self.old ties next_tie) e) }
        ensures none { self.new.gone.items ≡ [] }
        ensures kept { (ties : List Tie) (next_tie : ℕ) → OnErr result (freed_of self.new ties next_tie ≡ freed_of self.old ties next_tie) }
        ensures more { room self.old ≤ room self.new + 1 }
    {
        let most = most(1, 0, self.windows.len())?;
        let few = Vec::with_capacity(self.alloc, FEW)?;
        let mut pending = self.make_room(most)?;
        self.drop_image_id(e, &mut pending);
        self.stack = pending.into_memory();
        Ok(self.take_gone(few))
    }

    /// An image id goes, and then what nothing refers to any more. Gives what has gone. After Memory all is as before. For an
    /// image that is no window this takes memory for two things at most, else for three times the windows that live and a few.
    pub fn free_image_id(&mut self, e: ImageId) -> Result<Vec<Thing>, Memory>
        requires there { find (model.is_image_id e.client e.id) self.old.image_ids.ids ≡ Some e }
        requires none { self.old.gone.items ≡ [] }
        ensures freed { (ties : List Tie) (next_tie : ℕ) → IfOk result (λ gone. given self.new gone.items ties next_tie ≡ model.freed_image_id (freed_of self.old ties next_tie) e) }
        ensures none { self.new.gone.items ≡ [] }
        ensures kept { (ties : List Tie) (next_tie : ℕ) → OnErr result (freed_of self.new ties next_tie ≡ freed_of self.old ties next_tie) }
        ensures more { room self.old ≤ room self.new + 1 }
    {
        if self.screen_of(e.image).is_none() {
            self.free_plain(e)
        } else {
            self.free_window(e)
        }
    }

    /// A screen id goes, and then what nothing refers to any more. Gives what has gone. After Memory all is as before.
    pub fn free_screen_id(&mut self, e: ScreenId) -> Result<Vec<Thing>, Memory>
        requires there { find (model.is_screen_id e.client e.id) self.old.screen_ids.ids ≡ Some e }
        requires none { self.old.gone.items ≡ [] }
        ensures freed { (ties : List Tie) (next_tie : ℕ) → IfOk result (λ gone. given self.new gone.items ties next_tie ≡ model.freed_screen_id (freed_of self.old ties next_tie) e) }
        ensures none { self.new.gone.items ≡ [] }
        ensures kept { (ties : List Tie) (next_tie : ℕ) → OnErr result (freed_of self.new ties next_tie ≡ freed_of self.old ties next_tie) }
        ensures more { room self.old ≤ room self.new + 1 }
    {
        let most = most(0, 1, self.windows.len())?;
        let few = Vec::with_capacity(self.alloc, FEW)?;
        let mut pending = self.make_room(most)?;
        self.drop_screen_id(e, &mut pending);
        self.stack = pending.into_memory();
        Ok(self.take_gone(few))
    }

    /// A connection ends: its image ids go in ascending order, and then its screen ids, each time with what nothing refers to
    /// any more. Gives what has gone. After Memory all is as before. This takes memory for the ids of the connection, for three
    /// times the windows that live and for a few things, and none where it has no id.
    pub fn leave(&mut self, client: u64) -> Result<Vec<Thing>, Memory>
        requires { self.old.gone.items ≡ [] }
        ensures freed { (ties : List Tie) (next_tie : ℕ) → IfOk result (λ gone. given self.new gone.items ties next_tie ≡ left_by (freed_of self.old ties next_tie) client) }
        ensures none { self.new.gone.items ≡ [] }
        ensures kept { (ties : List Tie) (next_tie : ℕ) → OnErr result (freed_of self.new ties next_tie ≡ freed_of self.old ties next_tie) }
        ensures more { room self.old ≤ room self.new + 1 }
    {
        let images = self.image_ids.count_of(client)?;
        let screens = self.screen_ids.count_of(client)?;
        if images == 0 && screens == 0 {
            return Ok(Vec::new(self.alloc));
        }
        let most = most(images, screens, self.windows.len())?;
        let few = Vec::with_capacity(self.alloc, FEW)?;
        let mut pending = self.make_room(most)?;
        self.drop_image_ids(client, &mut pending);
        self.drop_screen_ids(client, &mut pending);
        self.stack = pending.into_memory();
        Ok(self.take_gone(few))
    }
}
