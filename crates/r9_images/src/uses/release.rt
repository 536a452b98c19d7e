//! What goes when a reference goes.

ghost use Rattle.std.specs.Prelude.{◌≡◌, ◌==◌, ◌||◌, ◌<◌, ◌≤◌, ◌+◌, ◌*◌, ◌++◌, ◌∷◌, ℕ, [], List, All, find, length, true, vec_len, vec_capacity};
ghost use Rattle.std.specs.Option.{option_map, option_map_or};
ghost use Rattle.model_draw_parts.specs.images.Release as model;
ghost use Rattle.model_draw_parts.specs.declared.images.Thing.{Thing as AThing};
ghost use Rattle.model_draw_parts.specs.declared.images.Thing.TheVariants as thing;
ghost use Rattle.model_draw_parts.specs.declared.images.Tie.{Tie};
ghost use Rattle.r9_images.specs.uses.Tally.{knows};

use crate::uses::pending::Pending;
use crate::uses::uses::Uses;
use model_draw_parts::images::Thing;

// Puts what an image refers to before the other things: its screen, where it is a window.
fn refer_image(screen: Option<u32>, pending: &mut Pending)
    requires { length (option_map_or (λ s. thing.Screen s ∷ []) screen []) + length pending.old.things ≤ pending.old.most }
    ensures things { pending.new.things ≡ option_map_or (λ s. thing.Screen s ∷ []) screen [] ++ pending.old.things }
    ensures most { pending.new.most ≡ pending.old.most }
{
    if let Some(screen) = screen {
        pending.push(Thing::Screen(screen));
    }
}

impl Uses {
    ghost use Rattle.r9_images.specs.uses.Room.{room};
    ghost use Rattle.r9_images.specs.uses.Freed.{freed_of, book_of, IsKnown, weight, left_of, HasRoom};

    // Whether something refers to it, or it has gone.
    pub(crate) fn stays(&self, thing: Thing) -> bool
        ensures { (ties : List Tie) (next_tie : ℕ) → result ≡ (model.is_used (freed_of self.now ties next_tie).book thing || model.has_gone (freed_of self.now ties next_tie) thing) }
    {
        match thing {
            Thing::Image(i) => self.images.stays(i),
            Thing::Screen(s) => self.numbers.stays(s),
        }
    }

    // Puts what the screen refers to before the other things: its image and then its fill.
    fn refer_screen(&self, screen: u32, pending: &mut Pending)
        requires room { 2 + length pending.old.things ≤ pending.old.most }
        requires image { IsKnown self.now (thing.Image 0) }
        ensures things { (ties : List Tie) (next_tie : ℕ) → pending.new.things ≡ model.references (freed_of self.now ties next_tie).book (thing.Screen screen) ++ pending.old.things }
        ensures known { All (IsKnown self.now) (model.references (book_of self.now) (thing.Screen screen)) }
        ensures most { pending.new.most ≡ pending.old.most }
    {
        let (image, fill) = match self.screen_numbered(screen) {
            Some(screen) => (screen.image, screen.fill),
            None => (0, 0),
        };
        pending.push(Thing::Image(fill));
        pending.push(Thing::Image(image));
    }

    // Gives the screen on which the image stood, where it was a window.
    pub(crate) fn let_image_go(&mut self, image: u32) -> Option<u32>
        requires known { IsKnown self.old (thing.Image image) }
        requires gone { length self.old.gone.items < vec_capacity self.old.gone }
        ensures screen { result ≡ option_map (λ w. w.screen) (find (λ w. w.image == image) self.old.windows.windows) }
        ensures freed { (ties : List Tie) (next_tie : ℕ) → freed_of self.new ties next_tie ≡ model.with_gone (freed_of self.old ties next_tie) (thing.Image image) }
        ensures known { (t : AThing) → IsKnown self.old t → IsKnown self.new t }
        ensures gone { vec_capacity self.new.gone ≡ vec_capacity self.old.gone }
        ensures spare { self.new.spare ≡ self.old.spare }
        ensures image_ids { self.new.image_ids ≡ self.old.image_ids }
        ensures screen_ids { self.new.screen_ids ≡ self.old.screen_ids }
        ensures more { room self.old ≤ room self.new }
    {
        let screen = self.close(image);
        self.images.mark(image);
        self.gone.push_reserved(Thing::Image(image));
        screen
    }

    fn let_screen_go(&mut self, screen: u32)
        requires known { IsKnown self.old (thing.Screen screen) }
        requires gone { length self.old.gone.items < vec_capacity self.old.gone }
        requires spare { length self.old.spare.items < vec_capacity self.old.spare }
        ensures freed { (ties : List Tie) (next_tie : ℕ) → freed_of self.new ties next_tie ≡ model.with_gone (freed_of self.old ties next_tie) (thing.Screen screen) }
        ensures known { (t : AThing) → IsKnown self.old t → IsKnown self.new t }
        ensures gone { vec_capacity self.new.gone ≡ vec_capacity self.old.gone }
        ensures spare { vec_capacity self.new.spare ≡ vec_capacity self.old.spare }
        ensures image_ids { self.new.image_ids ≡ self.old.image_ids }
        ensures screen_ids { self.new.screen_ids ≡ self.old.screen_ids }
        ensures more { room self.old ≤ room self.new }
    {
        self.empty(screen);
        self.numbers.mark(screen);
        self.spare.push_reserved(screen);
        self.gone.push_reserved(Thing::Screen(screen));
    }

    // Looks at an image that has lost a reference, which stands before the other things.
    fn look_at_image(&mut self, image: u32, pending: &mut Pending)
        requires known { IsKnown self.old (thing.Image image) }
        requires all { All (IsKnown self.old) pending.old.things }
        requires room { HasRoom self.old (left_of self.old (thing.Image image ∷ pending.old.things)) }
        requires most { left_of self.old (thing.Image image ∷ pending.old.things) ≤ pending.old.most }
        ensures step { (ties : List Tie) (next_tie : ℕ) → model.released (freed_of self.new ties next_tie) pending.new.things ≡ model.released (freed_of self.old ties next_tie) (thing.Image image ∷ pending.old.things) }
        ensures less { left_of self.new pending.new.things < left_of self.old (thing.Image image ∷ pending.old.things) }
        ensures room { (more : ℕ) → HasRoom self.old (left_of self.old (thing.Image image ∷ pending.old.things) + more) → HasRoom self.new (left_of self.new pending.new.things + more) }
        ensures all { All (IsKnown self.new) pending.new.things }
        ensures most { pending.new.most ≡ pending.old.most }
        ensures image_ids { self.new.image_ids ≡ self.old.image_ids }
        ensures screen_ids { self.new.screen_ids ≡ self.old.screen_ids }
        ensures more { room self.old ≤ room self.new }
    {
        if self.stays(Thing::Image(image)) {
            return;
        }
        let screen = self.let_image_go(image);
        refer_image(screen, pending);
    }

    // Looks at a screen that has lost a reference, which stands before the other things.
    fn look_at_screen(&mut self, screen: u32, pending: &mut Pending)
        requires known { IsKnown self.old (thing.Screen screen) }
        requires all { All (IsKnown self.old) pending.old.things }
        requires room { HasRoom self.old (left_of self.old (thing.Screen screen ∷ pending.old.things)) }
        requires most { left_of self.old (thing.Screen screen ∷ pending.old.things) ≤ pending.old.most }
        ensures step { (ties : List Tie) (next_tie : ℕ) → model.released (freed_of self.new ties next_tie) pending.new.things ≡ model.released (freed_of self.old ties next_tie) (thing.Screen screen ∷ pending.old.things) }
        ensures less { left_of self.new pending.new.things < left_of self.old (thing.Screen screen ∷ pending.old.things) }
        ensures room { (more : ℕ) → HasRoom self.old (left_of self.old (thing.Screen screen ∷ pending.old.things) + more) → HasRoom self.new (left_of self.new pending.new.things + more) }
        ensures all { All (IsKnown self.new) pending.new.things }
        ensures most { pending.new.most ≡ pending.old.most }
        ensures image_ids { self.new.image_ids ≡ self.old.image_ids }
        ensures screen_ids { self.new.screen_ids ≡ self.old.screen_ids }
        ensures more { room self.old ≤ room self.new }
    {
        if self.stays(Thing::Screen(screen)) {
            return;
        }
        self.refer_screen(screen, pending);
        self.let_screen_go(screen);
    }

    fn look(&mut self, thing: Thing, pending: &mut Pending)
        requires known { IsKnown self.old thing }
        requires all { All (IsKnown self.old) pending.old.things }
        requires room { HasRoom self.old (left_of self.old (thing ∷ pending.old.things)) }
        requires most { left_of self.old (thing ∷ pending.old.things) ≤ pending.old.most }
        ensures step { (ties : List Tie) (next_tie : ℕ) → model.released (freed_of self.new ties next_tie) pending.new.things ≡ model.released (freed_of self.old ties next_tie) (thing ∷ pending.old.things) }
        ensures less { left_of self.new pending.new.things < left_of self.old (thing ∷ pending.old.things) }
        ensures room { (more : ℕ) → HasRoom self.old (left_of self.old (thing ∷ pending.old.things) + more) → HasRoom self.new (left_of self.new pending.new.things + more) }
        ensures all { All (IsKnown self.new) pending.new.things }
        ensures most { pending.new.most ≡ pending.old.most }
        ensures image_ids { self.new.image_ids ≡ self.old.image_ids }
        ensures screen_ids { self.new.screen_ids ≡ self.old.screen_ids }
        ensures more { room self.old ≤ room self.new }
    {
        match thing {
            Thing::Image(i) => self.look_at_image(i, pending),
            Thing::Screen(s) => self.look_at_screen(s, pending),
        }
    }

    // Looks at one after the other.
    pub(crate) fn settle(&mut self, pending: &mut Pending)
        requires all { All (IsKnown self.old) pending.old.things }
        requires room { HasRoom self.old (left_of self.old pending.old.things) }
        requires most { left_of self.old pending.old.things ≤ pending.old.most }
        ensures freed { (ties : List Tie) (next_tie : ℕ) → freed_of self.new ties next_tie ≡ model.released (freed_of self.old ties next_tie) pending.old.things }
        ensures none { pending.new.things ≡ [] }
        ensures most { pending.new.most ≡ pending.old.most }
        ensures room { (more : ℕ) → HasRoom self.old (left_of self.old pending.old.things + more) → HasRoom self.new (left_of self.new [] + more) }
        ensures fewer { left_of self.new [] ≤ left_of self.old pending.old.things }
        ensures image_ids { self.new.image_ids ≡ self.old.image_ids }
        ensures screen_ids { self.new.screen_ids ≡ self.old.screen_ids }
        ensures more { room self.old ≤ room self.new }
    {
        'settling: while let Some(thing) = pending.pop() {
            self.look(thing, pending);
        }
    }
}
