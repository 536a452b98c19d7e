//! Taking single references.

ghost use Rattle.std.specs.Prelude.{◌≡◌, ◌==◌, ◌<◌, ◌≤◌, ◌+◌, ℕ, None, Some, not, true, filter, find, length, slice_set, IfSome};
ghost use Rattle.std.specs.Option.{option_map};
ghost use Rattle.model_draw_parts.specs.images.Release.{is_image_id, is_screen_id};
ghost use Rattle.r9_images.specs.uses.Tally.{room_of, knows};

use crate::uses::uses::Uses;
use model_draw_parts::images::{ImageId, ScreenId};

impl Uses {
    ghost use Rattle.r9_images.specs.uses.Room.{room};

    // An image id goes.
    pub(crate) fn take_image_id(&mut self, e: ImageId)
        requires { find (is_image_id e.client e.id) self.old.image_ids.ids ≡ Some e }
        ensures ids { self.new.image_ids.ids ≡ filter (λ x. not (is_image_id e.client e.id x)) self.old.image_ids.ids }
        ensures known { knows self.new.images.uses e.image ≡ true }
        ensures image_room { self.old.image_ids.room ≤ self.new.image_ids.room }
        ensures images { (q : ℕ) → knows self.old.images.uses q ≡ true → knows self.new.images.uses q ≡ true }
        ensures numbers { self.new.numbers ≡ self.old.numbers }
        ensures screen_ids { self.new.screen_ids ≡ self.old.screen_ids }
        ensures screens { self.new.screens ≡ self.old.screens }
        ensures spare { self.new.spare ≡ self.old.spare }
        ensures windows { self.new.windows ≡ self.old.windows }
        ensures gone { self.new.gone ≡ self.old.gone }
        ensures more { room self.old ≤ room self.new }
    {
        self.images.take(e.image);
        self.image_ids.remove(e.client, e.id);
    }

    // A screen id goes.
    pub(crate) fn take_screen_id(&mut self, e: ScreenId)
        requires { find (is_screen_id e.client e.id) self.old.screen_ids.ids ≡ Some e }
        ensures ids { self.new.screen_ids.ids ≡ filter (λ x. not (is_screen_id e.client e.id x)) self.old.screen_ids.ids }
        ensures known { knows self.new.numbers.uses e.screen ≡ true }
        ensures screen_room { self.old.screen_ids.room ≤ self.new.screen_ids.room }
        ensures images { self.new.images ≡ self.old.images }
        ensures numbers { (q : ℕ) → knows self.old.numbers.uses q ≡ true → knows self.new.numbers.uses q ≡ true }
        ensures image_ids { self.new.image_ids ≡ self.old.image_ids }
        ensures screens { self.new.screens ≡ self.old.screens }
        ensures spare { self.new.spare ≡ self.old.spare }
        ensures windows { self.new.windows ≡ self.old.windows }
        ensures gone { self.new.gone ≡ self.old.gone }
        ensures more { room self.old ≤ room self.new }
    {
        self.numbers.take(e.screen);
        self.screen_ids.remove(e.client, e.id);
    }

    // There is no screen of the number any more.
    pub(crate) fn empty(&mut self, number: u32)
        ensures emptied { self.new.screens.screens ≡ slice_set self.old.screens.screens number None }
        ensures room { self.old.screens.room ≤ self.new.screens.room }
        ensures known { (q : ℕ) → knows self.old.images.uses q ≡ true → knows self.new.images.uses q ≡ true }
        ensures images_room { room_of self.new.images.uses self.new.images.made ≡ room_of self.old.images.uses self.old.images.made }
        ensures on_room { room_of self.new.on.uses self.new.on.made ≡ room_of self.old.on.uses self.old.on.made }
        ensures image_ids { self.new.image_ids ≡ self.old.image_ids }
        ensures screen_ids { self.new.screen_ids ≡ self.old.screen_ids }
        ensures numbers { self.new.numbers ≡ self.old.numbers }
        ensures spare { self.new.spare ≡ self.old.spare }
        ensures windows { self.new.windows ≡ self.old.windows }
        ensures gone { self.new.gone ≡ self.old.gone }
        ensures more { room self.old ≤ room self.new }
    {
        let Some(screen) = self.screens.get(number) else {
            return;
        };
        self.images.take(screen.image);
        self.images.take(screen.fill);
        self.on.take(screen.image);
        self.screens.remove(number);
    }

    // The image's first window goes, where it has one. Gives the screen on which it stood.
    fn take_window(&mut self, image: u32) -> Option<u32>
        ensures screen { result ≡ option_map (λ w. w.screen) (find (λ w. w.image == image) self.old.windows.windows) }
        ensures others { filter (λ w. not (w.image == image)) self.new.windows.windows ≡ filter (λ w. not (w.image == image)) self.old.windows.windows }
        ensures none { result ≡ None → self.new.windows.windows ≡ filter (λ w. not (w.image == image)) self.old.windows.windows }
        ensures less { IfSome result (λ _. length self.new.windows.windows < length self.old.windows.windows) }
        ensures known { (q : ℕ) → knows self.old.numbers.uses q ≡ true → knows self.new.numbers.uses q ≡ true }
        ensures room { self.old.windows.room ≤ self.new.windows.room }
        ensures image_ids { self.new.image_ids ≡ self.old.image_ids }
        ensures screen_ids { self.new.screen_ids ≡ self.old.screen_ids }
        ensures images { self.new.images ≡ self.old.images }
        ensures screens { self.new.screens ≡ self.old.screens }
        ensures spare { self.new.spare ≡ self.old.spare }
        ensures gone { self.new.gone ≡ self.old.gone }
        ensures more { room self.old ≤ room self.new }
    {
        match self.windows.take(image) {
            Some(window) => {
                self.numbers.take(window.screen);
                Some(window.screen)
            }
            None => None,
        }
    }

    // The windows of the image go.
    fn take_windows(&mut self, image: u32)
        ensures closed { self.new.windows.windows ≡ filter (λ w. not (w.image == image)) self.old.windows.windows }
        ensures known { (q : ℕ) → knows self.old.numbers.uses q ≡ true → knows self.new.numbers.uses q ≡ true }
        ensures room { self.old.windows.room ≤ self.new.windows.room }
        ensures image_ids { self.new.image_ids ≡ self.old.image_ids }
        ensures screen_ids { self.new.screen_ids ≡ self.old.screen_ids }
        ensures images { self.new.images ≡ self.old.images }
        ensures screens { self.new.screens ≡ self.old.screens }
        ensures spare { self.new.spare ≡ self.old.spare }
        ensures gone { self.new.gone ≡ self.old.gone }
        ensures more { room self.old ≤ room self.new }
    {
        'closing: while self.take_window(image).is_some() {}
    }

    // The image is no window any more. Gives the screen on which it stood.
    pub(crate) fn close(&mut self, image: u32) -> Option<u32>
        ensures screen { result ≡ option_map (λ w. w.screen) (find (λ w. w.image == image) self.old.windows.windows) }
        ensures closed { self.new.windows.windows ≡ filter (λ w. not (w.image == image)) self.old.windows.windows }
        ensures known { (q : ℕ) → knows self.old.numbers.uses q ≡ true → knows self.new.numbers.uses q ≡ true }
        ensures room { self.old.windows.room ≤ self.new.windows.room }
        ensures image_ids { self.new.image_ids ≡ self.old.image_ids }
        ensures screen_ids { self.new.screen_ids ≡ self.old.screen_ids }
        ensures images { self.new.images ≡ self.old.images }
        ensures screens { self.new.screens ≡ self.old.screens }
        ensures spare { self.new.spare ≡ self.old.spare }
        ensures gone { self.new.gone ≡ self.old.gone }
        ensures more { room self.old ≤ room self.new }
    {
        let screen = self.take_window(image)?;
        self.take_windows(image);
        Some(screen)
    }
}
