//! What lives, and looking up in it.

ghost use Rattle.std.specs.Prelude.{◌≡◌, ◌==◌, ◌<◌, ◌≤◌, ◌-◌, ◌&&◌, ◌||◌, ℕ, [], length, find, slice_index_or, None, IfSome, IsSome};
ghost use Rattle.std.specs.List.{list_any};
ghost use Rattle.std.specs.Option.{option_map};
ghost use Rattle.model_draw_parts.specs.images.Book.{is_on};
ghost use Rattle.model_draw_parts.specs.images.Release.{is_image_id, is_screen_id, same_thing};
ghost use Rattle.model_draw_parts.specs.declared.images.Thing.TheVariants as thing;
ghost use Rattle.r9_images.specs.uses.Tally.{count_of, gone_of};
ghost use Rattle.r9_images.specs.uses.Counts.{image_uses, screen_uses, screens_on};

use crate::uses::tally::Tally;
use crate::uses::windows::Windows;
use model_draw_parts::images::{ImageId, Screen, ScreenId, Thing};
use r9_ids::ids::{ImageIds, ScreenIds};
use r9_ids::screens::Screens;
use std::alloc::Global;

/// The image ids, the screen ids, the screens and the windows that live, with how often each image and each screen is referred
/// to, and what has gone at the call that is being made.
#[derive(Drop)]
pub struct Uses {
    pub(crate) alloc: Global,
    pub(crate) image_ids: ImageIds,
    pub(crate) screen_ids: ScreenIds,
    pub(crate) screens: Screens,
    // The numbers of the screens that have gone.
    pub(crate) spare: Vec<u32>,
    pub(crate) windows: Windows,
    pub(crate) gone: Vec<Thing>,
    // Memory for things that are still to be looked at, which the next call takes.
    pub(crate) stack: Vec<Thing>,
    // How often each image is referred to, how many screens are on it, and how often each screen is referred to.
    pub(crate) images: Tally,
    pub(crate) on: Tally,
    pub(crate) numbers: Tally,
    ghost images_counted: { (i : ℕ) → count_of images.uses i ≡ image_uses i image_ids.ids screens.screens },
    ghost on_counted: { (i : ℕ) → count_of on.uses i ≡ screens_on i screens.screens },
    ghost screens_counted: { (s : ℕ) → count_of numbers.uses s ≡ screen_uses s screen_ids.ids windows.windows },
    ghost images_gone: { (i : ℕ) → gone_of images.uses i ≡ list_any (same_thing (thing.Image i)) gone.items },
    ghost screens_gone: { (s : ℕ) → gone_of numbers.uses s ≡ list_any (same_thing (thing.Screen s)) gone.items },
}

impl Uses {
    ghost use Rattle.r9_images.specs.uses.Room.{room};

    /// Nothing.
    pub fn new(alloc: Global) -> Self
        ensures image_ids { result.image_ids.ids ≡ [] }
        ensures screen_ids { result.screen_ids.ids ≡ [] }
        ensures screens { result.screens.screens ≡ [] }
        ensures spare { result.spare.items ≡ [] }
        ensures windows { result.windows.windows ≡ [] }
        ensures gone { result.gone.items ≡ [] }
    {
        Uses {
            alloc,
            image_ids: ImageIds::new(alloc),
            screen_ids: ScreenIds::new(alloc),
            screens: Screens::new(alloc),
            spare: Vec::new(alloc),
            windows: Windows::new(alloc),
            gone: Vec::new(alloc),
            stack: Vec::new(alloc),
            images: Tally::new(alloc),
            on: Tally::new(alloc),
            numbers: Tally::new(alloc),
        }
    }

    /// What an image id of a connection refers to.
    pub fn image_id(&self, client: u64, id: u32) -> Option<ImageId>
        ensures found { result ≡ find (is_image_id client id) self.now.image_ids.ids }
        ensures same { IfSome result (λ e. (e.client ≡ client) × (e.id ≡ id)) }
    {
        self.image_ids.get(client, id)
    }

    /// What a screen id of a connection refers to.
    pub fn screen_id(&self, client: u64, id: u32) -> Option<ScreenId>
        ensures found { result ≡ find (is_screen_id client id) self.now.screen_ids.ids }
        ensures same { IfSome result (λ e. (e.client ≡ client) × (e.id ≡ id)) }
    {
        self.screen_ids.get(client, id)
    }

    /// The first public screen id of a number.
    pub fn public(&self, id: u32) -> Option<ScreenId>
        ensures { result ≡ find (λ e. e.public && (e.id == id)) self.now.screen_ids.ids }
    {
        self.screen_ids.public(id)
    }

    /// Whether there is a screen on the image.
    pub fn has_screen(&self, image: u32) -> bool
        ensures { result ≡ list_any (is_on image) self.now.screens.screens }
    {
        self.on.count(image) > 0
    }

    /// The screen on which the image stands: None exactly where it is no window.
    pub fn screen_of(&self, image: u32) -> Option<u32>
        ensures { result ≡ option_map (λ w. w.screen) (find (λ w. w.image == image) self.now.windows.windows) }
    {
        self.windows.screen_of(image)
    }

    /// The screen of a number, where it lives.
    pub fn screen_numbered(&self, screen: u32) -> Option<Screen>
        ensures { result ≡ slice_index_or self.now.screens.screens screen None }
    {
        self.screens.get(screen)
    }

    /// The number of the next screen: the one that came back last, else the lowest that was never given out. None where the
    /// numbers are used up.
    pub fn next_screen(&self) -> Option<u32>
        ensures number { IfSome result (λ n. n ≡ slice_index_or self.now.spare.items (length self.now.spare.items - 1) (length self.now.screens.screens)) }
        ensures room { length self.now.screens.screens < 4294967295 → IsSome result }
        ensures ready { 0 < room self.now → IsSome result }
    {
        match self.spare.last() {
            Some(number) => Some(*number),
            None if self.screens.len() < u32::MAX as usize => Some(self.screens.len() as u32),
            None => None,
        }
    }
}
