//! Adding single references, for which there is room.

ghost use Rattle.std.specs.Prelude.{◌≡◌, ◌<◌, ◌≤◌, ◌+◌, ◌-◌, ◌++◌, ◌∷◌, [], None, Some, find, length, take, OnOk, OnErr};
ghost use Rattle.model_draw_parts.specs.images.Book.{put_image_id, put_screen_id, with_screen, with_window};
ghost use Rattle.model_draw_parts.specs.images.Release.{is_image_id, is_screen_id};
ghost use Rattle.r9_images.specs.uses.Tally.{room_of};

use crate::uses::uses::Uses;
use model_draw_parts::images::{ImageId, OnScreen, Screen, ScreenId};
use r9_memory::Memory;

impl Uses {
    ghost use Rattle.r9_images.specs.uses.Room.{room};

    // Adds an image id, which is not among them.
    pub(crate) fn put_image_id(&mut self, e: ImageId)
        requires ids { 0 < self.old.image_ids.room }
        requires counts { 0 < room_of self.old.images.uses self.old.images.made }
        requires fresh { find (is_image_id e.client e.id) self.old.image_ids.ids ≡ None }
        ensures put { self.new.image_ids.ids ≡ put_image_id e self.old.image_ids.ids }
        ensures numbers { self.new.numbers ≡ self.old.numbers }
        ensures screen_ids { self.new.screen_ids ≡ self.old.screen_ids }
        ensures screens { self.new.screens ≡ self.old.screens }
        ensures spare { self.new.spare ≡ self.old.spare }
        ensures windows { self.new.windows ≡ self.old.windows }
        ensures gone { self.new.gone ≡ self.old.gone }
    {
        self.images.add(e.image);
        self.image_ids.put(e);
    }

    // Adds a screen id, which is not among them.
    pub(crate) fn put_screen_id(&mut self, e: ScreenId)
        requires ids { 0 < self.old.screen_ids.room }
        requires counts { 0 < room_of self.old.numbers.uses self.old.numbers.made }
        requires fresh { find (is_screen_id e.client e.id) self.old.screen_ids.ids ≡ None }
        ensures put { self.new.screen_ids.ids ≡ put_screen_id e self.old.screen_ids.ids }
        ensures image_ids { self.new.image_ids ≡ self.old.image_ids }
        ensures screens { self.new.screens ≡ self.old.screens }
        ensures spare { self.new.spare ≡ self.old.spare }
        ensures windows { self.new.windows ≡ self.old.windows }
        ensures gone { self.new.gone ≡ self.old.gone }
    {
        self.numbers.add(e.screen);
        self.screen_ids.put(e);
    }

    // Adds a window.
    pub(crate) fn add_window(&mut self, window: OnScreen)
        requires windows { 0 < self.old.windows.room }
        requires counts { 0 < room_of self.old.numbers.uses self.old.numbers.made }
        ensures added { self.new.windows.windows ≡ self.old.windows.windows ++ window ∷ [] }
        ensures image_ids { self.new.image_ids ≡ self.old.image_ids }
        ensures images { self.new.images ≡ self.old.images }
        ensures screen_ids { self.new.screen_ids ≡ self.old.screen_ids }
        ensures screens { self.new.screens ≡ self.old.screens }
        ensures spare { self.new.spare ≡ self.old.spare }
        ensures gone { self.new.gone ≡ self.old.gone }
    {
        self.numbers.add(window.screen);
        self.windows.push(window);
    }

    // The screen of a number is this one, in place of the one that it was.
    pub(crate) fn put_screen(&mut self, number: u32, screen: Screen)
        requires images { 1 < room_of self.old.images.uses self.old.images.made }
        requires on { 0 < room_of self.old.on.uses self.old.on.made }
        requires screens { 0 < self.old.screens.room }
        ensures put { self.new.screens.screens ≡ with_screen self.old.screens.screens number screen }
        ensures image_ids { self.new.image_ids ≡ self.old.image_ids }
        ensures screen_ids { self.new.screen_ids ≡ self.old.screen_ids }
        ensures numbers { self.new.numbers ≡ self.old.numbers }
        ensures spare { self.new.spare ≡ self.old.spare }
        ensures windows { self.new.windows ≡ self.old.windows }
        ensures gone { self.new.gone ≡ self.old.gone }
    {
        self.empty(number);
        self.images.add(screen.image);
        self.images.add(screen.fill);
        self.on.add(screen.image);
        self.screens.put(number, screen);
    }

    /// Makes room for one more of each. All stays as it is, also after Memory.
    #[tactic(auto, unfolding(crate::specs::uses::Room::room))]
    pub fn reserve(&mut self) -> Result<(), Memory>
        ensures room { OnOk result (0 < room self.new) }
        ensures full { OnErr result (room self.old ≡ 0) }
        ensures more { room self.old ≤ room self.new }
        ensures image_ids { self.new.image_ids.ids ≡ self.old.image_ids.ids }
        ensures screen_ids { self.new.screen_ids.ids ≡ self.old.screen_ids.ids }
        ensures screens { self.new.screens.screens ≡ self.old.screens.screens }
        ensures spare { self.new.spare.items ≡ self.old.spare.items }
        ensures windows { self.new.windows.windows ≡ self.old.windows.windows }
        ensures gone { self.new.gone.items ≡ self.old.gone.items }
    {
        self.image_ids.reserve()?;
        self.screen_ids.reserve()?;
        self.screens.reserve()?;
        self.windows.reserve()?;
        self.images.reserve()?;
        self.on.reserve()?;
        self.numbers.reserve()
    }

    /// Adds an image id, which is not among them, and a window of the image where it has a screen. There is room for one more.
    pub fn add_image_id(&mut self, e: ImageId, screen: Option<u32>)
        requires room { 0 < room self.old }
        requires fresh { find (is_image_id e.client e.id) self.old.image_ids.ids ≡ None }
        ensures added { self.new.image_ids.ids ≡ put_image_id e self.old.image_ids.ids }
        ensures windows { self.new.windows.windows ≡ with_window e.image screen self.old.windows.windows }
        ensures screen_ids { self.new.screen_ids.ids ≡ self.old.screen_ids.ids }
        ensures screens { self.new.screens.screens ≡ self.old.screens.screens }
        ensures spare { self.new.spare.items ≡ self.old.spare.items }
        ensures gone { self.new.gone.items ≡ self.old.gone.items }
    {
        self.put_image_id(e);
        if let Some(screen) = screen {
            self.add_window(OnScreen {
                image: e.image,
                screen,
            });
        }
    }

    /// Adds a screen id, which is not among them. There is room for one more.
    pub fn add_screen_id(&mut self, e: ScreenId)
        requires room { 0 < room self.old }
        requires fresh { find (is_screen_id e.client e.id) self.old.screen_ids.ids ≡ None }
        ensures added { self.new.screen_ids.ids ≡ put_screen_id e self.old.screen_ids.ids }
        ensures image_ids { self.new.image_ids.ids ≡ self.old.image_ids.ids }
        ensures screens { self.new.screens.screens ≡ self.old.screens.screens }
        ensures spare { self.new.spare.items ≡ self.old.spare.items }
        ensures windows { self.new.windows.windows ≡ self.old.windows.windows }
        ensures gone { self.new.gone.items ≡ self.old.gone.items }
    {
        self.put_screen_id(e);
    }

    /// Makes a screen of the next number, which the id bears, and adds its id, which is not among them. There is room for one
    /// more.
    pub fn add_screen(&mut self, e: ScreenId, screen: Screen)
        requires room { 0 < room self.old }
        requires fresh { find (is_screen_id e.client e.id) self.old.screen_ids.ids ≡ None }
        ensures added { self.new.screen_ids.ids ≡ put_screen_id e self.old.screen_ids.ids }
        ensures screens { self.new.screens.screens ≡ with_screen self.old.screens.screens e.screen screen }
        ensures spare { self.new.spare.items ≡ take (length self.old.spare.items - 1) self.old.spare.items }
        ensures image_ids { self.new.image_ids.ids ≡ self.old.image_ids.ids }
        ensures windows { self.new.windows.windows ≡ self.old.windows.windows }
        ensures gone { self.new.gone.items ≡ self.old.gone.items }
    {
        self.put_screen(e.screen, screen);
        let _ = self.spare.pop();
        self.put_screen_id(e);
    }
}
