//! The screens of the draw device by number, in a slab (draw(3)).
#![tactic(auto)]

ghost use Rattle.std.specs.Prelude.{◌≡◌, ◌<◌, ◌≤◌, ◌+◌, [], None, length, slice_index_or, slice_set, OnErr, OnOk};
ghost use Rattle.model_draw_parts.specs.images.Book.{with_screen};

use model_draw_parts::images::Screen;
use r9_memory::Memory;
use slab::Slab;
use std::alloc::Global;
use std::marker::Model;

/// The screen of each number that was given out, where it has not gone. The slab picks the keys under which screens are kept,
/// and a table leads from a number to its key, since numbers come back in an order of their own.
#[derive(Drop)]
pub struct Screens {
    screens: Slab<Screen>,
    keys: Vec<Option<usize>>,
}

impl Model for Screens {
    ghost use Rattle.r9_ids.specs.screens.Screens.{Numbered, IsTable, room_of, screens_of};

    ghost Value = { Numbered };

    ghost view = { λ s. record { screens = screens_of s.screens s.keys.items; room = room_of s.screens s.keys } };

    ghost invariant = { λ s. IsTable s.screens s.keys.items };
}

impl Screens {
    /// No number was given out.
    pub fn new(alloc: Global) -> Self
        ensures { result.screens ≡ [] }
    {
        Screens {
            screens: Slab::new(alloc),
            keys: Vec::new(alloc),
        }
    }

    /// How many numbers were given out.
    pub fn len(&self) -> usize
        ensures value { result ≡ length self.now.screens }
        ensures most { result + self.now.room ≤ 4294967295 }
    {
        self.keys.len()
    }

    /// The screen of a number, where it has one.
    pub fn get(&self, number: u32) -> Option<Screen>
        ensures { result ≡ slice_index_or self.now.screens number None }
    {
        let key = key_of(&self.keys, number)?;
        self.screens.get(key).copied()
    }

    /// Makes room for one more screen, and for a number that was never given out. The screens stay as they are, also after
    /// Memory.
    pub fn reserve(&mut self) -> Result<(), Memory>
        ensures room { OnOk result (0 < self.new.room) }
        ensures full { OnErr result (self.old.room ≡ 0) }
        ensures kept { self.new.screens ≡ self.old.screens }
        ensures more { self.old.room ≤ self.new.room }
    {
        if self.keys.len() >= u32::MAX as usize {
            return Err(Memory);
        }
        self.screens.reserve(1)?;
        self.keys.reserve(1)?;
        Ok(())
    }

    /// Puts a screen under a number, in place of the one that it has; a number that was not given out is the next one. There
    /// is room for it.
    pub fn put(&mut self, number: u32, screen: Screen)
        requires { 0 < self.old.room }
        ensures put { self.new.screens ≡ with_screen self.old.screens number screen }
        ensures room { self.old.room ≤ self.new.room + 1 }
    {
        if let Some(key) = key_of(&self.keys, number) {
            self.screens[key] = screen;
            return;
        }
        let key = self.screens.insert_reserved(screen);
        let at = number as usize;
        if at < self.keys.len() {
            self.keys[at] = Some(key);
            return;
        }
        self.keys.push_reserved(Some(key));
    }

    /// Takes the screen of a number out, where it has one. Takes no memory.
    pub fn remove(&mut self, number: u32)
        ensures removed { self.new.screens ≡ slice_set self.old.screens number None }
        ensures room { self.old.room ≤ self.new.room }
    {
        let Some(key) = key_of(&self.keys, number) else {
            return;
        };
        let _ = self.screens.remove(key);
        self.keys[number as usize] = None;
    }
}

// The key of a number, where it has a screen.
fn key_of(keys: &[Option<usize>], number: u32) -> Option<usize>
    ensures { result ≡ slice_index_or keys.now number None }
{
    *keys.get(number as usize)?
}
