//! The windows that live.

ghost use Rattle.std.specs.Prelude.{◌≡◌, ◌==◌, ◌<◌, ◌≤◌, ◌+◌, ◌++◌, ◌∷◌, ℕ, [], not, cond, find, filter, length, IfSome, None, OnOk, OnErr};
ghost use Rattle.std.specs.List.{count_by};
ghost use Rattle.std.specs.Option.{option_map};
ghost use Rattle.r9_ids.specs.sorted.Rows.{Ascend};
ghost use Rattle.r9_images.specs.uses.Windows.{window_key};

use crate::uses::rows::{WindowRow, key_of_window};
use model_draw_parts::images::OnScreen;
use r9_ids::sorted::Sorted;
use r9_memory::Memory;
use std::alloc::Global;
use std::marker::Model;

/// The windows in the order in which they were made, which are found by their images.
#[derive(Drop)]
pub struct Windows {
    rows: Sorted<WindowRow>,
    // How many windows were ever made.
    made: u64,
}

impl Model for Windows {
    ghost use Rattle.std.specs.Prelude.{◌-◌, min};
    ghost use Rattle.r9_images.specs.uses.Windows.{AreMade, Standing, windows_of};

    ghost Value = { Standing };

    ghost view = { λ w. record { windows = windows_of w.rows.rows w.made; room = min w.rows.room (18446744073709551615 - w.made) } };

    ghost invariant = { λ w. AreMade w.rows.rows w.made };
}

// The image's first row.
fn first_of(rows: &Sorted<WindowRow>, image: u32) -> Option<WindowRow>
    ensures found { result ≡ find (λ row. row.window.image == image) rows.now.rows }
    ensures order { Ascend window_key rows.now.rows }
{
    let row = rows.first_from(key_of_window(image, 0))?;
    if row.window.image == image {
        Some(row)
    } else {
        None
    }
}

impl Windows {
    pub(crate) fn new(alloc: Global) -> Self
        ensures { result.windows ≡ [] }
    {
        Windows {
            rows: Sorted::new(alloc),
            made: 0,
        }
    }

    pub(crate) fn len(&self) -> usize
        ensures { result ≡ length self.now.windows }
    {
        self.rows.len()
    }

    // Makes room for one more.
    pub(crate) fn reserve(&mut self) -> Result<(), Memory>
        ensures room { OnOk result (0 < self.new.room) }
        ensures full { OnErr result (self.old.room ≡ 0) }
        ensures kept { self.new.windows ≡ self.old.windows }
        ensures more { self.old.room ≤ self.new.room }
    {
        if self.made == u64::MAX {
            return Err(Memory);
        }
        self.rows.reserve()
    }

    // The screen of the image's first window.
    pub(crate) fn screen_of(&self, image: u32) -> Option<u32>
        ensures { result ≡ option_map (λ w. w.screen) (find (λ w. w.image == image) self.now.windows) }
    {
        match first_of(&self.rows, image) {
            Some(row) => Some(row.window.screen),
            None => None,
        }
    }

    // There is room for it.
    pub(crate) fn push(&mut self, window: OnScreen)
        requires { 0 < self.old.room }
        ensures windows { self.new.windows ≡ self.old.windows ++ window ∷ [] }
        ensures room { self.old.room ≤ self.new.room + 1 }
    {
        let made = self.made;
        self.rows.put(WindowRow { window, made });
        self.made += 1;
    }

    // Takes out the image's first window.
    pub(crate) fn take(&mut self, image: u32) -> Option<OnScreen>
        ensures found { result ≡ find (λ w. w.image == image) self.old.windows }
        ensures others { filter (λ w. not (w.image == image)) self.new.windows ≡ filter (λ w. not (w.image == image)) self.old.windows }
        ensures kept { result ≡ None → self.new.windows ≡ self.old.windows }
        ensures none { result ≡ None → self.new.windows ≡ filter (λ w. not (w.image == image)) self.old.windows }
        ensures counts { IfSome result (λ w. (s : ℕ) → count_by (λ v. v.screen == s) self.old.windows ≡ cond (w.screen == s) 1 0 + count_by (λ v. v.screen == s) self.new.windows) }
        ensures less { IfSome result (λ _. length self.new.windows < length self.old.windows) }
        ensures room { self.old.room ≤ self.new.room }
    {
        let row = first_of(&self.rows, image)?;
        let _ = self.rows.remove(key_of_window(image, row.made));
        Some(row.window)
    }
}
