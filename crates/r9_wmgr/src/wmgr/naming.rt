//! The paths of windows and the names of their images.

ghost use Rattle.std.specs.Prelude.{◌≡◌, ◌≤◌, ◌++◌, ◌∷◌, ℕ, [], length, IfOk, OnOk};
ghost use Rattle.std.specs.List.{flat_map};
ghost use Rattle.model_rio.specs.rio.Table as model;
ghost use Rattle.r9_wmgr.specs.wmgr.Names.{slashed};

use crate::wmgr::manager::Manager;
use r9_memory::Memory;
use r9_text::{Bytes, push_decimal};

/// How deep rios are nested at most, counted from 1 for the root.
pub(crate) const DEEPEST: u32 = 9;

fn push_slashed(out: &mut Bytes, number: u32) -> Result<(), Memory>
    ensures { OnOk result (out.new ≡ out.old ++ slashed number) }
{
    push_decimal(out, u64::from(number))?;
    out.push(b'/')
}

impl Manager {
    // Adds the numbers from the root to a window, so many levels up, each with a slash behind it.
    fn push_path(&self, out: &mut Bytes, levels: u32, serial: u32) -> Result<(), Memory>
        ensures { OnOk result (out.new ≡ out.old ++ flat_map slashed (model.path_up levels self.now serial)) }
    {
        if levels == 0 {
            return Ok(());
        }
        let Some(w) = self.window_of(serial) else {
            return Ok(());
        };
        self.push_path(out, levels - 1, w.host)?;
        push_slashed(out, w.number)
    }

    /// The name of the image of the window with a number in the rio of a host. It is written in one piece of memory.
    pub(crate) fn name_of(&self, host: u32, number: u32, generation: u64) -> Result<Bytes, Memory>
        ensures { IfOk result (λ name. name ≡ model.name_by (model.path_of self.now host ++ number ∷ []) generation) }
    {
        let mut name = Bytes::new(self.alloc);
        name.push_all(b"window.")?;
        self.push_path(&mut name, DEEPEST, host)?;
        push_decimal(&mut name, u64::from(number))?;
        name.push(b'.')?;
        push_decimal(&mut name, generation)?;
        Ok(name)
    }

    // How many numbers there are from the root to a window, so many levels up.
    fn count_up(&self, levels: u32, serial: u32) -> u32
        ensures value { result ≡ length (model.path_up levels self.now serial) }
        ensures few { result ≤ levels }
    {
        if levels == 0 {
            return 0;
        }
        match self.window_of(serial) {
            Some(w) => self.count_up(levels - 1, w.host) + 1,
            None => 0,
        }
    }

    /// How many numbers there are from the root to a window.
    pub(crate) fn nesting(&self, serial: u32) -> u32
        ensures value { result ≡ length (model.path_of self.now serial) }
        ensures few { result ≤ 9 }
    {
        self.count_up(DEEPEST, serial)
    }

    /// How many numbers there are from the root to a window in the rio of a host.
    pub(crate) fn depth_in(&self, host: u32) -> u32
        ensures { (number : ℕ) → result ≡ length (model.path_of self.now host ++ number ∷ []) }
    {
        self.nesting(host) + 1
    }
}
