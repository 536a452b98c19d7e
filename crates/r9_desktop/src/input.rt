//! What the mouse does and what is typed (rio(4)), and what windows have of it to be read.

ghost use Rattle.std.specs.Prelude.{◌≡◌, ◌≤◌, length, IfOk, IfSome, IfNone, OnOk, OnErr};
ghost use Rattle.std.specs.Str.{IsUtf8};
ghost use Rattle.model_files.specs.mouse.Queue.{answer_text};
ghost use Rattle.model_files.specs.console.Console as console;
ghost use Rattle.model_rio.specs.window.Heard.{ConsctlHeld, ConsoleRead, MouseHeld, MouseRead, Raw, Written};
ghost use Rattle.model_world.specs.Desktop.{pane_of};
ghost use Rattle.model_world.specs.Whole.{desktop_for, moused, typed};
ghost use Rattle.r9_desktop.specs.World.{began_of, desktop_of};

use crate::desktop::Desktop;
use crate::hearing::{
    read_console, read_mouse, set_consctl_held, set_mouse_held, set_raw, write_text,
};
use r9_memory::Memory;
use r9_mouse::Mouse;
use r9_text::Bytes;
use r9_wmgr::wmgr::Act;

impl Desktop {
    /// The mouse does something, at a point in pixels of the display, where it was last then. Nothing is said of the desktop where memory
    /// ran out.
    #[tactic(auto, unfolding(crate::specs::World::desktop_of, crate::specs::World::began_of, model_world::specs::Whole::moused))]
    pub fn mouse(&mut self, e: Mouse) -> Result<(), Memory>
        ensures heard { OnOk result (desktop_of self.new ≡ moused (desktop_of self.old) e) }
        ensures began { began_of self.new ≡ began_of self.old }
    {
        self.step_if(Act::Mouse(e))?;
        self.pointed = Some(e);
        Ok(())
    }

    /// Characters are typed. Nothing is said of the desktop where memory ran out.
    #[tactic(auto, unfolding(crate::specs::World::desktop_of, crate::specs::World::began_of, model_world::specs::Whole::typed))]
    pub fn keys(&mut self, keys: Bytes) -> Result<(), Memory>
        requires { IsUtf8 keys }
        ensures heard { OnOk result (desktop_of self.new ≡ typed (desktop_of self.old) keys) }
        ensures began { began_of self.new ≡ began_of self.old }
    {
        self.step_if(Act::Keys(keys))
    }

    /// Bytes are written to a window's `cons`. After Memory all is as before.
    #[tactic(auto, unfolding(crate::specs::World::desktop_of, crate::specs::World::began_of))]
    pub fn write_text(&mut self, window: u32, bytes: &[u8]) -> Result<(), Memory>
        ensures written { OnOk result (desktop_of self.new ≡ (desktop_for 0).hear (desktop_of self.old) window (Written bytes.now)) }
        ensures kept { OnErr result (desktop_of self.new ≡ desktop_of self.old) }
        ensures began { began_of self.new ≡ began_of self.old }
    {
        write_text(&mut self.panes, window, bytes)
    }

    /// Keys are given raw in a window from now on, or not. After Memory all is as before.
    #[tactic(auto, unfolding(crate::specs::World::desktop_of, crate::specs::World::began_of))]
    pub fn set_raw(&mut self, window: u32, raw: bool) -> Result<(), Memory>
        ensures set { OnOk result (desktop_of self.new ≡ (desktop_for 0).hear (desktop_of self.old) window (Raw raw)) }
        ensures kept { OnErr result (desktop_of self.new ≡ desktop_of self.old) }
        ensures began { began_of self.new ≡ began_of self.old }
    {
        set_raw(&mut self.panes, window, raw)
    }

    /// Some fid has a window's `mouse` open from now on, or none has it any more.
    #[tactic(auto, unfolding(crate::specs::World::desktop_of, crate::specs::World::began_of))]
    pub fn set_mouse_held(&mut self, window: u32, held: bool)
        ensures held { desktop_of self.new ≡ (desktop_for 0).hear (desktop_of self.old) window (MouseHeld held) }
        ensures began { began_of self.new ≡ began_of self.old }
    {
        set_mouse_held(&mut self.panes, window, held);
    }

    /// Some fid has a window's `consctl` open from now on, or none has it any more, and then lines are edited again.
    #[tactic(auto, unfolding(crate::specs::World::desktop_of, crate::specs::World::began_of))]
    pub fn set_consctl_held(&mut self, window: u32, held: bool)
        ensures held { desktop_of self.new ≡ (desktop_for 0).hear (desktop_of self.old) window (ConsctlHeld held) }
        ensures began { began_of self.new ≡ began_of self.old }
    {
        set_consctl_held(&mut self.panes, window, held);
    }

    /// What a read of a window's `mouse` gives: 49 bytes of an event, which then waits no longer. None exactly where the read
    /// waits, which takes no memory. After Memory all is as before.
    #[tactic(auto, unfolding(crate::specs::World::desktop_of, crate::specs::World::began_of))]
    pub fn read_mouse(&mut self, window: u32) -> Result<Option<Bytes>, Memory>
        ensures gives { IfOk result (λ given. given ≡ answer_text (pane_of (desktop_of self.old).panes window).mouse) }
        ensures takes { IfOk result (λ given. IfSome given (λ _. desktop_of self.new ≡ (desktop_for 0).hear (desktop_of self.old) window MouseRead)) }
        ensures leaves { IfOk result (λ given. IfNone given (desktop_of self.new ≡ desktop_of self.old)) }
        ensures kept { OnErr result (desktop_of self.new ≡ desktop_of self.old) }
        ensures short { IfOk result (λ given. IfSome given (λ bytes. length bytes ≤ 128)) }
        ensures began { began_of self.new ≡ began_of self.old }
    {
        read_mouse(&mut self.panes, window)
    }

    /// What a read of so many bytes of a window's `cons` gives: at most that many of the oldest line that has ended. None exactly
    /// where the read waits, which takes no memory. After Memory all is as before.
    #[tactic(auto, unfolding(crate::specs::World::desktop_of, crate::specs::World::began_of))]
    pub fn read_console(&mut self, window: u32, count: u32) -> Result<Option<Bytes>, Memory>
        ensures gives { IfOk result (λ given. given ≡ console.read count (pane_of (desktop_of self.old).panes window).console) }
        ensures takes { IfOk result (λ given. IfSome given (λ _. desktop_of self.new ≡ (desktop_for 0).hear (desktop_of self.old) window (ConsoleRead count))) }
        ensures leaves { IfOk result (λ given. IfNone given (desktop_of self.new ≡ desktop_of self.old)) }
        ensures kept { OnErr result (desktop_of self.new ≡ desktop_of self.old) }
        ensures short { IfOk result (λ given. IfSome given (λ bytes. length bytes ≤ count)) }
        ensures began { began_of self.new ≡ began_of self.old }
    {
        read_console(self.alloc, &mut self.panes, window, count)
    }
}
