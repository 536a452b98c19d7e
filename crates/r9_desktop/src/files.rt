//! What the files of windows and rios have (rio(4)).

ghost use Rattle.std.specs.Prelude.{◌≡◌, ◌≤◌, [], length, IfOk, OnOk, OnErr};
ghost use Rattle.std.specs.Option.{option_copied, unwrap_or};
ghost use Rattle.model_text.specs.text.Map.{lookup};
ghost use Rattle.model_draw.specs.imgfile.ImageFile.{file_part};
ghost use Rattle.model_draw.specs.draw.Orders.{picture_of};
ghost use Rattle.model_rio.specs.window.Heard.{Labelled};
ghost use Rattle.model_world.specs.Whole.{desktop_for};
ghost use Rattle.r9_desktop.specs.World.{began_of, desktop_of};

use crate::desktop::Desktop;
use crate::telling::set_label;
use r9_draw::draw::Shown;
use r9_files::pane::Pane;
use r9_memory::Memory;
use r9_text::Bytes;

impl Desktop {
    /// What the files of a live window have.
    #[tactic(auto, unfolding(crate::specs::World::desktop_of))]
    pub fn pane(&self, window: u32) -> Option<&Pane>
        ensures { option_copied result ≡ lookup (desktop_of self.now).panes window }
    {
        self.panes.get(&window)
    }

    /// Bytes are written to a window's `label`. After Memory all is as before.
    #[tactic(auto, unfolding(crate::specs::World::desktop_of, crate::specs::World::began_of))]
    pub fn set_label(&mut self, window: u32, bytes: &[u8]) -> Result<(), Memory>
        ensures labelled { OnOk result (desktop_of self.new ≡ (desktop_for 0).hear (desktop_of self.old) window (Labelled bytes.now)) }
        ensures kept { OnErr result (desktop_of self.new ≡ desktop_of self.old) }
        ensures began { began_of self.new ≡ began_of self.old }
    {
        set_label(&mut self.panes, window, bytes)
    }

    /// The bytes of a window's image file from an offset on, at most `count`; for 0 those of the display's. No more rows are put
    /// together than hold one of them.
    #[tactic(auto, unfolding(crate::specs::World::desktop_of))]
    pub fn picture_part(&self, window: u32, offset: u64, count: u32) -> Result<Bytes, Memory>
        ensures part { IfOk result (λ bytes. bytes ≡ file_part (picture_of (desktop_of self.now).device window) offset count) }
        ensures short { IfOk result (λ bytes. length bytes ≤ count) }
    {
        self.device
            .picture_part(Shown::Window(window), offset, count)
    }

    /// The text that was cut last in the rio of a host.
    #[tactic(auto, unfolding(crate::specs::World::desktop_of))]
    pub fn snarf(&self, host: u32) -> &[u8]
        ensures { result.now ≡ unwrap_or (lookup (desktop_of self.now).snarfs host) [] }
    {
        match self.snarfs.get(&host) {
            Some(bytes) => bytes.as_slice(),
            None => &[],
        }
    }

    /// Another text is the snarf of the rio of a host.
    #[tactic(auto, unfolding(crate::specs::World::desktop_of, crate::specs::World::began_of))]
    pub fn set_snarf(&mut self, host: u32, contents: Bytes)
        ensures snarf { desktop_of self.new ≡ (desktop_for 0).with_snarf (desktop_of self.old) host contents }
        ensures began { began_of self.new ≡ began_of self.old }
    {
        if let Some(held) = self.snarfs.get_mut(&host) {
            *held = contents;
        }
    }
}
