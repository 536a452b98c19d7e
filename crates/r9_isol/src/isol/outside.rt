//! Such a place as what sessions find outside themselves. Whichever number a session has, it is session 1 there.

ghost use Rattle.std.specs.Prelude.{refl};
ghost use Rattle.model_alone.specs.alone.Lone.{LoneDesktop, lone_desktop};
ghost use Rattle.model_draw.specs.draw.Memory.{MayRunOut};
ghost use Rattle.model_world.specs.Links.{IsLinked, KeepsOthers, is_connected};
ghost use Rattle.model_world.specs.Whole.{client};
ghost use Rattle.r9_isol.specs.isol.Laws.{answer_links, answers_otherwise, cleared_links, late_links, leave_leaves, refuses_otherwise};
ghost use Rattle.r9_isol.specs.isol.World.{desktop_of};

use crate::isol::desktop::Desktop;
use model_history::words::Size;
use r9_files::around::{Outside, Wrote};
use r9_files::files::{BAD_WCTL_COMMAND, Fault};
use r9_files::pane::Pane;
use r9_memory::Memory;
use r9_mouse::Mouse;
use r9_text::{Bytes, Numbers, push_number};
use r9_tree::{Attach, Node, TreeView};

impl Outside for Desktop {
    ghost State = { LoneDesktop };

    ghost state = { desktop_of };

    ghost outside = { λ _. lone_desktop };

    ghost has = { λ session connection desktop. is_connected desktop.device (client 1 connection) };

    ghost linked = { λ session made connections desktop. IsLinked 1 made connections desktop.device };

    ghost others = { λ session before after. KeepsOthers 1 before.device after.device };

    ghost wants = { λ session connection desktop bytes k. MayRunOut (client 1 connection) desktop.device bytes k };

    // What its messages are is not read again.
    ghost tells = { λ session connection desktop bytes mark told. Unit {0} };

    fn view(&self, connections: &Numbers, node: &Node) -> Result<TreeView, Memory> {
        Desktop::view(self, connections, node)
    }

    fn check_live(&self, connections: &Numbers, node: &Node) -> Result<(), u8> {
        Desktop::check_live(self, connections, node)
    }

    fn attach(&mut self, _session: u32, name: &Attach) -> Result<u32, Fault> {
        Desktop::attach(self, name)
    }

    // The window goes with the note that it is deleted.
    fn left(&mut self, _session: u32, _windows: &Numbers) -> Result<(), Memory> {
        Ok(())
    }

    fn pane(&self, window: u32) -> Option<&Pane> {
        Desktop::pane(self, window)
    }

    fn set_mouse_held(&mut self, window: u32, held: bool) {
        Desktop::set_mouse_held(self, window, held);
    }

    fn set_consctl_held(&mut self, window: u32, held: bool) {
        Desktop::set_consctl_held(self, window, held);
    }

    fn write_text(&mut self, window: u32, bytes: &[u8]) -> Result<(), Memory> {
        Desktop::write_text(self, window, bytes)
    }

    fn set_label(&mut self, window: u32, bytes: &[u8]) -> Result<(), Memory> {
        Desktop::set_label(self, window, bytes)
    }

    fn set_raw(&mut self, window: u32, raw: bool) -> Result<(), Memory> {
        Desktop::set_raw(self, window, raw)
    }

    fn read_mouse(&mut self, window: u32) -> Result<Option<Bytes>, Memory> {
        Desktop::read_mouse(self, window)
    }

    fn read_console(&mut self, window: u32, count: u32) -> Result<Option<Bytes>, Memory> {
        Desktop::read_console(self, window, count)
    }

    fn command(&mut self, window: u32, text: &[u8]) -> Result<(), Fault> {
        Desktop::command(self, window, text)
    }

    fn device_command(&mut self, _text: &[u8]) -> Result<(), Fault> {
        Err(Fault::Refused(BAD_WCTL_COMMAND))
    }

    // What the mouse does and what is typed comes with the notes.
    fn mouse(&mut self, _e: Mouse) -> Result<(), Memory> {
        Ok(())
    }

    fn keys(&mut self, _keys: Bytes) -> Result<(), Memory> {
        Ok(())
    }

    fn picture_part(&self, window: u32, offset: u64, count: u32) -> Result<Bytes, Memory> {
        Desktop::picture_part(self, window, offset, count)
    }

    // Of the display it finds nothing.
    fn size_text(&self) -> Result<Bytes, Memory> {
        let mut text = Bytes::new(self.alloc);
        push_number(&mut text, 0)?;
        push_number(&mut text, 0)?;
        Ok(text)
    }

    fn resize(&mut self, _size: Size) -> Result<(), Fault> {
        Ok(())
    }

    fn snarf(&self, _host: u32) -> &[u8] {
        &[]
    }

    fn set_snarf(&mut self, _host: u32, _contents: Bytes) {}

    fn connect(&mut self, _session: u32, connection: u32) -> Result<(), Memory> {
        Desktop::connect(self, connection)
    }

    fn leave(&mut self, _session: u32, connection: u32) -> Result<(), Memory> {
        Desktop::leave(self, connection)
    }

    fn write_data(
        &mut self,
        _session: u32,
        connection: u32,
        bytes: &[u8],
        mark: Option<u32>,
    ) -> Result<Wrote, Memory> {
        Desktop::write_data(self, connection, bytes, mark)
    }

    fn read_data(&mut self, _session: u32, connection: u32, most: u32) -> Result<Bytes, Fault> {
        Desktop::read_data(self, connection, most)
    }

    fn read_ctl(&self, _session: u32, connection: u32) -> Result<Bytes, Fault> {
        Desktop::read_ctl(self, connection)
    }

    fn write_ctl(&mut self, _session: u32, connection: u32, bytes: &[u8]) -> Result<(), Fault> {
        Desktop::write_ctl(self, connection, bytes)
    }

    ghost view_has = { λ c desktop connections node. refl };

    ghost linked_counts = { λ c made connections desktop linked. linked.counted };

    ghost linked_has = { λ c made connections desktop n linked few. linked.linked n few };

    ghost leave_leaves = { λ c. leave_leaves };

    ghost answer_links = { λ c. answer_links };

    ghost late_links = { λ c. late_links };

    ghost cleared_links = { λ c. cleared_links };

    ghost others_stay = { λ c desktop k other. refl };

    ghost refuses_otherwise = { λ c. refuses_otherwise };

    ghost answers_otherwise = { λ c. answers_otherwise };
}
