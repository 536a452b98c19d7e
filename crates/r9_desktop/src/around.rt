//! A desktop as what sessions find outside themselves.

ghost use Rattle.std.specs.Prelude.{refl};
ghost use Rattle.model_world.specs.Cut.{wants_for};
ghost use Rattle.model_world.specs.Desktop as model;
ghost use Rattle.model_world.specs.Links.{IsLinked, KeepsOthers, is_connected};
ghost use Rattle.model_world.specs.Whole.{client, desktop_for};
ghost use Rattle.r9_desktop.specs.World.{desktop_of};
ghost use Rattle.r9_desktop.specs.Words.{tells_for};
ghost use Rattle.r9_desktop.specs.Laws.{answer_links, answers_otherwise, cleared_links, late_links, leave_leaves, refuses_otherwise, view_has};

use crate::desktop::Desktop;
use model_history::words::Size;
use r9_files::around::{Outside, Wrote};
use r9_files::files::Fault;
use r9_files::pane::Pane;
use r9_memory::Memory;
use r9_mouse::Mouse;
use r9_text::{Bytes, Numbers};
use r9_tree::{Attach, Node, TreeView};

impl Outside for Desktop {
    ghost State = { model.Desktop };

    ghost state = { desktop_of };

    ghost outside = { desktop_for };

    ghost has = { λ session connection desktop. is_connected desktop.device (client session connection) };

    ghost linked = { λ session made connections desktop. IsLinked session made connections desktop.device };

    ghost others = { λ session before after. KeepsOthers session before.device after.device };

    ghost wants = { wants_for };

    ghost tells = { tells_for };

    fn view(&self, connections: &Numbers, node: &Node) -> Result<TreeView, Memory> {
        Desktop::view(self, connections, node)
    }

    fn check_live(&self, connections: &Numbers, node: &Node) -> Result<(), u8> {
        Desktop::check_live(self, connections, node)
    }

    fn attach(&mut self, session: u32, name: &Attach) -> Result<u32, Fault> {
        Desktop::attach(self, session, name)
    }

    fn left(&mut self, session: u32, windows: &Numbers) -> Result<(), Memory> {
        Desktop::left(self, session, windows)
    }

    fn pane(&self, window: u32) -> Option<&Pane> {
        Desktop::pane(self, window)
    }

    fn set_mouse_held(&mut self, window: u32, held: bool) {
        Desktop::set_mouse_held(self, window, held);
    }

    fn set_consctl_held(&mut self, window: u32, held: bool) {
        Desktop::set_consctl_held(self, window, held);
    }

    fn write_text(&mut self, window: u32, bytes: &[u8]) -> Result<(), Memory> {
        Desktop::write_text(self, window, bytes)
    }

    fn set_label(&mut self, window: u32, bytes: &[u8]) -> Result<(), Memory> {
        Desktop::set_label(self, window, bytes)
    }

    fn set_raw(&mut self, window: u32, raw: bool) -> Result<(), Memory> {
        Desktop::set_raw(self, window, raw)
    }

    fn read_mouse(&mut self, window: u32) -> Result<Option<Bytes>, Memory> {
        Desktop::read_mouse(self, window)
    }

    fn read_console(&mut self, window: u32, count: u32) -> Result<Option<Bytes>, Memory> {
        Desktop::read_console(self, window, count)
    }

    fn command(&mut self, window: u32, text: &[u8]) -> Result<(), Fault> {
        Desktop::command(self, window, text)
    }

    fn device_command(&mut self, text: &[u8]) -> Result<(), Fault> {
        Desktop::device_command(self, text)
    }

    fn mouse(&mut self, e: Mouse) -> Result<(), Memory> {
        Desktop::mouse(self, e)
    }

    fn keys(&mut self, keys: Bytes) -> Result<(), Memory> {
        Desktop::keys(self, keys)
    }

    fn picture_part(&self, window: u32, offset: u64, count: u32) -> Result<Bytes, Memory> {
        Desktop::picture_part(self, window, offset, count)
    }

    fn size_text(&self) -> Result<Bytes, Memory> {
        Desktop::size_text(self)
    }

    fn resize(&mut self, size: Size) -> Result<(), Fault> {
        Desktop::resize(self, size)
    }

    fn snarf(&self, host: u32) -> &[u8] {
        Desktop::snarf(self, host)
    }

    fn set_snarf(&mut self, host: u32, contents: Bytes) {
        Desktop::set_snarf(self, host, contents);
    }

    fn connect(&mut self, session: u32, connection: u32) -> Result<(), Memory> {
        Desktop::connect(self, session, connection)
    }

    fn leave(&mut self, session: u32, connection: u32) -> Result<(), Memory> {
        Desktop::leave(self, session, connection)
    }

    fn write_data(
        &mut self,
        session: u32,
        connection: u32,
        bytes: &[u8],
        mark: Option<u32>,
    ) -> Result<Wrote, Memory> {
        Desktop::write_data(self, session, connection, bytes, mark)
    }

    fn read_data(&mut self, session: u32, connection: u32, most: u32) -> Result<Bytes, Fault> {
        Desktop::read_data(self, session, connection, most)
    }

    fn read_ctl(&self, session: u32, connection: u32) -> Result<Bytes, Fault> {
        Desktop::read_ctl(self, session, connection)
    }

    fn write_ctl(&mut self, session: u32, connection: u32, bytes: &[u8]) -> Result<(), Fault> {
        Desktop::write_ctl(self, session, connection, bytes)
    }

    ghost view_has = { view_has };

    ghost linked_counts = { λ c made connections desktop linked. linked.counted };

    ghost linked_has = { λ c made connections desktop n linked few. linked.linked n few };

    ghost leave_leaves = { leave_leaves };

    ghost answer_links = { answer_links };

    ghost late_links = { late_links };

    ghost cleared_links = { cleared_links };

    ghost others_stay = { λ c desktop k other. refl };

    ghost refuses_otherwise = { refuses_otherwise };

    ghost answers_otherwise = { answers_otherwise };
}
