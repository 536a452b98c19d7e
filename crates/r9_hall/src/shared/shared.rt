//! A desktop in the middle of a turn as what sessions find outside themselves.

ghost use Rattle.std.specs.Prelude.{◌≡◌, refl};
ghost use Rattle.std.specs.Borrow.{GName};
ghost use Rattle.model_world.specs.Cut.{wants_for};
ghost use Rattle.model_world.specs.Desktop as model;
ghost use Rattle.model_world.specs.Links.{IsLinked, KeepsOthers, is_connected};
ghost use Rattle.model_world.specs.Whole.{client, desktop_for};
ghost use Rattle.r9_desktop.specs.Marks.{Display};
ghost use Rattle.r9_desktop.specs.World.{began_of, desktop_of};
ghost use Rattle.r9_desktop.specs.Words.{tells_for};
ghost use Rattle.r9_desktop.specs.Laws.{answer_links, answers_otherwise, cleared_links, late_links, leave_leaves, refuses_otherwise, view_has};

use model_history::words::Size;
use r9_desktop::Desktop;
use r9_files::around::{Outside, Wrote};
use r9_files::files::Fault;
use r9_files::pane::Pane;
use r9_memory::Memory;
use r9_mouse::Mouse;
use r9_text::{Bytes, Numbers};
use r9_tree::{Attach, Node, TreeView};
use std::marker::{Brand, PhantomData};

/// What the display was when the turn began, of the desktop of a name. No code reads it.
pub(crate) trait Begun {
    ghost began: { Display };

    ghost name: { GName };
}

impl Begun for Brand {
    ghost use Rattle.r9_hall.specs.shared.Nothing.{no_display};

    ghost began = { no_display };

    ghost name = { 0 };
}

/// A desktop that is lent.
#[derive(Drop)]
pub(crate) struct Lent<'a> {
    pub(crate) desktop: &'a mut Desktop,
}

/// A desktop that is lent, in a turn that began so.
#[derive(Drop)]
pub(crate) struct Shared<'a, B: Begun> {
    pub(crate) desktop: &'a mut Desktop,
    pub(crate) of: PhantomData<B>,
    ghost same: { desktop.ghost_name ≡ B.name },
    ghost begun: { began_of desktop.now ≡ B.began },
}

impl<'a, B: Begun> Outside for Shared<'a, B> {
    ghost State = { model.Desktop };

    ghost state = { λ shared. desktop_of shared.desktop.now };

    ghost outside = { desktop_for };

    ghost has = { λ session connection desktop. is_connected desktop.device (client session connection) };

    ghost linked = { λ session made connections desktop. IsLinked session made connections desktop.device };

    ghost others = { λ session before after. KeepsOthers session before.device after.device };

    ghost wants = { wants_for };

    ghost tells = { tells_for };

    fn view(&self, connections: &Numbers, node: &Node) -> Result<TreeView, Memory> {
        self.desktop.view(connections, node)
    }

    fn check_live(&self, connections: &Numbers, node: &Node) -> Result<(), u8> {
        self.desktop.check_live(connections, node)
    }

    fn attach(&mut self, session: u32, name: &Attach) -> Result<u32, Fault> {
        self.desktop.attach(session, name)
    }

    fn left(&mut self, session: u32, windows: &Numbers) -> Result<(), Memory> {
        self.desktop.left(session, windows)
    }

    fn pane(&self, window: u32) -> Option<&Pane> {
        self.desktop.pane(window)
    }

    fn set_mouse_held(&mut self, window: u32, held: bool) {
        self.desktop.set_mouse_held(window, held);
    }

    fn set_consctl_held(&mut self, window: u32, held: bool) {
        self.desktop.set_consctl_held(window, held);
    }

    fn write_text(&mut self, window: u32, bytes: &[u8]) -> Result<(), Memory> {
        self.desktop.write_text(window, bytes)
    }

    fn set_label(&mut self, window: u32, bytes: &[u8]) -> Result<(), Memory> {
        self.desktop.set_label(window, bytes)
    }

    fn set_raw(&mut self, window: u32, raw: bool) -> Result<(), Memory> {
        self.desktop.set_raw(window, raw)
    }

    fn read_mouse(&mut self, window: u32) -> Result<Option<Bytes>, Memory> {
        self.desktop.read_mouse(window)
    }

    fn read_console(&mut self, window: u32, count: u32) -> Result<Option<Bytes>, Memory> {
        self.desktop.read_console(window, count)
    }

    fn command(&mut self, window: u32, text: &[u8]) -> Result<(), Fault> {
        self.desktop.command(window, text)
    }

    fn device_command(&mut self, text: &[u8]) -> Result<(), Fault> {
        self.desktop.device_command(text)
    }

    fn mouse(&mut self, e: Mouse) -> Result<(), Memory> {
        self.desktop.mouse(e)
    }

    fn keys(&mut self, keys: Bytes) -> Result<(), Memory> {
        self.desktop.keys(keys)
    }

    fn picture_part(&self, window: u32, offset: u64, count: u32) -> Result<Bytes, Memory> {
        self.desktop.picture_part(window, offset, count)
    }

    fn size_text(&self) -> Result<Bytes, Memory> {
        self.desktop.size_text()
    }

    fn resize(&mut self, size: Size) -> Result<(), Fault> {
        self.desktop.resize(size)
    }

    fn snarf(&self, host: u32) -> &[u8] {
        self.desktop.snarf(host)
    }

    fn set_snarf(&mut self, host: u32, contents: Bytes) {
        self.desktop.set_snarf(host, contents);
    }

    fn connect(&mut self, session: u32, connection: u32) -> Result<(), Memory> {
        self.desktop.connect(session, connection)
    }

    fn leave(&mut self, session: u32, connection: u32) -> Result<(), Memory> {
        self.desktop.leave(session, connection)
    }

    fn write_data(
        &mut self,
        session: u32,
        connection: u32,
        bytes: &[u8],
        mark: Option<u32>,
    ) -> Result<Wrote, Memory> {
        self.desktop.write_data(session, connection, bytes, mark)
    }

    fn read_data(&mut self, session: u32, connection: u32, most: u32) -> Result<Bytes, Fault> {
        self.desktop.read_data(session, connection, most)
    }

    fn read_ctl(&self, session: u32, connection: u32) -> Result<Bytes, Fault> {
        self.desktop.read_ctl(session, connection)
    }

    fn write_ctl(&mut self, session: u32, connection: u32, bytes: &[u8]) -> Result<(), Fault> {
        self.desktop.write_ctl(session, connection, bytes)
    }

    ghost view_has = { view_has };

    ghost linked_counts = { λ c made connections desktop linked. linked.counted };

    ghost linked_has = { λ c made connections desktop n linked few. linked.linked n few };

    ghost leave_leaves = { leave_leaves };

    ghost answer_links = { answer_links };

    ghost late_links = { late_links };

    ghost cleared_links = { cleared_links };

    ghost others_stay = { λ c desktop k other. refl };

    ghost refuses_otherwise = { refuses_otherwise };

    ghost answers_otherwise = { answers_otherwise };
}
