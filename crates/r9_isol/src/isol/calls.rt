//! The session's window and its files (rio(4)).

ghost use Rattle.std.specs.Prelude.{◌≡◌, ◌≤◌, [], All, length, false, IfErr, IfNone, IfOk, IfSome, OnErr, OnOk, Ok, Err};
ghost use Rattle.std.specs.Option.{option_copied, unwrap_or};
ghost use Rattle.model_alone.specs.alone.Lone.{is_window, lone_desktop, refused_by_rectangle};
ghost use Rattle.model_files.specs.console.Console as console;
ghost use Rattle.model_draw.specs.imgfile.ImageFile.{file_part};
ghost use Rattle.model_files.specs.mouse.Queue.{answer_text};
ghost use Rattle.model_files.specs.tree.Tree.{check_live};
ghost use Rattle.model_files.specs.wctl.Reading.{command_of};
ghost use Rattle.model_rio.specs.window.Heard.{ConsctlHeld, ConsoleRead, Labelled, MouseHeld, MouseRead, Raw, Written};
ghost use Rattle.model_rio.specs.window.Pane.{new_pane};
ghost use Rattle.r9_files.specs.around.Words.{IfRefused};
ghost use Rattle.r9_isol.specs.isol.World.{desktop_of, parts_of};
ghost use Rattle.r9_tree.specs.Attached.{attach_of_code};
ghost use Rattle.r9_wctl.specs.wctl.Values.{wctl_of};
ghost use Rattle.r9_tree.specs.View.{node_of, view_of, most_connections, IsNode, IsView};

use crate::isol::desktop::Desktop;
use r9_draw::draw::Shown;
use r9_files::files::{BAD_WCTL_COMMAND, Fault, UNKNOWN_ATTACH};
use r9_files::pane::Pane;
use r9_geom::{Point, Rect};
use r9_memory::Memory;
use r9_text::{Bytes, Numbers};
use r9_tree::{Attach, Node, TreeView, is_ended};
use r9_wctl::wctl::{Wctl, WctlFault, apply, read_wctl};

/// What a window that is not there has for its rectangle.
const NOWHERE: Rect = Rect {
    min: Point { x: 0, y: 0 },
    max: Point { x: 0, y: 0 },
};

/// The number of the refusal "window deleted".
const WINDOW_DELETED: u8 = 42;

/// The number of the refusal "file does not exist".
const NO_SUCH_FILE: u8 = 34;

impl Desktop {
    /// Whether the window of a serial lives.
    fn is_window(&self, serial: u32) -> bool
        ensures { result ≡ is_window (parts_of self.now) serial }
    {
        match &self.window {
            Some(window) => window.serial == serial,
            None => false,
        }
    }

    /// What walks and listings of a file depend on, where the session has these connections.
    #[tactic(auto, unfolding(crate::specs::isol::World::desktop_of))]
    pub(crate) fn view(&self, connections: &Numbers, node: &Node) -> Result<TreeView, Memory>
        requires within { All (λ n. n ≤ most_connections) connections.now }
        requires node { IsNode node.now }
        ensures is { IfOk result (λ view. view_of view ≡ lone_desktop.view (desktop_of self.now) connections.now (node_of node.now)) }
        ensures view { IfOk result IsView }
    {
        Ok(TreeView {
            connections: connections.try_clone(self.alloc)?,
            host: 0,
            numbers: Numbers::new(self.alloc),
            serials: Numbers::new(self.alloc),
            live: self.is_window(node.serial),
        })
    }

    /// Whether a file's window and its connection live, where it has one: refused by 42 exactly where its window is gone, and else
    /// by 34 exactly where its connection is.
    #[tactic(auto, unfolding(crate::specs::isol::World::desktop_of, model_files::specs::tree::Tree::check_live))]
    pub(crate) fn check_live(&self, connections: &Numbers, node: &Node) -> Result<(), u8>
        requires { IsNode node.now }
        ensures lives { OnOk result (check_live (lone_desktop.view (desktop_of self.now) connections.now (node_of node.now)) (node_of node.now) ≡ Ok tt) }
        ensures refused { IfErr result (λ n. check_live (lone_desktop.view (desktop_of self.now) connections.now (node_of node.now)) (node_of node.now) ≡ Err n) }
    {
        if node.serial != 0 && !self.is_window(node.serial) {
            return Err(WINDOW_DELETED);
        }
        if is_ended(node, connections) {
            return Err(NO_SUCH_FILE);
        }
        Ok(())
    }

    /// The serial of the window that is made in this step, where an attach asks for a new one. Refused by 41 exactly where it asks
    /// for another tree, or none is made.
    #[tactic(auto, unfolding(crate::specs::isol::World::desktop_of))]
    pub(crate) fn attach(&self, name: &Attach) -> Result<u32, Fault>
        ensures attached { IfOk result (λ window. lone_desktop.attached (desktop_of self.now) (attach_of_code name.now) ≡ Ok (desktop_of self.now, window)) }
        ensures refused { IfErr result (λ f. IfRefused f (λ n. lone_desktop.attached (desktop_of self.now) (attach_of_code name.now) ≡ Err n)) }
    {
        match (name, self.made) {
            (Attach::New { .. }, Some(serial)) => Ok(serial),
            _ => Err(Fault::Refused(UNKNOWN_ATTACH)),
        }
    }

    /// What the files of a live window have.
    #[tactic(auto, unfolding(crate::specs::isol::World::desktop_of))]
    pub(crate) fn pane(&self, serial: u32) -> Option<&Pane>
        ensures { lone_desktop.pane (desktop_of self.now) serial ≡ unwrap_or (option_copied result) new_pane }
    {
        match &self.window {
            Some(window) if window.serial == serial => Some(&window.pane),
            _ => None,
        }
    }

    /// Some fid has the window's `mouse` open from now on, or none has it any more.
    #[tactic(auto, unfolding(crate::specs::isol::World::desktop_of))]
    pub(crate) fn set_mouse_held(&mut self, serial: u32, held: bool)
        ensures { desktop_of self.new ≡ lone_desktop.hear (desktop_of self.old) serial (MouseHeld held) }
    {
        match &mut self.window {
            Some(window) if window.serial == serial => window.pane.set_mouse_held(held),
            _ => {}
        }
    }

    /// The same of its `consctl`; where none has it any more, lines are edited again.
    #[tactic(auto, unfolding(crate::specs::isol::World::desktop_of))]
    pub(crate) fn set_consctl_held(&mut self, serial: u32, held: bool)
        ensures { desktop_of self.new ≡ lone_desktop.hear (desktop_of self.old) serial (ConsctlHeld held) }
    {
        match &mut self.window {
            Some(window) if window.serial == serial => window.pane.set_consctl_held(held),
            _ => {}
        }
    }

    /// Bytes are written to the window's `cons`. After Memory all is as before.
    #[tactic(auto, unfolding(crate::specs::isol::World::desktop_of))]
    pub(crate) fn write_text(&mut self, serial: u32, bytes: &[u8]) -> Result<(), Memory>
        ensures done { OnOk result (desktop_of self.new ≡ lone_desktop.hear (desktop_of self.old) serial (Written bytes.now)) }
        ensures kept { OnErr result (desktop_of self.new ≡ desktop_of self.old) }
    {
        match &mut self.window {
            Some(window) if window.serial == serial => window.pane.write_text(bytes),
            _ => Ok(()),
        }
    }

    /// Bytes are written to the window's `label`. After Memory all is as before.
    #[tactic(auto, unfolding(crate::specs::isol::World::desktop_of))]
    pub(crate) fn set_label(&mut self, serial: u32, bytes: &[u8]) -> Result<(), Memory>
        ensures done { OnOk result (desktop_of self.new ≡ lone_desktop.hear (desktop_of self.old) serial (Labelled bytes.now)) }
        ensures kept { OnErr result (desktop_of self.new ≡ desktop_of self.old) }
    {
        match &mut self.window {
            Some(window) if window.serial == serial => window.pane.set_label(bytes),
            _ => Ok(()),
        }
    }

    /// Keys are given raw in the window from now on, or not. After Memory all is as before.
    #[tactic(auto, unfolding(crate::specs::isol::World::desktop_of))]
    pub(crate) fn set_raw(&mut self, serial: u32, raw: bool) -> Result<(), Memory>
        ensures done { OnOk result (desktop_of self.new ≡ lone_desktop.hear (desktop_of self.old) serial (Raw raw)) }
        ensures kept { OnErr result (desktop_of self.new ≡ desktop_of self.old) }
    {
        match &mut self.window {
            Some(window) if window.serial == serial => window.pane.set_raw(raw),
            _ => Ok(()),
        }
    }

    /// What a read of the window's `mouse` gives: 49 bytes of an event, which then waits no longer. None exactly where the read waits.
    /// After Memory all is as before.
    #[tactic(auto, unfolding(crate::specs::isol::World::desktop_of))]
    pub(crate) fn read_mouse(&mut self, serial: u32) -> Result<Option<Bytes>, Memory>
        ensures gives { IfOk result (λ given. given ≡ answer_text (lone_desktop.pane (desktop_of self.old) serial).mouse) }
        ensures takes { IfOk result (λ given. IfSome given (λ _. desktop_of self.new ≡ lone_desktop.hear (desktop_of self.old) serial MouseRead)) }
        ensures leaves { IfOk result (λ given. IfNone given (desktop_of self.new ≡ desktop_of self.old)) }
        ensures kept { OnErr result (desktop_of self.new ≡ desktop_of self.old) }
        ensures short { IfOk result (λ given. IfSome given (λ bytes. length bytes ≤ 128)) }
    {
        match &mut self.window {
            Some(window) if window.serial == serial => window.pane.read_mouse(),
            _ => Ok(None),
        }
    }

    /// What a read of so many bytes of the window's `cons` gives: at most that many of the oldest line that has ended. None exactly
    /// where the read waits. After Memory all is as before.
    #[tactic(auto, unfolding(crate::specs::isol::World::desktop_of))]
    pub(crate) fn read_console(&mut self, serial: u32, count: u32) -> Result<Option<Bytes>, Memory>
        ensures gives { IfOk result (λ given. given ≡ console.read count (lone_desktop.pane (desktop_of self.old) serial).console) }
        ensures takes { IfOk result (λ given. IfSome given (λ _. desktop_of self.new ≡ lone_desktop.hear (desktop_of self.old) serial (ConsoleRead count))) }
        ensures leaves { IfOk result (λ given. IfNone given (desktop_of self.new ≡ desktop_of self.old)) }
        ensures kept { OnErr result (desktop_of self.new ≡ desktop_of self.old) }
        ensures short { IfOk result (λ given. IfSome given (λ bytes. length bytes ≤ count)) }
    {
        match &mut self.window {
            Some(window) if window.serial == serial => window.pane.read_console(count),
            _ if count == 0 => Ok(Some(Bytes::new(self.alloc))),
            _ => Ok(None),
        }
    }

    /// Whether a command is refused by the rectangle that it makes of the window's.
    #[tactic(auto, unfolding(crate::specs::isol::World::desktop_of))]
    fn check_rectangle(&self, serial: u32, what: &Wctl) -> Result<(), u8>
        ensures done { OnOk result (refused_by_rectangle (desktop_of self.now) serial (wctl_of what.now) ≡ Ok (desktop_of self.now)) }
        ensures refused { IfErr result (λ n. refused_by_rectangle (desktop_of self.now) serial (wctl_of what.now) ≡ Err n) }
    {
        let start = match self.pane(serial) {
            Some(pane) => pane.rect(),
            None => NOWHERE,
        };
        match what {
            Wctl::Resize(options) => {
                apply(options, start, false)?;
            }
            Wctl::Move(options) => {
                apply(options, start, true)?;
            }
            _ => {}
        }
        Ok(())
    }

    /// Refuses a command to the window by its text, and by the rectangle that it makes. What it does comes with the notes.
    #[tactic(auto, unfolding(crate::specs::isol::World::desktop_of, model_alone::specs::alone::Lone::commanded_alone))]
    pub(crate) fn command(&self, serial: u32, text: &[u8]) -> Result<(), Fault>
        ensures done { OnOk result (lone_desktop.command (desktop_of self.now) serial text.now ≡ Ok (desktop_of self.now)) }
        ensures refused { IfErr result (λ f. IfRefused f (λ n. lone_desktop.command (desktop_of self.now) serial text.now ≡ Err n)) }
    {
        let command = match read_wctl(self.alloc, text, false) {
            Ok(command) => command,
            Err(WctlFault::Bad) => return Err(Fault::Refused(BAD_WCTL_COMMAND)),
            Err(WctlFault::Memory) => return Err(Fault::Memory),
        };
        match self.check_rectangle(serial, &command.what) {
            Ok(()) => Ok(()),
            Err(number) => Err(Fault::Refused(number)),
        }
    }

    /// The bytes of the window's image file from an offset on, at most `count`; for 0 those of the display's.
    #[tactic(auto, unfolding(crate::specs::isol::World::desktop_of))]
    pub(crate) fn picture_part(&self, serial: u32, offset: u64, count: u32) -> Result<Bytes, Memory>
        ensures part { IfOk result (λ bytes. bytes ≡ file_part (lone_desktop.picture (desktop_of self.now) serial) offset count) }
        ensures short { IfOk result (λ bytes. length bytes ≤ count) }
    {
        self.device
            .picture_part(Shown::Window(serial), offset, count)
    }
}
