//! Sessions that begin to use windows, and leave them (attach(5), rio(4)).

ghost use Rattle.std.specs.Prelude.{◌≡◌, Ok, Err, IfOk, IfErr, OnOk};
ghost use Rattle.std.specs.List.{fold};
ghost use Rattle.model_world.specs.Whole.{desktop_for, left_one, made_by, window_made};
ghost use Rattle.r9_wctl.specs.wctl.Values.{wctl_of};
ghost use Rattle.r9_tree.specs.Attached.{attach_of_code};
ghost use Rattle.r9_files.specs.around.Words.{IfRefused};
ghost use Rattle.r9_desktop.specs.Words.{SameClients};
ghost use Rattle.r9_desktop.specs.World.{began_in, began_of, desktop_of, parts_of};

use crate::desktop::Desktop;
use crate::finding::{BAD_COMMAND, read_command};
use crate::using::{add_user, is_user, remove_user, users_of};
use r9_files::files::Fault;
use r9_memory::Memory;
use r9_text::Numbers;
use r9_tree::Attach;
use r9_wctl::wctl::Wctl;
use r9_wmgr::wmgr::Act;

/// The number of the refusal "unknown id in attach".
const UNKNOWN_ATTACH: u8 = 41;

impl Desktop {
    /// Makes a window in the rio of a host, where that is what a command asks for. Refused by 47 exactly where it is not, and
    /// else as the window manager refuses it.
    fn make_by(&mut self, rio: u32, what: Wctl) -> Result<(), Fault>
        ensures made { OnOk result (made_by (parts_of self.old) rio (wctl_of what) ≡ Ok (parts_of self.new)) }
        ensures refused { IfErr result (λ f. IfRefused f (λ n. made_by (parts_of self.old) rio (wctl_of what) ≡ Err n)) }
        ensures kept { IfErr result (λ f. IfRefused f (λ n. parts_of self.new ≡ parts_of self.old)) }
        ensures clients { OnOk result (SameClients (parts_of self.old) (parts_of self.new)) }
        ensures began { began_in self.new ≡ began_in self.old }
    {
        match what {
            Wctl::New { options, hide } => self.step(Act::New { rio, options, hide }),
            _other => Err(Fault::Refused(BAD_COMMAND)),
        }
    }

    /// Makes a window in the rio of the window of a path, by the text of a command, and gives its serial. Refused by 41 exactly
    /// where there is no such rio, and else by what the command is refused by.
    #[tactic(auto, unfolding(model_world::specs::Whole::window_made))]
    fn make_window(&mut self, path: &Numbers, text: &[u8]) -> Result<u32, Fault>
        ensures made { IfOk result (λ window. window_made (parts_of self.old) path.now text.now ≡ Ok (parts_of self.new, window)) }
        ensures refused { IfErr result (λ f. IfRefused f (λ n. window_made (parts_of self.old) path.now text.now ≡ Err n)) }
        ensures kept { IfErr result (λ f. IfRefused f (λ n. parts_of self.new ≡ parts_of self.old)) }
        ensures clients { IfOk result (λ window. SameClients (parts_of self.old) (parts_of self.new)) }
        ensures began { began_in self.new ≡ began_in self.old }
    {
        let rio = self.host_of(path, UNKNOWN_ATTACH)?;
        let command = read_command(self.alloc, text, false)?;
        self.make_by(rio, command.what)?;
        Ok(self.manager.last_serial())
    }

    /// A session uses a window no longer, and where none does any more the window is deleted.
    #[tactic(auto, unfolding(model_world::specs::Whole::left_one))]
    fn leave_window(&mut self, session: u32, window: u32) -> Result<(), Memory>
        ensures left { OnOk result (parts_of self.new ≡ left_one session (parts_of self.old) window) }
        ensures clients { OnOk result (SameClients (parts_of self.old) (parts_of self.new)) }
        ensures began { began_in self.new ≡ began_in self.old }
    {
        if !is_user(&self.users, window, session) {
            return Ok(());
        }
        remove_user(self.alloc, &mut self.users, window, session)?;
        if !users_of(&self.users, window).is_empty() {
            return Ok(());
        }
        self.step_if(Act::Gone { window })
    }

    /// The same of windows, one after the other.
    fn leave_windows(&mut self, session: u32, windows: &[u32]) -> Result<(), Memory>
        ensures left { OnOk result (parts_of self.new ≡ fold (left_one session) (parts_of self.old) windows.now) }
        ensures clients { OnOk result (SameClients (parts_of self.old) (parts_of self.new)) }
        ensures began { began_in self.new ≡ began_in self.old }
    {
        for window in windows {
            self.leave_window(session, *window)?;
        }
        Ok(())
    }

    /// The serial of the window that the name of an attach asks for, which is made where it is a new one, and 0 for the device
    /// tree. The session uses the window from then on. Refused by 41 exactly where the name is none, or its window or host is
    /// not there; else a new window by what its command is refused by. Where it is refused, all is as before; of Memory nothing
    /// is said.
    #[tactic(auto, unfolding(crate::specs::World::desktop_of, crate::specs::World::began_of, model_world::specs::Whole::attached))]
    pub fn attach(&mut self, session: u32, name: &Attach) -> Result<u32, Fault>
        ensures attached { IfOk result (λ window. (desktop_for session).attached (desktop_of self.old) (attach_of_code name.now) ≡ Ok (desktop_of self.new, window)) }
        ensures refused { IfErr result (λ f. IfRefused f (λ n. (desktop_for session).attached (desktop_of self.old) (attach_of_code name.now) ≡ Err n)) }
        ensures kept { IfErr result (λ f. IfRefused f (λ n. desktop_of self.new ≡ desktop_of self.old)) }
        ensures clients { IfOk result (λ window. SameClients (desktop_of self.old) (desktop_of self.new)) }
        ensures began { began_of self.new ≡ began_of self.old }
    {
        let window = match name {
            Attach::Device => return Ok(0),
            Attach::Unknown => return Err(Fault::Refused(UNKNOWN_ATTACH)),
            Attach::Existing { path } => self.serial_of(path, UNKNOWN_ATTACH)?,
            Attach::New { path, command } => self.make_window(path, command.as_slice())?,
        };
        add_user(self.alloc, &mut self.users, window, session)?;
        Ok(window)
    }

    /// The session has no fid any more whose attach named one of these windows. A window that no session uses any more is
    /// deleted. Of Memory nothing is said.
    #[tactic(auto, unfolding(crate::specs::World::desktop_of, crate::specs::World::began_of))]
    pub fn left(&mut self, session: u32, windows: &Numbers) -> Result<(), Memory>
        ensures left { OnOk result (desktop_of self.new ≡ (desktop_for session).left (desktop_of self.old) windows.now) }
        ensures clients { OnOk result (SameClients (desktop_of self.old) (desktop_of self.new)) }
        ensures began { began_of self.new ≡ began_of self.old }
    {
        self.leave_windows(session, windows.as_slice())
    }
}
