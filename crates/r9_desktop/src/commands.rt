//! Commands to windows (rio(4)).

ghost use Rattle.std.specs.Prelude.{◌≡◌, Ok, Err, IfErr, OnOk};
ghost use Rattle.model_world.specs.Whole.{commanded, device_commanded};
ghost use Rattle.r9_files.specs.around.Words.{IfRefused};
ghost use Rattle.r9_desktop.specs.Words.{SameClients};
ghost use Rattle.r9_desktop.specs.World.{began_of, desktop_of};

use crate::desktop::Desktop;
use crate::finding::{BAD_COMMAND, read_command};
use r9_files::files::Fault;
use r9_wctl::wctl::{Command, Wctl};
use r9_wmgr::wmgr::Act;

impl Desktop {
    /// Does a command to a window. Refused by 47 exactly where the text spells none, and else by what the window manager refuses
    /// it by. Where it is refused, all is as before; of Memory nothing is said.
    #[tactic(auto, unfolding(crate::specs::World::desktop_of, crate::specs::World::began_of, model_world::specs::Whole::commanded))]
    pub fn command(&mut self, window: u32, text: &[u8]) -> Result<(), Fault>
        ensures done { OnOk result (commanded (desktop_of self.old) window text.now ≡ Ok (desktop_of self.new)) }
        ensures refused { IfErr result (λ f. IfRefused f (λ n. commanded (desktop_of self.old) window text.now ≡ Err n)) }
        ensures kept { IfErr result (λ f. IfRefused f (λ n. desktop_of self.new ≡ desktop_of self.old)) }
        ensures clients { OnOk result (SameClients (desktop_of self.old) (desktop_of self.new)) }
        ensures began { began_of self.new ≡ began_of self.old }
    {
        let command = read_command(self.alloc, text, false)?;
        self.step(Act::Command {
            window,
            what: command.what,
        })
    }

    /// Does a command to the device, which names its window by a path; a new window is made in the rio of that window. Refused
    /// by 47 exactly where the text spells none, or there is no such window or rio, and else by what the window manager refuses
    /// it by. Where it is refused, all is as before; of Memory nothing is said.
    #[tactic(auto, unfolding(crate::specs::World::desktop_of, crate::specs::World::began_of, model_world::specs::Whole::device_commanded))]
    pub fn device_command(&mut self, text: &[u8]) -> Result<(), Fault>
        ensures done { OnOk result (device_commanded (desktop_of self.old) text.now ≡ Ok (desktop_of self.new)) }
        ensures refused { IfErr result (λ f. IfRefused f (λ n. device_commanded (desktop_of self.old) text.now ≡ Err n)) }
        ensures kept { IfErr result (λ f. IfRefused f (λ n. desktop_of self.new ≡ desktop_of self.old)) }
        ensures clients { OnOk result (SameClients (desktop_of self.old) (desktop_of self.new)) }
        ensures began { began_of self.new ≡ began_of self.old }
    {
        let Command { what, id } = read_command(self.alloc, text, true)?;
        match what {
            Wctl::New { options, hide } => {
                let rio = self.host_of(&id, BAD_COMMAND)?;
                self.step(Act::New { rio, options, hide })
            }
            what => {
                let window = self.serial_of(&id, BAD_COMMAND)?;
                self.step(Act::Command { window, what })
            }
        }
    }
}
