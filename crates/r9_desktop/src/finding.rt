//! The windows and rios that paths and commands name (rio(4)).

ghost use Rattle.std.specs.Prelude.{◌≡◌, Some, None, Ok, Err, IfOk, IfErr};
ghost use Rattle.model_files.specs.wctl.Reading.{command_of};
ghost use Rattle.model_world.specs.Whole.{host_of, serial_of};
ghost use Rattle.r9_wctl.specs.wctl.Values.{command_of_code};
ghost use Rattle.r9_files.specs.around.Words.{IfRefused};
ghost use Rattle.r9_desktop.specs.World.{parts_of};

use crate::desktop::Desktop;
use r9_files::files::Fault;
use r9_text::Numbers;
use r9_wctl::wctl::{Command, WctlFault, read_wctl};
use std::alloc::Global;

/// The number of the refusal "bad wctl command".
pub(crate) const BAD_COMMAND: u8 = 47;

/// The command that a text spells; where windows are named, with the path of one. Refused by 47 exactly where it spells none.
pub(crate) fn read_command(alloc: Global, text: &[u8], with_id: bool) -> Result<Command, Fault>
    ensures read { IfOk result (λ c. command_of with_id text.now ≡ Some (command_of_code c)) }
    ensures none { IfErr result (λ f. IfRefused f (λ n. command_of with_id text.now ≡ None)) }
    ensures refused { IfErr result (λ f. IfRefused f (λ n. n ≡ 47)) }
{
    match read_wctl(alloc, text, with_id) {
        Ok(command) => Ok(command),
        Err(WctlFault::Bad) => Err(Fault::Refused(BAD_COMMAND)),
        Err(WctlFault::Memory) => Err(Fault::Memory),
    }
}

impl Desktop {
    /// The serial of the window of a path, or the refusal that is given.
    pub(crate) fn serial_of(&self, path: &Numbers, refusal: u8) -> Result<u32, u8>
        ensures found { IfOk result (λ serial. serial_of (parts_of self.now).table path.now refusal ≡ Ok serial) }
        ensures refused { IfErr result (λ n. serial_of (parts_of self.now).table path.now refusal ≡ Err n) }
    {
        match self.manager.find(path.as_slice()) {
            Some(serial) => Ok(serial),
            None => Err(refusal),
        }
    }

    /// The host of the rio in the window of a path, 0 for the empty one, or the refusal that is given.
    pub(crate) fn host_of(&self, path: &Numbers, refusal: u8) -> Result<u32, u8>
        ensures found { IfOk result (λ host. host_of (parts_of self.now).table path.now refusal ≡ Ok host) }
        ensures refused { IfErr result (λ n. host_of (parts_of self.now).table path.now refusal ≡ Err n) }
    {
        if path.is_empty() {
            return Ok(0);
        }
        let serial = self.serial_of(path, refusal)?;
        if self.manager.is_host(serial) {
            Ok(serial)
        } else {
            Err(refusal)
        }
    }
}
